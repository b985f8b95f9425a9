//! What stands in a register.
ghost use Rattle.std.specs.Prelude.{◌≡◌};
ghost use Rattle.meta_register.specs.Records.{follows};
ghost use Rattle.meta_register.specs.Keeping.{older_after};

use crate::records::{read, spell};
use chain_map::first_chain;
use delos_types::bytes::Bytes;
use delos_types::chain::Chain;
use kept_value::KeptValue;
use std::alloc::{AllocError, Global};

// A write after which there are more records compacts them.
const MOST_RECORDS: usize = 64;

/// A version and its chain.
#[derive(Drop)]
pub(crate) struct Standing {
    pub(crate) version: u64,
    pub(crate) chain: Chain,
}

impl KeptValue for Standing {
    ghost use Rattle.meta_register.specs.Keeping.{standing_kind, IsWhole};

    type Change = Chain;

    ghost kind = { standing_kind };

    ghost state = { λ s. s };

    ghost IsSound = { IsWhole };

    ghost HasRoom = { λ s chain. Unit {0} };

    fn empty(alloc: Global) -> Result<Standing, AllocError> {
        Ok(Standing {
            version: 1,
            chain: first_chain(alloc)?,
        })
    }

    fn take(&mut self, alloc: Global, before: usize, bytes: &[u8]) -> Result<bool, AllocError> {
        let _other = before;
        let Some(next) = read(alloc, bytes)? else {
            return Ok(false);
        };
        if !is_next(self, &next) {
            return Ok(false);
        }
        *self = next;
        Ok(true)
    }

    fn spell(&self, alloc: Global, chain: &Chain) -> Result<Bytes, AllocError> {
        spell(alloc, self.version + 1, chain)
    }

    fn make_room(&mut self, chain: &Chain) -> Result<(), AllocError> {
        let _any = chain;
        Ok(())
    }

    fn change(&mut self, chain: Chain) {
        self.version += 1;
        self.chain = chain;
    }

    fn compacts(chain: &Chain, records: usize) -> bool {
        let _any = chain;
        MOST_RECORDS < records
    }

    fn compacted(&self, alloc: Global, chain: &Chain) -> Result<Vec<Vec<u8>>, AllocError> {
        let last = spell(alloc, self.version + 1, chain)?;
        let mut records = Vec::new(alloc);
        records.push(Vec::from_slice(alloc, last.as_slice())?)?;
        Ok(records)
    }
}

/// Whether this may stand next.
fn is_next(standing: &Standing, next: &Standing) -> bool
    ensures { result ≡ follows standing.now next.now }
{
    if standing.version == 1 {
        1 < next.version
    } else {
        next.version.checked_sub(1) == Some(standing.version)
    }
}

/// What was given last is the older one, where that isn't what stands now.
pub(crate) fn remember(older: &mut Option<Standing>, before: Standing, now: &Standing)
    ensures { older.new ≡ older_after before older.old now.now }
{
    if before.version < now.version {
        *older = older.take().or(Some(before));
    }
}
