//! What the records of a journal spell.
ghost use Rattle.std.specs.Prelude.{◌≡◌, ◌≢◌, ℕ, IfOk, IfErr, Some};
ghost use Rattle.journal_core.specs.Records.{payloads};
ghost use Rattle.kept_value.specs.View.{IsFirstBad};

use crate::fault::OpenFault;
use crate::value::KeptValue;
use std::alloc::Global;

/// What the records spell, from the first to the last. Each is let go of as it is read.
pub(crate) fn replay<V: KeptValue>(alloc: Global, records: Vec<Vec<u8>>) -> Result<V, OpenFault>
    ensures spelled { IfOk result (λ value. V.kind.spelled (payloads records.items) ≡ Some (V.state value)) }
    ensures sound { IfOk result V.IsSound }
    ensures bad { (index : ℕ) → IfErr result (λ fault. fault ≡ OpenFault.BadRecord index → IsFirstBad V.kind (payloads records.items) index) }
    ensures disk { IfErr result (λ fault. fault ≢ OpenFault.Disk) }
{
    let mut value = V::empty(alloc)?;
    let mut index = 0;
    for record in records {
        if !value.take(alloc, index, record.as_slice())? {
            return Err(OpenFault::BadRecord { index });
        }
        index += 1;
    }
    Ok(value)
}
