//! What is published.
ghost use Rattle.std.specs.Prelude.{◌≡◌, IfOk, true, length};

use delos_types::bytes::Bytes;
use std::alloc::{AllocError, Global};
use std::marker::Model;

/// The key of a table has the value from here on; where there is none, it has no value from here on.
#[derive(Clone, Drop, Debug)]
pub struct Change {
    pub table: Bytes,
    pub key: Bytes,
    pub value: Option<Bytes>,
}

/// Changes, one after another.
#[derive(Drop)]
pub struct ChangeList {
    items: Vec<Change>,
}

impl Model for ChangeList {
    ghost use Rattle.std.specs.Prelude.{List};
    ghost use Rattle.snap_reads.specs.declared.change.Change.{Change};

    ghost Value = { List Change };

    ghost view = { λ l. l.items.items };
}

/// Changes that are made at once. Where they are the whole, nothing of what was in any table before stays.
#[derive(Drop)]
pub struct Changes {
    pub whole: bool,
    pub list: ChangeList,
}

/// What is published at one position.
#[derive(Drop)]
pub struct Published {
    pub pos: u64,
    pub changes: Changes,
}

impl Change {
    /// Whether both are the same change. It takes time that grows with them.
    pub(crate) fn is_same(&self, other: &Change) -> bool
        ensures { result ≡ true → self.now ≡ other.now }
    {
        if self.table != other.table || self.key != other.key {
            return false;
        }
        match (&self.value, &other.value) {
            (None, None) => true,
            (Some(one), Some(two)) => one == two,
            _ => false,
        }
    }
}

impl ChangeList {
    /// The list of these changes, which are not copied.
    pub fn from_vec(items: Vec<Change>) -> ChangeList
        ensures { result ≡ items.items }
    {
        ChangeList { items }
    }

    pub fn as_slice(&self) -> &[Change]
        ensures { result.now ≡ self.now }
    {
        self.items.as_slice()
    }

    fn copied(&self, alloc: Global) -> Result<ChangeList, AllocError>
        ensures { IfOk result (λ made. made ≡ self.now) }
    {
        let mut items = Vec::with_capacity(alloc, self.items.len())?;
        for change in &self.items {
            items.push(change.clone()?)?;
        }
        Ok(ChangeList { items })
    }
}

impl Published {
    /// A copy of the changes, at a position.
    pub(crate) fn copied(
        alloc: Global,
        pos: u64,
        changes: &Changes,
    ) -> Result<Published, AllocError>
        ensures { IfOk result (λ made. made ≡ record { pos = pos; changes = changes.now }) }
    {
        let list = changes.list.copied(alloc)?;
        let changes = Changes {
            whole: changes.whole,
            list,
        };
        Ok(Published { pos, changes })
    }

    /// Whether both are the same, change by change. It takes time that grows with them.
    pub(crate) fn is_same(&self, other: &Published) -> bool
        ensures { result ≡ true → self.now ≡ other.now }
    {
        self.pos == other.pos
            && self.changes.whole == other.changes.whole
            && are_same(self.changes.list.as_slice(), other.changes.list.as_slice())
    }
}

// Whether these are the same changes, in the same order.
fn are_same(one: &[Change], two: &[Change]) -> bool
    ensures { result ≡ true → one.now ≡ two.now }
{
    if one.len() != two.len() {
        return false;
    }
    for at in 0..one.len() {
        if !one[at].is_same(&two[at]) {
            return false;
        }
    }
    true
}
