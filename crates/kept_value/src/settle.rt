//! The change in which the disk failed.
ghost use Rattle.std.specs.Prelude.{◌≡◌, ◌||◌, nat_lt, OnOk};
ghost use Rattle.std.specs.Option.{ForSome};
ghost use Rattle.kept_value.specs.View.{reopened_by};

use crate::value::KeptValue;
use std::alloc::AllocError;

/// Makes room for it, if there is one.
pub(crate) fn make_room<V: KeptValue>(
    value: &mut V,
    asked: &Option<V::Change>,
) -> Result<(), AllocError>
    requires sound { V.IsSound value.old }
    requires can { ForSome asked.now (V.kind.CanChange (V.state value.old)) }
    ensures same { V.state value.new ≡ V.state value.old }
    ensures sound { V.IsSound value.new }
    ensures room { OnOk result (ForSome asked.now (V.HasRoom value.new)) }
{
    match asked {
        Some(change) => {
            value.make_room(change)?;
            Ok(())
        }
        None => Ok(()),
    }
}

/// Whether it is done, by how many records there were before a reopening, and are now: it is in any case where its record
/// stands.
pub(crate) fn is_done(stands: bool, before: usize, now: usize) -> bool
    ensures { result ≡ (stands || nat_lt before now) }
{
    stands || before < now
}

/// Makes it, if it is done.
pub(crate) fn settle<V: KeptValue>(value: &mut V, asked: Option<V::Change>, done: bool)
    requires sound { V.IsSound value.old }
    requires can { ForSome asked (V.kind.CanChange (V.state value.old)) }
    requires room { ForSome asked (V.HasRoom value.old) }
    ensures settled { V.state value.new ≡ reopened_by V.kind (V.state value.old) asked done }
    ensures sound { V.IsSound value.new }
{
    let Some(change) = asked else {
        return;
    };
    if done {
        value.change(change);
    }
}
