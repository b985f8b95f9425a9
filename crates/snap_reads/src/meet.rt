//! How a reader comes to see what the writer shows.
ghost use Rattle.std.specs.Prelude.{◌≡◌, ◌-◌, ◌≤◌, [], true, length, map, IfSome};
ghost use Rattle.std.specs.Arc.{arc_value};
ghost use Rattle.left_right.specs.Sides.{view};
ghost use Rattle.snap_reads.specs.Steps.{says};
ghost use Rattle.snap_reads.specs.Rule.{Shows};
ghost use Rattle.snap_reads.specs.Tables.{StartsWith};

use crate::rule::{Notes, Sees, ShownReader, ShownWriter};
use crate::shown::{Shown, carry_same};
use std::sync::Wait;

/// A reader that was told of all that was published so far. None where no place for a reader is free.
pub(crate) fn told_reader(writer: &mut ShownWriter) -> Option<ShownReader>
    ensures told { IfSome result (λ r. view r.place ≡ record { seen = []; told = (view writer.old.desk.place).seen }) }
    ensures shown { writer.new.desk.shown ≡ writer.old.desk.shown }
    ensures seat { view writer.new.desk.place ≡ view writer.old.desk.place }
    ensures log { (writer.new.log ≡ writer.old.log) × (writer.new.behind ≡ writer.old.behind) }
{
    let Ok(reader) = writer.factory().reader() else {
        return None;
    };
    let mut reader = reader;
    reader.learn::<Notes>(writer.tell::<Notes>());
    Some(reader)
}

/// Whether a place for one more reader is free.
pub(crate) fn has_place(writer: &ShownWriter) -> bool {
    writer.factory().reader().is_ok()
}

// Whether what a reader sees is what the writer shows.
fn sees_all(shown: &Shown, published: &Shown) -> bool
    ensures count { result ≡ true → shown.now.count ≡ published.now.count }
    ensures carried { result ≡ true → map arc_value shown.now.carried.items ≡ map arc_value published.now.carried.items }
{
    shown.count == published.count && carry_same(shown, published)
}

/// The reader looks until it sees what the writer shows. Then their lists are one, so all that the reader saw is a beginning of
/// what was published.
pub(crate) fn meet<W: Wait>(rt: &W, writer: &ShownWriter, reader: ShownReader)
    requires shows { Shows (says writer.now.desk.shown.value) (view writer.now.desk.place).seen }
    requires told { StartsWith (view writer.now.desk.place).seen (view reader.place).told }
    requires since { length (view writer.now.desk.place).seen - length (view reader.place).told ≤ length (map arc_value writer.now.desk.shown.value.carried.items) }
    ensures { StartsWith (view writer.now.desk.place).seen (view reader.place).seen }
{
    let mut reader = reader;
    for _ in rt.forever() {
        match reader.enter_as::<Sees>() {
            Ok(reading) => {
                let all = sees_all(reading.get(), writer.published());
                reader = reading.leave();
                if all {
                    return;
                }
            }
            Err(back) => reader = back,
        }
    }
    unreachable!()
}
