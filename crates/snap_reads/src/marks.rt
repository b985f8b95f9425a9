//! Of how much the readers that are out were told.
ghost use Rattle.std.specs.Prelude.{◌≡◌, IfOk};
ghost use Rattle.std.specs.Arc.{arc_value};

use std::alloc::{AllocError, Global};
use std::collections::VecDeque;
use std::sync::Arc;

/// Each reader that is out shares a mark, the number of those that it was told of. So a mark that nobody shares has no reader.
#[derive(Drop)]
pub(crate) struct Marks {
    alloc: Global,
    // They rise.
    marks: VecDeque<Arc<u64>>,
}

impl Marks {
    pub(crate) fn new(alloc: Global) -> Marks {
        Marks {
            alloc,
            marks: VecDeque::new(alloc),
        }
    }

    /// A share of the mark of a reader that is told of so many, which are no fewer than any reader was told of before.
    pub(crate) fn mark(&mut self, told: u64) -> Result<Arc<u64>, AllocError>
        ensures { IfOk result (λ mark. arc_value mark ≡ told) }
    {
        if let Some(last) = self.marks.back() {
            if **last == told {
                return Arc::try_clone(last);
            }
        }
        let Ok(mark) = Arc::new(self.alloc, told) else {
            return Err(AllocError);
        };
        let mine = Arc::try_clone(&mark)?;
        match self.marks.push_back(mark) {
            Ok(()) => Ok(mine),
            Err(_) => Err(AllocError),
        }
    }

    /// How many all readers that are out were told of: all that were published, where none is out.
    pub(crate) fn told_to_all(&mut self, published: u64) -> u64 {
        while let Some(first) = self.marks.front() {
            if Arc::strong_count(first) > 1 {
                return **first;
            }
            let _ = self.marks.pop_front();
        }
        published
    }
}
