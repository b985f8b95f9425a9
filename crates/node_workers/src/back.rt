//! What is given back of a turn.
use std::alloc::AllocError;
use turn_scopes::access::Access;

/// The seat or the worker that took a turn, its access, and what it came to.
pub struct Back<A: Access, P, X> {
    pub part: P,
    pub access: A,
    pub answer: Result<X, AllocError>,
}

/// The value of an answer. Where memory was wanting, the caller gives the part and the access back with that.
#[macro_export]
macro_rules! or_back {
    ($part:ident, $access:ident, $answer:expr) => {
        match $answer {
            Ok(value) => value,
            Err(fault) => {
                return $crate::back::Back {
                    part: $part,
                    access: $access,
                    answer: Err(fault),
                };
            }
        }
    };
}
