//! Where an area lies on the disk.

// The length of the header, behind which areas lie.
pub(crate) const HEADER: u64 = 18;

/// A slot of the header, the base in it, and how far behind the base the area's last gate stands.
#[derive(Clone, Copy)]
pub(crate) struct Area {
    pub(crate) second: bool,
    pub(crate) base: u64,
    pub(crate) len: u64,
}

// The area of a disk that was made ready.
pub(crate) const FIRST: Area = Area {
    second: false,
    base: HEADER,
    len: 0,
};
