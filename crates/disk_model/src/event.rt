// What was done to a disk in memory.
#[derive(Drop)]
pub(crate) enum Event {
    Write(u64, Vec<u8>),
    Cut(u64),
    Sync,
    Reopen(u64),
}
