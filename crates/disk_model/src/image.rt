// The image after a crash, made in place.
ghost use Rattle.std.specs.Prelude.{◌≡◌, ◌+◌, ◌≤◌, ◌<◌, length, take, drop};
ghost use Rattle.disk_model.specs.Disk.{Written, CutTo, changed, replayed};
ghost use Rattle.disk_model.specs.Crash.{high};
ghost use Rattle.disk_model.specs.Memory.{changes_of, halved, filled, all_filled, image};
ghost use Rattle.std.specs.Vec.{vec_capacity};

use crate::event::Event;

// Writes over what is there and past the end, within the capacity.
pub(crate) fn put(to: &mut Vec<u8>, at: u64, bytes: &[u8])
    requires room { length (changed (Written at bytes.now) to.old.items) ≤ vec_capacity to.old }
    ensures put { to.new.items ≡ changed (Written at bytes.now) to.old.items }
    ensures capacity { vec_capacity to.old ≤ vec_capacity to.new }
{
    let at = at as usize;
    if at > to.len() {
        to.resize(at, 0).unwrap();
        to.extend_from_slice(bytes).unwrap();
        return;
    }
    if bytes.len() <= to.len() - at {
        to[at..at + bytes.len()].copy_from_slice(bytes);
    } else {
        to.truncate(at);
        to.extend_from_slice(bytes).unwrap();
    }
}

// Makes these changes again.
pub(crate) fn replay(to: &mut Vec<u8>, events: &[Event])
    requires room { high (changes_of events.now) to.old.items ≤ vec_capacity to.old }
    ensures made { to.new.items ≡ replayed (changes_of events.now) to.old.items }
    ensures capacity { vec_capacity to.old ≤ vec_capacity to.new }
{
    for event in events {
        match event {
            Event::Write(at, bytes) => put(to, *at, bytes),
            Event::Cut(len) => to.truncate(*len as usize),
            Event::Sync => {}
            Event::Reopen(_) => {}
        }
    }
}

// Fills the part of a range that lies in the bytes.
pub(crate) fn fill(to: &mut [u8], at: u64, n: usize, byte: u8)
    ensures { to.new ≡ filled at n byte to.old }
{
    let at = (at as usize).min(to.len());
    let n = n.min(to.len() - at);
    to[at..at + n].fill(byte);
}

// Fills each range that was written.
pub(crate) fn fill_all(to: &mut [u8], events: &[Event], byte: u8)
    ensures { to.new ≡ all_filled byte (changes_of events.now) to.old }
{
    for event in events {
        if let Event::Write(at, bytes) = event {
            fill(to, *at, bytes.len(), byte);
        }
    }
}

// The image that the word picks, in the place of the synced bytes.
pub(crate) fn pick(to: &mut Vec<u8>, events: &[Event], word: u64)
    requires room { high (changes_of events.now) to.old.items ≤ vec_capacity to.old }
    requires changes { (length (changes_of events.now) ≡ length events.now) × (0 < length events.now) }
    ensures picked { to.new.items ≡ image word (record { synced = to.old.items; changes = changes_of events.now }) }
    ensures capacity { vec_capacity to.old ≤ vec_capacity to.new }
{
    match word % 4 {
        0 => {}
        1 => replay(to, events),
        2 => replay_half(to, events),
        _ => {
            replay(to, events);
            fill_all(to, events, (word / 4 % 256) as u8);
        }
    }
}

// All but the last, and of a last write the first half.
fn replay_half(to: &mut Vec<u8>, events: &[Event])
    requires room { high (changes_of events.now) to.old.items ≤ vec_capacity to.old }
    requires changes { (length (changes_of events.now) ≡ length events.now) × (0 < length events.now) }
    ensures made { to.new.items ≡ replayed (halved (changes_of events.now)) to.old.items }
    ensures capacity { vec_capacity to.old ≤ vec_capacity to.new }
{
    let last = events.len() - 1;
    replay(to, &events[..last]);
    match &events[last] {
        Event::Write(at, bytes) => put(to, *at, &bytes[..bytes.len() / 2]),
        Event::Cut(_) => {}
        Event::Sync => {}
        Event::Reopen(_) => {}
    }
}
