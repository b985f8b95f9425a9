//! What a word means for the messages of an operation.
ghost use Rattle.std.specs.Prelude.{◌≡◌, ◌<◌, ◌/◌, ◌%◌};
ghost use Rattle.fate_words.specs.Words.{fate_of, pick_of};

use crate::fates::Fate;

/// What becomes of a message by this word: of eight words in a row six deliver it, one delivers it
/// and keeps a copy, and one loses it.
pub fn fate(word: u64) -> Fate
    ensures { result ≡ fate_of word }
{
    match word % 8 {
        6 => Fate::DeliverAndKeep,
        7 => Fate::Lose,
        _ => Fate::Deliver,
    }
}

/// Which of `count` messages, numbered from 0, this word moves.
pub fn pick(word: u64, count: u64) -> u64
    requires { 0 < count }
    ensures value { result ≡ pick_of word count }
    ensures one { result < count }
{
    word / 8 % count
}
