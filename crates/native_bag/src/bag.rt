//! A bag of copies of messages, each of which may come again.
ghost use Rattle.std.specs.Prelude.{◌≡◌, ℕ, ◌-◌, ◌<◌, ◌≤◌, ◌%◌, List, [], ◌∷◌, ◌++◌, length, take, slice_get, option_copied, OnOk, OnErr, IsOk, None};
ghost use Rattle.slab.specs.Slab.{Updates};
ghost use Rattle.native_bag.specs.Bags.{most_strays, kept_with};
ghost use Rattle.native_bag.specs.Keys.{kept_of, IsSound, Stands};

use slab::Slab;
use std::alloc::{AllocError, Global};
use std::marker::Model;

/// How many copies are kept.
pub const MOST_STRAYS: usize = 64;

/// Copies of messages that may come again, at most 64, in the order in which they were kept. What a
/// message says doesn't matter here.
///
/// Memory: that of its copies. But for the newest a copy stays as long as the bag.
#[derive(Drop)]
pub struct Bag<M> {
    copies: Slab<M>,
    /// The key of each copy.
    keys: Vec<usize>,
}

impl<M> Model for Bag<M> {
    ghost use Rattle.std.specs.Prelude.{List};
    ghost use Rattle.std.specs.Coded.{coded_list};

    ghost Value = { List M };

    ghost coded = { coded_list M.code };

    ghost use Rattle.native_bag.specs.Keys.{kept_of, IsSound};

    ghost view = { λ b. kept_of b.copies b.keys.items };

    ghost invariant = { λ b. IsSound b.copies b.keys.items };
}

impl<M: Drop> Bag<M> {
    /// A bag with no copy in it.
    pub fn new(alloc: Global) -> Bag<M>
        ensures { result ≡ [] }
    {
        Bag {
            copies: Slab::new(alloc),
            keys: Vec::new(alloc),
        }
    }

    /// How many copies are kept.
    pub fn copies(&self) -> usize
        ensures count { result ≡ length self.now }
        ensures few { result ≤ most_strays }
    {
        self.keys.len()
    }

    /// The copy that this word picks: its number is the word modulo their number, in the order in
    /// which they were kept. It stays, and may come again.
    pub fn stray(&self, word: u64) -> Option<&M>
        ensures { option_copied result ≡ slice_get self.now (word % length self.now) }
    {
        let kept = self.keys.len();
        if kept == 0 {
            return None;
        }
        self.copies.get(self.keys[chosen(word, kept)])
    }

    /// Keeps a copy, where fewer than 64 are kept; else nothing changes. Want of memory changes
    /// nothing.
    ///
    /// Cost: amortised constant.
    pub fn keep_copy(&mut self, copy: M) -> Result<(), AllocError>
        ensures strays { OnOk result (self.new ≡ kept_with copy self.old) }
        ensures err { OnErr result (self.new ≡ self.old) }
        ensures full { most_strays ≤ length self.old → IsOk result }
    {
        if self.keys.len() >= MOST_STRAYS {
            return Ok(());
        }
        keep_in(&mut self.copies, &mut self.keys, copy)
    }

    /// Drops the copy that was kept last, if there is one: it is to be as if it had never been kept.
    pub fn drop_newest(&mut self)
        ensures { self.new ≡ take (length self.old - 1) self.old }
    {
        drop_in(&mut self.copies, &mut self.keys);
    }
}

/// Which of so many copies a word picks.
fn chosen(word: u64, kept: usize) -> usize
    requires { 0 < kept }
    ensures value { result ≡ word % kept }
    ensures here { result < kept }
{
    (word % kept as u64) as usize
}

/// Keeps one copy more. Room is made first.
fn keep_in<M: Drop>(copies: &mut Slab<M>, keys: &mut Vec<usize>, copy: M) -> Result<(), AllocError>
    requires { length keys.old.items < most_strays }
    ensures ok { OnOk result (IsSound copies.old keys.old.items → Stands copies.new keys.new.items (kept_of copies.old keys.old.items ++ copy ∷ [])) }
    ensures err { OnErr result (IsSound copies.old keys.old.items → Stands copies.new keys.new.items (kept_of copies.old keys.old.items)) }
{
    keys.reserve(1)?;
    copies.reserve(1)?;
    let key = copies.insert_reserved(copy);
    let Ok(_) = keys.push(key) else {
        unreachable!()
    };
    Ok(())
}

/// Drops the copy that was kept last, if there is one.
fn drop_in<M: Drop>(copies: &mut Slab<M>, keys: &mut Vec<usize>)
    ensures { IsSound copies.old keys.old.items → Stands copies.new keys.new.items (take (length (kept_of copies.old keys.old.items) - 1) (kept_of copies.old keys.old.items)) }
{
    let Some(key) = keys.pop() else {
        return;
    };
    drop_at(copies, key);
}

/// Drops the copy under this key.
fn drop_at<M: Drop>(copies: &mut Slab<M>, key: usize)
    ensures { Updates copies.old copies.new key None }
{
    let _ = copies.try_remove(key);
}
