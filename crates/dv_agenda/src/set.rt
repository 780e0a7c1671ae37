//! A set of numbers whose members are found fast, also if there are few of them.

ghost use Rattle.std.specs.Prelude.{◌≡◌, ◌≢◌, ℕ, ◌+◌, ◌*◌, ◌/◌, ◌^◌, ◌<◌, ◌≤◌, List, length, replicate, slice_index_or, IfOk};
ghost use Rattle.dv_agenda.specs.Sets.{has};

use crate::bits;
use std::alloc::{AllocError, Global};
use std::marker::Model;

/// A set of numbers, stored as the bits of words.
#[derive(Drop)]
pub(crate) struct Set {
    words: Vec<u64>,
    /// The set of the indices of the words that are not 0.
    heads: Vec<u64>,
}

impl Model for Set {
    ghost use Rattle.std.specs.Prelude.{List, ℕ};
    ghost use Rattle.dv_agenda.specs.Sets.{IsHeaded};

    ghost Value = { List ℕ };

    ghost view = { λ s. s.words.items };

    ghost invariant = { λ s. IsHeaded s.heads.items s.words.items };
}

impl Set {
    /// An empty set for numbers below `64 * words`.
    ///
    /// # Errors
    ///
    /// No memory for the words and one more for each 64 of them.
    pub(crate) fn new(alloc: Global, words: usize) -> Result<Set, AllocError>
        requires { words ≤ 2 ^ 44 }
        ensures { IfOk result (λ s. s ≡ replicate words 0) }
    {
        let mut all = Vec::new(alloc);
        all.resize(words, 0)?;
        let mut heads = Vec::new(alloc);
        heads.resize(words / 64 + 1, 0)?;
        Ok(Set { words: all, heads })
    }

    /// Adds a number.
    #[inline]
    pub(crate) fn insert(&mut self, number: usize)
        requires { number < 64 * length self.old }
        ensures size { length self.new ≡ length self.old }
        ensures there { has self.new number ≡ 1 }
        ensures others { (p : ℕ) → has self.old p ≡ 1 → has self.new p ≡ 1 }
    {
        let was_empty = self.words[number / 64] == 0;
        bits::insert(&mut self.words, number);
        if was_empty {
            bits::insert(&mut self.heads, number / 64);
        }
    }

    /// Removes a number.
    #[inline]
    pub(crate) fn remove(&mut self, number: usize)
        requires { number < 64 * length self.old }
        ensures size { length self.new ≡ length self.old }
        ensures gone { has self.new number ≡ 0 }
        ensures others { (p : ℕ) → p ≢ number → has self.old p ≡ 1 → has self.new p ≡ 1 }
        ensures fewer { (p : ℕ) → has self.old p ≡ 0 → has self.new p ≡ 0 }
    {
        bits::remove(&mut self.words, number);
        if self.words[number / 64] == 0 {
            bits::remove(&mut self.heads, number / 64);
        }
    }

    /// The first word in `from..end` that is not 0, or `end` if there is none.
    #[inline]
    pub(crate) fn next_word(&self, from: usize, end: usize) -> usize
        requires within { end ≤ length self.now }
        requires order { from ≤ end }
        ensures low { from ≤ result }
        ensures high { result ≤ end }
        ensures none { (p : ℕ) → 64 * from ≤ p → p < 64 * result → has self.now p ≡ 0 }
    {
        bits::next(&self.heads, from, end)
    }

    /// A word: bit `i` says whether `64 * at + i` is in the set.
    #[inline]
    pub(crate) fn word(&self, at: usize) -> u64
        requires { at < length self.now }
        ensures { result ≡ slice_index_or self.now at 0 }
    {
        self.words[at]
    }

    /// Removes all numbers of a word, and returns the word and the next one below `end` that is not
    /// 0, or `end` if there is none.
    #[inline]
    pub(crate) fn take_word(&mut self, at: usize, end: usize) -> (u64, usize)
        requires within { end ≤ length self.old }
        requires at { at < end }
        ensures word { result.0 ≡ slice_index_or self.old at 0 }
        ensures size { length self.new ≡ length self.old }
        ensures others { (p : ℕ) → p / 64 ≢ at → has self.old p ≡ 1 → has self.new p ≡ 1 }
        ensures low { at < result.1 }
        ensures high { result.1 ≤ end }
        ensures none { (p : ℕ) → 64 * (at + 1) ≤ p → p < 64 * result.1 → has self.new p ≡ 0 }
    {
        let word = self.words[at];
        self.words[at] = 0;
        let next = bits::pass(&mut self.heads, at, end);
        (word, next)
    }
}
