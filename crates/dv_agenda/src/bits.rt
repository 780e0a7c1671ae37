//! Sets of numbers as the bits of words.

ghost use Rattle.std.specs.Prelude.{◌≡◌, ◌≢◌, ℕ, ◌+◌, ◌*◌, ◌/◌, ◌^◌, ◌<◌, ◌≤◌, length};
ghost use Rattle.std.specs.Int.{bit_at, trailing_zeros, w64};
ghost use Rattle.dv_agenda.specs.Sets.{has};

/// Adds a number to a set.
#[inline]
pub(crate) fn insert(words: &mut [u64], number: usize)
    requires { number < 64 * length words.old }
    ensures size { length words.new ≡ length words.old }
    ensures there { has words.new number ≡ 1 }
    ensures others { (p : ℕ) → p ≢ number → has words.new p ≡ has words.old p }
{
    words[number / 64] |= 1 << (number % 64);
}

/// Removes a number from a set.
#[inline]
pub(crate) fn remove(words: &mut [u64], number: usize)
    requires { number < 64 * length words.old }
    ensures size { length words.new ≡ length words.old }
    ensures gone { has words.new number ≡ 0 }
    ensures others { (p : ℕ) → p ≢ number → has words.new p ≡ has words.old p }
{
    words[number / 64] &= !(1 << (number % 64));
}

/// The least number of a set in `from..end`, or `end` if it has none there.
#[inline]
pub(crate) fn next(words: &[u64], from: usize, end: usize) -> usize
    requires within { end ≤ 64 * length words.now }
    requires order { from ≤ end }
    requires small { length words.now ≤ 2 ^ 50 }
    ensures low { from ≤ result }
    ensures high { result ≤ end }
    ensures none { (p : ℕ) → from ≤ p → p < result → has words.now p ≡ 0 }
{
    let mut at = from;
    while at < end {
        let rest = words[at / 64] >> (at % 64);
        if rest != 0 {
            let found = at + rest.trailing_zeros() as usize;
            return if found < end { found } else { end };
        }
        at = 64 * (at / 64 + 1);
    }
    end
}

/// Removes a number from a set, and returns the next greater one below `end`, or `end` if there is
/// none.
#[inline]
pub(crate) fn pass(words: &mut [u64], number: usize, end: usize) -> usize
    requires within { end ≤ 64 * length words.old }
    requires number { number < end }
    requires small { length words.old ≤ 2 ^ 50 }
    ensures size { length words.new ≡ length words.old }
    ensures others { (p : ℕ) → p ≢ number → has words.new p ≡ has words.old p }
    ensures low { number < result }
    ensures high { result ≤ end }
    ensures none { (p : ℕ) → number < p → p < result → has words.new p ≡ 0 }
{
    remove(words, number);
    let rest = words[number / 64] >> (number % 64);
    if rest != 0 {
        let found = number + rest.trailing_zeros() as usize;
        return if found < end { found } else { end };
    }
    let after = 64 * (number / 64 + 1);
    if after < end {
        next(words, after, end)
    } else {
        end
    }
}

/// The word with the bit of a number cleared.
#[inline]
pub(crate) fn without(word: u64, number: usize) -> u64
    requires { number < 64 }
    ensures gone { bit_at result number ≡ 0 }
    ensures others { (p : ℕ) → p < 64 → p ≢ number → bit_at result p ≡ bit_at word p }
    ensures less { bit_at word number ≡ 1 → result < word }
{
    word & !(1 << number)
}

/// Removes the least number from a word that is not 0, and returns it.
#[inline]
pub(crate) fn take_least(word: &mut u64) -> usize
    requires { 0 < word.old }
    ensures least { result ≡ trailing_zeros w64 word.old }
    ensures high { result < 64 }
    ensures gone { bit_at word.new result ≡ 0 }
    ensures others { (p : ℕ) → p < 64 → p ≢ result → bit_at word.new p ≡ bit_at word.old p }
    ensures less { word.new < word.old }
{
    let all = *word;
    let least = all.trailing_zeros() as usize;
    *word = without(all, least);
    least
}
