//! Laws of refusals. Each function states a law in its contract; its body does nothing.

ghost use Rattle.std.specs.Prelude.{◌≡◌, ◌<◌, ◌≤◌, ℕ, List, All, Some};
ghost use Rattle.dv_parser.specs.Reading.{refusal_of_tokens};
ghost use Rattle.law_dead_ends.specs.Refusals.{BeginsFile, IsDeadEnd, NoneBeginsAt};

use dv_lex::{Refusal, Token};

/// The token that a refusal names is the first after which the tokens begin no file within the
/// limits on depth: those before it begin one. The number is E5 if the tokens up to this one still
/// begin a file without these limits, else E4. If the refusal is at the end of the text it is E4:
/// the tokens begin a file and are not a whole one.
pub fn refusals_are_dead_ends()
    ensures { (ts : List Token) (end : ℕ) (r : Refusal) → refusal_of_tokens ts end ≡ Some r
        → IsDeadEnd ts end r }
{}

/// A text has at most one first wrong token: two would have the same tokens before them, and the
/// same offset. It has none if its tokens begin a file.
pub fn a_first_wrong_token_is_one()
    ensures front { (ts : List Token) (m n : ℕ) (a : NoneBeginsAt ts m) (b : NoneBeginsAt ts n) →
        a.before ≡ b.before }
    ensures offset { (ts : List Token) (m n : ℕ) → NoneBeginsAt ts m → NoneBeginsAt ts n → m ≡ n }
    ensures none { (ts : List Token) (n : ℕ) → NoneBeginsAt ts n → ¬ BeginsFile ts }
{}

/// If the tokens are before the end of the text, so is their refusal, or it is at the end.
pub fn refusals_lie_in_the_text()
    ensures { (ts : List Token) (end : ℕ) (r : Refusal) →
        All (λ token. token.offset < end) ts → refusal_of_tokens ts end ≡ Some r → r.offset ≤ end }
{}
