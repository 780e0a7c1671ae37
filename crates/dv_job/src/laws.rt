//! Laws of texts and models. Each function is the law in its contract; its body only names the laws
//! that it uses.

ghost use Rattle.std.specs.Prelude.{◌≡◌, ℕ, List, ◌⊎◌};
ghost use Rattle.dv_syntax.specs.Trees.{FileTree};
ghost use Rattle.dv_job.specs.Job.{HasAnswer, HasModel, IsAnswer, IsModelOf};

use dv_lex::TextError;
use dv_lex::laws::{
    a_text_has_tokens_or_a_refusal, refusals_are_unique, tokens_are_unique, tokens_or_refused,
};
use dv_parser::laws::{tokens_have_one_answer, tokens_spell_one_file};
use law_dead_ends::laws::{a_first_wrong_token_is_one, refusals_are_dead_ends};

/// A text has exactly one answer: a model, or a number with its line.
pub fn a_text_has_one_answer()
    ensures some { (text : List ℕ) → HasModel text ⊎ HasAnswer text }
    ensures one_model { (text : List ℕ) (names others : List (List ℕ)) (f g : FileTree) →
        IsModelOf text names f → IsModelOf text others g → (names ≡ others) × (f ≡ g) }
    ensures one_refusal { (text : List ℕ) (e other : TextError) →
        IsAnswer text e → IsAnswer text other → e ≡ other }
    ensures not_both { (text : List ℕ) (names : List (List ℕ)) (f : FileTree) (e : TextError) →
        IsModelOf text names f → ¬ IsAnswer text e }
{
    a_text_has_tokens_or_a_refusal();
    tokens_are_unique();
    tokens_or_refused();
    refusals_are_unique();
    tokens_spell_one_file();
    tokens_have_one_answer();
    refusals_are_dead_ends();
    a_first_wrong_token_is_one();
}
