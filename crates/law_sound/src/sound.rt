//! The components of a text are sound.

ghost use Rattle.std.specs.Prelude.{◌≡◌, ℕ, Bool, IsTrue, List, Ok, Some};
ghost use Rattle.std.specs.List.{AllByRecursion};
ghost use Rattle.dv_bag.specs.Bag.{Counts};
ghost use Rattle.dv_bag.specs.declared.state.State.{State};
ghost use Rattle.dv_bound.specs.Response.{IsNotBelow, response_of};
ghost use Rattle.dv_conservative.specs.Sound.{IsSound};
ghost use Rattle.dv_devs.specs.Fits.{Keeps};
ghost use Rattle.dv_gen.specs.Generator.{goes};
ghost use Rattle.dv_gen.specs.ModelCode.{IsCompilable, phase_codes};
ghost use Rattle.dv_gen.specs.declared.model_code.PhaseCode.{PhaseCode};
ghost use Rattle.dv_syntax.specs.Trees.{AtomicTree};
ghost use Rattle.law_accepted.specs.Fitting.{fits};
ghost use Rattle.law_compiled.specs.Behaviours.{behaviour_by};
ghost use Rattle.law_sound.specs.Kept.{IsOfNumbers, fits_kept};
ghost use Rattle.law_sound.specs.Members.{member_of};

use dv_bound::laws::holds_of_gotos_are_not_below_the_response;
use dv_gen::laws::generated_programs_go_where_the_tree_goes;
use law_accepted::laws::{accepted_names_are_known, start_states_fit};
use law_compiled::laws::{hold_programs_are_not_below_the_response, programs_behave_as_rules};

/// The programs of a model lead from states that fit it to states that fit it, for any arrivals
/// that flood no port.
pub fn programs_keep_to_the_states_that_fit()
    ensures { (m : AtomicTree) (comes : List Counts → Bool) → IsCompilable m
        → Keeps (fits m) comes (behaviour_by (phase_codes m)) }
{
    programs_behave_as_rules();
}

/// Wherever a `Go` of an external rule's program leads, even one that does not run, the hold that
/// begins there by its program is not below the model's response, if it ends: from any state that
/// fits and holds numbers of the language.
pub fn holds_where_programs_go_are_not_below_the_response()
    ensures { (m : AtomicTree) → IsCompilable m
        → AllByRecursion (λ (c : PhaseCode). AllByRecursion (λ (index : ℕ). (s : State) (ticks : ℕ)
        → IsTrue (fits_kept m s) → s.phase ≡ index
        → (behaviour_by (phase_codes m)).hold s ≡ Ok (Some ticks)
        → IsNotBelow (response_of m) ticks) (goes c.external.code)) (phase_codes m) }
{
    programs_behave_as_rules();
    accepted_names_are_known();
    generated_programs_go_where_the_tree_goes();
    holds_of_gotos_are_not_below_the_response();
}

/// A component of an accepted text is sound, by its programs: their states fit and hold numbers of
/// the language, they send such numbers from them, and they have the model's response.
pub fn components_are_sound()
    ensures { (limit k : ℕ) (m : AtomicTree) → IsCompilable m → IsOfNumbers m
        → IsSound (fits_kept m) (response_of m) (member_of limit k m) }
{
    programs_behave_as_rules();
    hold_programs_are_not_below_the_response();
    start_states_fit();
}
