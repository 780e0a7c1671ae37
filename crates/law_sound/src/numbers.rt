//! Rules keep to numbers of the language.

ghost use Rattle.std.specs.Prelude.{◌≡◌, ℕ, IfOk, IsTrue, List, Ok};
ghost use Rattle.std.specs.List.{AllByRecursion};
ghost use Rattle.dv_bag.specs.Arrivals.{Arrivals};
ghost use Rattle.dv_bag.specs.declared.inputs.Input.{Input};
ghost use Rattle.dv_bag.specs.declared.state.State.{State};
ghost use Rattle.dv_bag.specs.declared.state.Effect.{Effect};
ghost use Rattle.dv_check.specs.Writable.{IsWritable};
ghost use Rattle.dv_conservative.specs.Sound.{are_of_numbers};
ghost use Rattle.dv_devs.specs.Behaviour.{are_few};
ghost use Rattle.dv_eval.specs.Meaning.{effect_of};
ghost use Rattle.dv_eval.specs.Scope.{Scope};
ghost use Rattle.dv_inputs.specs.Reading.{reading_of};
ghost use Rattle.dv_syntax.specs.Trees.{FileTree, Statements};
ghost use Rattle.law_sound.specs.Jobs.{AllInputNumbers, IsModelOfNumbers};
ghost use Rattle.law_sound.specs.Kept.{are_kept, name_numbers};

/// From a state that holds only numbers of the language, if such numbers arrive and flood no port,
/// a rule leads to such a state, and sends such numbers.
pub fn rules_keep_numbers()
    ensures state { (scope : Scope) (body : Statements) (arrivals : Arrivals) (s : State)
        → IsTrue (name_numbers body) → IsTrue (are_of_numbers arrivals.received)
        → IsTrue (are_few arrivals.received)
        → IsTrue (are_kept s.variables)
        → IfOk (effect_of scope body arrivals s)
        (λ (e : Effect). IsTrue (are_kept e.state.variables)) }
    ensures sent { (scope : Scope) (body : Statements) (arrivals : Arrivals) (s : State)
        → IsTrue (name_numbers body) → IsTrue (are_of_numbers arrivals.received)
        → IsTrue (are_few arrivals.received)
        → IsTrue (are_kept s.variables)
        → IfOk (effect_of scope body arrivals s) (λ (e : Effect). IsTrue (are_of_numbers e.sent)) }
{}

/// The numbers of a file that could be written down are at most 2^63 - 1; so the rules of its
/// models name only numbers of the language, and their start states hold such numbers.
pub fn files_are_of_numbers()
    ensures { (f : FileTree) → IsWritable f → AllByRecursion IsModelOfNumbers f.models }
{}

/// The values of inputs that were read are numbers of the language.
pub fn inputs_are_of_numbers()
    ensures { (text : List ℕ) (ports : List (List ℕ)) (limit : ℕ) (inputs : List Input)
        → reading_of text ports limit ≡ Ok inputs → AllInputNumbers inputs }
{}
