//! Laws of valid programs.

ghost use Rattle.std.specs.Prelude.{◌≡◌, ◌≢◌, ℕ, ℤ, ◌*◌, ◌^◌, ◌≤◌, List, length, Ok, Err};
ghost use Rattle.dv_bag.specs.Arrivals.{AreFew, Arrivals};
ghost use Rattle.dv_bag.specs.Bag.{Counts};
ghost use Rattle.dv_bag.specs.declared.state.State.{State};
ghost use Rattle.dv_bag.specs.declared.value.ValueType.{ValueType};
ghost use Rattle.dv_bag.specs.declared.fault.Fault.{Fault};
ghost use Rattle.dv_bag.specs.declared.fault.RuleError.TheVariants as error;
ghost use Rattle.dv_bag.specs.declared.state.Effect.{Effect};
ghost use Rattle.dv_bag.specs.Limits.{greatest_count};
ghost use Rattle.dv_code.specs.Shape.{AreSmall, Fits, Shape};
ghost use Rattle.dv_code.specs.Machine.{Outcome, Stuck, begins, first_effect, run};
ghost use Rattle.dv_code.specs.Operations.{going};
ghost use Rattle.dv_code.specs.Short.{Does};
ghost use Rattle.dv_code.specs.declared.short.Short.TheVariants.{Goes, Nothing};
ghost use Rattle.dv_code.specs.Runs.{Ends, GivesEffect, GivesNumber, GivesSent, IsOver};
ghost use Rattle.dv_code.specs.Outcomes.{effect_by, number_by, outcome_of};
ghost use Rattle.dv_code.specs.Valid.{EndsWell, IsSafe, IsValid, Program};
ghost use Rattle.dv_code.specs.declared.instruction.Instruction.{Instruction};

/// A valid program is never stuck, from any state that fits and whatever has arrived.
pub fn valid_programs_are_never_stuck()
    ensures { (shape : Shape) (left : List ValueType) (depth : ℕ) (code : List Instruction)
        → IsValid shape left depth code → (arrivals : Arrivals) (s : State)
        → Fits shape.slots s.variables
        → (n : ℕ) → run shape code arrivals n (begins shape s) ≢ Stuck }
{}

/// If no collection has more than `GREATEST_COUNT` values, a valid program ends or faults within
/// its length times `GREATEST_COUNT` to the power of the depth of its loops, in steps. The state
/// that it leaves fits, and the values on the stack have the types that it is to leave.
pub fn valid_programs_end()
    ensures { (p : Program) (left : List ValueType) (depth : ℕ)
        → IsValid p.shape left depth p.code → AreSmall p.shape.slots
        → (arrivals : Arrivals) → AreFew arrivals.received
        → (s : State) → Fits p.shape.slots s.variables
        → (n : ℕ) × (end : Outcome) × Ends p arrivals s n end
        × (n ≤ length p.code * greatest_count ^ depth) × EndsWell p.shape left end }
{}

/// A run ends in exactly one way, after one number of steps.
pub fn runs_end_in_one_way()
    ensures { (p : Program) (arrivals : Arrivals) (s : State) (m n : ℕ) (one two : Outcome)
        → Ends p arrivals s m one → Ends p arrivals s n two → (m ≡ n) × (one ≡ two) }
{}

/// What a program gives is how its run ends. The run ends after some number of steps, if the state
/// fits and no bag that arrived has too many values; and an outcome that it has reached after any
/// number of steps is the one that the program gives.
pub fn programs_give_how_their_runs_end()
    ensures ended { (p : Program) → IsSafe p → (arrivals : Arrivals) → AreFew arrivals.received
        → (s : State) → Fits p.shape.slots s.variables
        → (n : ℕ) × Ends p arrivals s n (outcome_of p arrivals s) }
    ensures outcome { (p : Program) → IsSafe p → (arrivals : Arrivals)
        → AreFew arrivals.received → (s : State) → Fits p.shape.slots s.variables
        → (n : ℕ) (end : Outcome) → run p.shape p.code arrivals n (begins p.shape s) ≡ end
        → IsOver end → outcome_of p arrivals s ≡ end }
{}

/// What the machine returns is what the program gives.
pub fn the_machine_gives_what_programs_give()
    ensures effect { (p : Program) → IsSafe p → (arrivals : Arrivals)
        → AreFew arrivals.received → (s : State) → Fits p.shape.slots s.variables
        → (n : ℕ) (e : Effect) → GivesEffect p arrivals s n (Ok e) → effect_by p arrivals s ≡ Ok e }
    ensures fault { (p : Program) → IsSafe p → (arrivals : Arrivals)
        → AreFew arrivals.received → (s : State) → Fits p.shape.slots s.variables
        → (n : ℕ) (f : Fault) → GivesEffect p arrivals s n (Err (error.Fault f))
        → effect_by p arrivals s ≡ Err f }
    ensures sent { (p : Program) → IsSafe p → (arrivals : Arrivals)
        → AreFew arrivals.received → (s : State) → Fits p.shape.slots s.variables
        → (n : ℕ) (sent : List Counts) → GivesSent p arrivals s n (Ok sent)
        → (e : Effect) × (effect_by p arrivals s ≡ Ok e) × (sent ≡ e.sent) }
    ensures output_fault { (p : Program) → IsSafe p → (arrivals : Arrivals)
        → AreFew arrivals.received → (s : State) → Fits p.shape.slots s.variables
        → (n : ℕ) (f : Fault) → GivesSent p arrivals s n (Err (error.Fault f))
        → effect_by p arrivals s ≡ Err f }
    ensures number { (p : Program) → IsSafe p → (arrivals : Arrivals)
        → AreFew arrivals.received → (s : State) → Fits p.shape.slots s.variables
        → (n : ℕ) (x : ℤ) → GivesNumber p arrivals s n (Ok x) → number_by p arrivals s ≡ Ok x }
    ensures hold_fault { (p : Program) → IsSafe p → (arrivals : Arrivals)
        → AreFew arrivals.received → (s : State) → Fits p.shape.slots s.variables
        → (n : ℕ) (f : Fault) → GivesNumber p arrivals s n (Err (error.Fault f))
        → number_by p arrivals s ≡ Err f }
{}

/// What programs give that do nothing, or only go to a phase, from any state that fits.
pub fn short_programs_do_what_they_say()
    ensures nothing { (p : Program) → IsSafe p → (arrivals : Arrivals)
        → AreFew arrivals.received → (s : State) → Fits p.shape.slots s.variables
        → Does Nothing p.code → effect_by p arrivals s ≡ Ok (first_effect p.shape s) }
    ensures goes { (p : Program) → IsSafe p → (arrivals : Arrivals)
        → AreFew arrivals.received → (s : State) → Fits p.shape.slots s.variables
        → (phase : ℕ) → Does (Goes phase) p.code
        → effect_by p arrivals s ≡ Ok (going phase (first_effect p.shape s)) }
{}

/// The state that a program leaves fits, if the state before it fits.
pub fn states_that_are_left_fit()
    ensures { (p : Program) → IsSafe p → (arrivals : Arrivals)
        → AreFew arrivals.received → (s : State) → Fits p.shape.slots s.variables
        → (e : Effect) → effect_by p arrivals s ≡ Ok e → Fits p.shape.slots e.state.variables }
{}
