//! Laws of inputs. Each function states a law in its contract; its body does nothing.

ghost use Rattle.std.specs.Prelude.{◌≡◌, ℕ, ◌<◌, ◌≤◌, ◌++◌, ◌∷◌, List, [], ℤ, IfSome, count_by, replicate, length};
ghost use Rattle.dv_time.specs.Time.{IsOfRun, rank, time_of};
ghost use Rattle.dv_time.specs.declared.time.Time.{Time};
ghost use Rattle.dv_bag.specs.Bag.{Counts, bag_at, capped, count_of};
ghost use Rattle.dv_bag.specs.BagLists.{AreBags};
ghost use Rattle.dv_bag.specs.Inputs.{IsByTime, bags_at, inputs_at, inputs_before, is_of, next_from, start_of, time_at};
ghost use Rattle.dv_bag.specs.declared.inputs.Input.{Input};

/// The number of copies of a value that come in at a time and a port is the number of its inputs.
pub fn equal_inputs_are_copies()
    ensures ports { (ports : ℕ) (t : Time) (inputs : List Input)
        → length (bags_at ports inputs t) ≡ ports }
    ensures copies { (ports port : ℕ) (t : Time) (value : ℤ) (inputs : List Input) → port < ports
        → count_of value (bag_at (bags_at ports inputs t) port)
        ≡ capped (count_by (is_of t port value) inputs) }
{}

/// What comes in at a rank is a list of bags.
pub fn what_comes_in_stands_in_bags()
    ensures { (limit ports n : ℕ) (inputs : List Input) → AreBags (inputs_at limit ports inputs n) }
{}

/// Inputs come in at the ranks of their times. An input whose microstep is above the limit has no
/// rank and never comes in.
pub fn inputs_come_at_their_times()
    ensures at_rank { (limit ports : ℕ) (t : Time) (inputs : List Input) → IsOfRun limit t
        → inputs_at limit ports inputs (rank limit t) ≡ bags_at ports inputs t }
    ensures above { (limit ports n : ℕ) (i : Input) (front back : List Input)
        → limit < i.time.micro
        → inputs_at limit ports (front ++ i ∷ back) n ≡ inputs_at limit ports (front ++ back) n }
{}

/// The index of a rank is that of the first input that a run reaches there or later. It never
/// falls, and it stays the same up to that input's rank.
pub fn indices_follow_times()
    ensures next { (limit : ℕ) (inputs : List Input) (t : Time)
        → time_at inputs (inputs_before limit inputs t) ≡ next_from limit inputs t }
    ensures of_run { (limit : ℕ) (inputs : List Input) (t : Time)
        → IfSome (next_from limit inputs t) (IsOfRun limit) }
    ensures not_before { (limit n : ℕ) (inputs : List Input)
        → IfSome (next_from limit inputs (time_of limit n)) (λ t. n ≤ rank limit t) }
    ensures rises { (limit n m : ℕ) (inputs : List Input) → n ≤ m
        → inputs_before limit inputs (time_of limit n)
        ≤ inputs_before limit inputs (time_of limit m) }
    ensures same { (limit n m : ℕ) (inputs : List Input) → n ≤ m
        → IfSome (next_from limit inputs (time_of limit n)) (λ t. m ≤ rank limit t)
        → inputs_before limit inputs (time_of limit m)
        ≡ inputs_before limit inputs (time_of limit n) }
{}

/// From a rank on nothing comes in before the rank of the next input that a run reaches.
pub fn nothing_comes_in_between()
    ensures { (limit ports n m : ℕ) (inputs : List Input) → IsByTime inputs → n ≤ m
        → IfSome (next_from limit inputs (time_of limit n)) (λ t. m < rank limit t)
        → inputs_at limit ports inputs m ≡ replicate ports [] }
{}
