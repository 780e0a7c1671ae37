//! Laws of superdense time. Each function states a law in its contract; its body does nothing.

ghost use Rattle.std.specs.Prelude.{◌≡◌, ◌↔◌, ℕ, ◌+◌, ◌*◌, ◌<◌, ◌≤◌, IsTrue, Ok, nat_lt, suc};
ghost use Rattle.std.specs.Ordering.{is_eq};
ghost use Rattle.std.specs.declared.cmp.Ordering.TheVariants.{Less};
ghost use Rattle.dv_time.specs.Time.{IsOfRun, after, end_of, is_before, rank, succ, time_cmp, time_of};
ghost use Rattle.dv_time.specs.declared.time.Time.{Time};

/// The times of a run are in order with the natural numbers.
pub fn ranks_are_the_order_of_times()
    ensures earlier_tick { (limit : ℕ) (a b : Time) → IsOfRun limit a → IsOfRun limit b
        → a.tick < b.tick → rank limit a < rank limit b }
    ensures earlier_microstep { (limit : ℕ) (a b : Time) → a.tick ≡ b.tick → a.micro < b.micro
        → rank limit a < rank limit b }
    ensures before { (limit : ℕ) (a b : Time) → IsOfRun limit a → IsOfRun limit b
        → rank limit a < rank limit b → time_cmp a b ≡ Less }
    ensures is_before { (limit : ℕ) (a b : Time) → IsOfRun limit a → IsOfRun limit b
        → is_before a b ≡ nat_lt (rank limit a) (rank limit b) }
    ensures same { (a b : Time) → IsTrue (is_eq (time_cmp a b)) ↔ (a ≡ b) }
    ensures time_at_rank { (limit : ℕ) (t : Time) → IsOfRun limit t
        → time_of limit (rank limit t) ≡ t }
    ensures rank_at_time { (limit n : ℕ) → rank limit (time_of limit n) ≡ n }
    ensures of_run { (limit n : ℕ) → IsOfRun limit (time_of limit n) }
{}

/// The next time has the next rank.
pub fn succ_has_the_next_rank()
    ensures { (limit : ℕ) (t : Time) → IsOfRun limit t
        → rank limit (succ limit t) ≡ rank limit t + 1 }
{}

/// A hold above 0 ends at the start of a tick, a hold of 0 at the next rank.
pub fn holds_end_later()
    ensures ticks { (limit hold : ℕ) (t u : Time) → after limit t (suc hold) ≡ Ok u
        → rank limit u ≡ (t.tick + suc hold) * (limit + 1) }
    ensures at_once { (limit : ℕ) (t u : Time) → after limit t 0 ≡ Ok u
        → rank limit u ≡ rank limit t + 1 }
{}

/// A time before the end of a run is within its horizon.
pub fn the_end_follows_the_horizon()
    ensures within { (limit horizon : ℕ) (t : Time) → IsOfRun limit t → t.tick ≤ horizon
        → rank limit t < end_of limit horizon }
    ensures past { (limit horizon : ℕ) (t : Time) → horizon < t.tick
        → end_of limit horizon ≤ rank limit t }
{}
