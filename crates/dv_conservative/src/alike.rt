//! Shares that run alike.

ghost use Rattle.std.specs.Prelude.{◌≡◌, ℕ, List};
ghost use Rattle.dv_time.specs.declared.time.Time.{Time};
ghost use Rattle.dv_conservative.specs.Alike.{AreAlike};
ghost use Rattle.dv_conservative.specs.Events.{Event};
ghost use Rattle.dv_conservative.specs.Process.{IsSettled, Outgoing, Packet, Share};
ghost use Rattle.dv_conservative.specs.Process.{components_by, packet_of, part_by, promise, refusal_of, sent_on};
ghost use Rattle.dv_conservative.specs.Turn.{IsTurnOf, Position, turned};

/// Shares that are alike run alike, for everything that they receive: they have the same
/// components, commit the same parts, send the same in the same packets, promise the same, and
/// refuse the same; a turn of one is a turn of the other, with the same answer. So a process with a
/// share of a plan runs as its share of the job.
pub fn alike_shares_run_alike()
    ensures itself { (s : Share) → AreAlike s s }
    ensures components { (s t : Share) (events : ℕ → List Event) (n : ℕ) → AreAlike s t
        → components_by s events n ≡ components_by t events n }
    ensures part { (s t : Share) (events : ℕ → List Event) (n : ℕ) → AreAlike s t
        → part_by s events n ≡ part_by t events n }
    ensures sent { (s t : Share) (events : ℕ → List Event) (out : Outgoing) (n : ℕ) → AreAlike s t
        → sent_on s events out n ≡ sent_on t events out n }
    ensures packet { (s t : Share) (events : ℕ → List Event) (out : Outgoing) (from upto : Time)
        → AreAlike s t
        → packet_of s events out from upto ≡ packet_of t events out from upto }
    ensures settled { (s t : Share) (received : ℕ → List Packet) (out : Outgoing) (upto : Time)
        → AreAlike s t
        → IsSettled s received out upto → IsSettled t received out upto }
    ensures promise { (s t : Share) (received : ℕ → List Packet) (k : ℕ) → AreAlike s t
        → promise s received k ≡ promise t received k }
    ensures refusal { (s t : Share) (received : ℕ → List Packet) (p : Packet) → AreAlike s t
        → refusal_of s received p ≡ refusal_of t received p }
    ensures turn { (s t : Share) (received : ℕ → List Packet) (x y : Position) → AreAlike s t
        → IsTurnOf s received x y → IsTurnOf t received x y }
    ensures answer { (s t : Share) (x y : Position) → AreAlike s t → turned s x y ≡ turned t x y }
{}
