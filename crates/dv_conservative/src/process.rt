//! What a process knows of what it sends, for everything that it received.

ghost use Rattle.std.specs.Prelude.{◌≡◌, ℕ, suc, Bool, false, ◌<◌, ◌≤◌, List, None, min};
ghost use Rattle.dv_bag.specs.declared.state.State.{State};
ghost use Rattle.dv_time.specs.Time.{rank};
ghost use Rattle.dv_time.specs.declared.time.Time.{Time};
ghost use Rattle.dv_conservative.specs.Events.{in_order};
ghost use Rattle.dv_conservative.specs.Process.{IsSettled, MayCome, Outgoing, Packet, Share, brings, components_by, end_rank};
ghost use Rattle.dv_conservative.specs.Process.{events_by, known_until, least_clock, part_by, promise, refusal_of, sent_on};
ghost use Rattle.dv_conservative.specs.Process.{with_packet};
ghost use Rattle.dv_conservative.specs.Sound.{AllReceivedNumbers, IsSoundShare};

/// Promise: what a process sends before its promise is settled by what it received, true or not. A
/// promise is later than the clock, or at the end.
pub fn promises_are_settled()
    ensures settled { (fits : ℕ → State → Bool) (s : Share) (received : ℕ → List Packet) (k : ℕ)
        (out : Outgoing) (u : Time)
        → IsSoundShare fits s → AllReceivedNumbers received s.incoming → k ≤ least_clock s received
        → rank s.limit u ≤ promise s received k
        → IsSettled s received out u }
    ensures later { (fits : ℕ → State → Bool) (s : Share) (received : ℕ → List Packet) (k : ℕ)
        → IsSoundShare fits s → AllReceivedNumbers received s.incoming → k ≤ least_clock s received
        → min (suc k) (end_rank s) ≤ promise s received k }
    ensures within { (s : Share) (received : ℕ → List Packet) (k : ℕ)
        → promise s received k ≤ end_rank s }
{}

/// A packet that is accepted changes nothing of the local run before the least channel clock:
/// states, and what was committed and sent there, stay the same.
pub fn packets_come_later()
    ensures components { (s : Share) (received : ℕ → List Packet) (p : Packet) (n : ℕ)
        → refusal_of s received p ≡ None
        → n ≤ least_clock s received
        → components_by s (events_by (with_packet received p)) n
        ≡ components_by s (events_by received) n }
    ensures part { (s : Share) (received : ℕ → List Packet) (p : Packet) (n : ℕ)
        → refusal_of s received p ≡ None
        → n ≤ least_clock s received
        → part_by s (events_by (with_packet received p)) n ≡ part_by s (events_by received) n }
    ensures sent { (s : Share) (received : ℕ → List Packet) (p : Packet) (out : Outgoing) (n : ℕ)
        → refusal_of s received p ≡ None → n ≤ least_clock s received
        → sent_on s (events_by (with_packet received p)) out n
        ≡ sent_on s (events_by received) out n }
{}

/// How long a process knows what comes, by its first input: a rank before which nothing comes, and
/// at which something comes or the least channel clock is.
pub fn inputs_are_known_until_the_first()
    ensures { (s : Share) (received : ℕ → List Packet) (k n : ℕ) → k ≤ n
        → n ≤ least_clock s received
        → ((j : ℕ) → k ≤ j → j < n → brings s (events_by received) j ≡ false)
        → (brings s (events_by received) n ≡ false → n ≡ least_clock s received)
        → known_until s received k ≡ n }
{}

/// What is settled stays settled: if a packet of numbers is accepted, what is sent before a settled
/// time is the same as before, and the time is settled still.
pub fn what_is_settled_stays()
    ensures sent { (s : Share) (received : ℕ → List Packet) (p : Packet) (out : Outgoing) (u : Time)
        (n : ℕ)
        → refusal_of s received p ≡ None → MayCome s.limit p.from p.events
        → IsSettled s received out u
        → n < rank s.limit u → n < end_rank s
        → in_order (sent_on s (events_by (with_packet received p)) out n)
        ≡ in_order (sent_on s (events_by received) out n) }
    ensures settled { (s : Share) (received : ℕ → List Packet) (p : Packet) (out : Outgoing)
        (u : Time)
        → refusal_of s received p ≡ None → MayCome s.limit p.from p.events
        → IsSettled s received out u
        → IsSettled s (with_packet received p) out u }
{}
