//! Events in the order in which packets carry them.

ghost use Rattle.std.specs.Prelude.{◌≡◌, ℕ, ◌+◌, ◌<◌, ◌≤◌, Bool, List, []};
ghost use Rattle.dv_bag.specs.Bag.{Counts};
ghost use Rattle.dv_time.specs.Time.{IsOfRun};
ghost use Rattle.dv_conservative.specs.Events.{AllHaveCopies, AllOfRun, AreInOrder, DeliverTheSame, Event, deliveries_at};
ghost use Rattle.dv_conservative.specs.Events.{events_between, in_order};
ghost use Rattle.dv_conservative.specs.Links.{Delivery, SameFor, delivered};

/// Deliveries in order deliver the same.
pub fn deliveries_in_order_deliver_the_same()
    ensures { (who : ℕ → Bool) (ds : List Delivery) → SameFor who (in_order ds) ds }
{}

/// The events of a window are in order, each with a copy, and at each rank of the window they are
/// what is sent there, in order; at other ranks there are none.
pub fn the_events_of_a_window()
    ensures order { (limit : ℕ) (stream : ℕ → List Delivery) (from upto : ℕ)
        → AreInOrder (events_between limit stream from upto) }
    ensures copies { (limit : ℕ) (stream : ℕ → List Delivery) (from upto : ℕ)
        → AllHaveCopies (events_between limit stream from upto) }
    ensures within { (limit : ℕ) (stream : ℕ → List Delivery) (from upto n : ℕ) → from ≤ n
        → n < upto
        → deliveries_at limit (events_between limit stream from upto) n ≡ in_order (stream n) }
    ensures before { (limit : ℕ) (stream : ℕ → List Delivery) (from upto n : ℕ) → n < from
        → deliveries_at limit (events_between limit stream from upto) n ≡ [] }
    ensures after { (limit : ℕ) (stream : ℕ → List Delivery) (from upto n : ℕ) → from ≤ n → upto ≤ n
        → deliveries_at limit (events_between limit stream from upto) n ≡ [] }
{}

/// Two lists of events of a run, in order and with copies, that deliver the same at each rank are
/// the same list.
pub fn events_in_order_are_what_they_deliver()
    ensures { (limit : ℕ) (es fs : List Event) → AreInOrder es → AreInOrder fs → AllHaveCopies es
        → AllHaveCopies fs
        → AllOfRun limit es → AllOfRun limit fs → DeliverTheSame limit es fs → es ≡ fs }
{}
