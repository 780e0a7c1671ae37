//! Events, and the packets that carry them from one process to another.

ghost use Rattle.std.specs.Prelude.{◌≡◌, IsTrue};
ghost use Rattle.std.specs.Ordering.{is_lt};
ghost use Rattle.dv_bag.specs.Bag.{is_number};
ghost use Rattle.dv_conservative.specs.Events.{event_cmp};
ghost use Rattle.dv_proc.specs.Packets.{meant_event};

use dv_time::Time;
use std::cmp::Ordering;

/// So many copies of a value for an input port of a component, at a time.
#[derive(Clone, Copy, PartialEq, Eq)]
pub struct Event {
    /// The time at which the value arrives.
    pub time: Time,
    /// The number of the component.
    pub component: u32,
    /// The index of its input port.
    pub port: u32,
    /// The value.
    pub value: i64,
    /// How many copies of it arrive.
    pub copies: u64,
}

/// All events of a link in the window from `from` up to `upto`. Without events it is a null
/// message.
#[derive(Drop)]
pub struct Packet {
    /// The number of the link.
    pub link: u32,
    /// Where the window begins: no event is before it.
    pub from: Time,
    /// Where the window ends: every event is before it.
    pub upto: Time,
    /// All events of the window, in order.
    pub events: Vec<Event>,
}

impl Event {
    /// Its value. For the prover, that it is a number of the language.
    pub fn number(&self) -> i64
        ensures value { result ≡ self.now.value }
        ensures number { IsTrue (is_number result) }
    {
        self.value
    }

    /// Whether this event is before another in the order of packets: by time, component, port,
    /// value.
    pub fn precedes(&self, other: &Event) -> bool
        ensures { result ≡ is_lt (event_cmp (meant_event self.now) (meant_event other.now)) }
    {
        let order = self.time.cmp(&other.time).then(
            self.component.cmp(&other.component).then(
                self.port
                    .cmp(&other.port)
                    .then(self.value.cmp(&other.value)),
            ),
        );
        order == Ordering::Less
    }
}
