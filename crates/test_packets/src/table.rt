//! The cases.

use crate::cases::{Case, Committed, Row};
use dv_bag::{Fault, Kind};
use dv_proc::{Event, Refused};
use dv_time::Time;

/// A time, by its tick and its microstep.
macro_rules! at {
    ($tick:literal, $micro:literal) => {
        Time {
            tick: $tick,
            micro: $micro,
        }
    };
}

/// Two events in their order.
const FIRST: Event = Event {
    time: at!(0, 2),
    component: 1,
    port: 0,
    value: 1,
    copies: 1,
};

const SECOND: Event = Event {
    time: at!(0, 2),
    component: 1,
    port: 0,
    value: 2,
    copies: 1,
};

/// An event where the window ends.
const AT_THE_END: Event = Event {
    time: at!(1, 0),
    component: 1,
    port: 0,
    value: 1,
    copies: 1,
};

/// One past the microstep limit.
const PAST_THE_LIMIT: Event = Event {
    time: at!(0, 4),
    component: 1,
    port: 0,
    value: 1,
    copies: 1,
};

/// One for a component of another process.
const FOR_ANOTHER: Event = Event {
    time: at!(0, 2),
    component: 0,
    port: 0,
    value: 1,
    copies: 1,
};

const WITHOUT_COPIES: Event = Event {
    time: at!(0, 2),
    component: 1,
    port: 0,
    value: 1,
    copies: 0,
};

/// One of as many copies as there can be.
const OF_ALL_COPIES: Event = Event {
    time: at!(0, 2),
    component: 1,
    port: 0,
    value: 1,
    copies: u64::MAX,
};

const FOR_A_CELL: Event = Event {
    time: at!(3, 0),
    component: 1,
    port: 0,
    value: 10,
    copies: 1,
};

/// Packets that are refused, and one that is taken.
const REFUSALS: &[Row] = &[
    Row {
        link: 1,
        from: at!(0, 0),
        upto: at!(1, 0),
        events: &[],
        refusal: Some(Refused::NoSuchLink),
    },
    Row {
        link: 0,
        from: at!(0, 1),
        upto: at!(1, 0),
        events: &[],
        refusal: Some(Refused::OtherWindow),
    },
    Row {
        link: 0,
        from: at!(0, 1),
        upto: at!(0, 1),
        events: &[],
        refusal: Some(Refused::OtherWindow),
    },
    Row {
        link: 0,
        from: at!(0, 0),
        upto: at!(0, 0),
        events: &[],
        refusal: Some(Refused::NoWindow),
    },
    Row {
        link: 0,
        from: at!(0, 0),
        upto: at!(5, 1),
        events: &[],
        refusal: Some(Refused::NoWindow),
    },
    Row {
        link: 0,
        from: at!(0, 0),
        upto: at!(1, 4),
        events: &[],
        refusal: Some(Refused::NoWindow),
    },
    Row {
        link: 0,
        from: at!(0, 0),
        upto: at!(1, 0),
        events: &[AT_THE_END],
        refusal: Some(Refused::OtherEvent),
    },
    Row {
        link: 0,
        from: at!(0, 0),
        upto: at!(1, 0),
        events: &[PAST_THE_LIMIT],
        refusal: Some(Refused::OtherEvent),
    },
    Row {
        link: 0,
        from: at!(0, 0),
        upto: at!(1, 0),
        events: &[FOR_ANOTHER],
        refusal: Some(Refused::OtherEvent),
    },
    Row {
        link: 0,
        from: at!(0, 0),
        upto: at!(1, 0),
        events: &[SECOND, FIRST],
        refusal: Some(Refused::OtherEvent),
    },
    Row {
        link: 0,
        from: at!(0, 0),
        upto: at!(1, 0),
        events: &[],
        refusal: None,
    },
    Row {
        link: 0,
        from: at!(0, 0),
        upto: at!(1, 0),
        events: &[],
        refusal: Some(Refused::OtherWindow),
    },
];

const WITHOUT_COPIES_TAKEN: &[Row] = &[Row {
    link: 0,
    from: at!(0, 0),
    upto: at!(1, 0),
    events: &[WITHOUT_COPIES],
    refusal: None,
}];

const OF_ALL_COPIES_TAKEN: &[Row] = &[Row {
    link: 0,
    from: at!(0, 0),
    upto: at!(1, 0),
    events: &[OF_ALL_COPIES],
    refusal: None,
}];

const FOR_ONE_CELL: &[Row] = &[Row {
    link: 0,
    from: at!(0, 0),
    upto: at!(5, 0),
    events: &[FOR_A_CELL],
    refusal: None,
}];

/// The cases. The process has component 1, whose input port 0 leads from the other process.
pub const CASES: [Case; 3] = [
    Case {
        name: "refusals",
        rows: REFUSALS,
        committed: Committed::Nothing,
        clock: at!(1, 0),
        visits: 0,
    },
    Case {
        name: "an event without copies",
        rows: WITHOUT_COPIES_TAKEN,
        committed: Committed::Nothing,
        clock: at!(1, 0),
        visits: 0,
    },
    Case {
        name: "an event of all copies",
        rows: OF_ALL_COPIES_TAKEN,
        committed: Committed::Fault(at!(0, 2), 1, Fault::Flood),
        clock: at!(1, 0),
        visits: 1,
    },
];

/// The case of the process that has components 1 to 1,000: the first of these alone is visited,
/// once.
pub const CELLS: [Case; 1] = [Case {
    name: "an event for one of a thousand cells",
    rows: FOR_ONE_CELL,
    committed: Committed::Transition(at!(3, 0), 1, Kind::External),
    clock: at!(5, 0),
    visits: 1,
}];
