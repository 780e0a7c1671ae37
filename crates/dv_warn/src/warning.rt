//! The warnings and their sentences.

use dv_syntax::RuleSort;
use std::fmt;

/// The kind of a state variable.
#[derive(Clone, Copy)]
pub enum StateSort {
    /// A number.
    Variable,
    /// A truth value.
    Flag,
    /// A bag.
    Bag,
    /// A queue.
    Queue,
}

impl StateSort {
    fn noun(self) -> &'static str {
        match self {
            StateSort::Variable => "the variable",
            StateSort::Flag => "the flag",
            StateSort::Bag => "the bag",
            StateSort::Queue => "the queue",
        }
    }

    // The end of the sentence on a state variable that rules change and do not read.
    fn is_unread(self) -> &'static str {
        match self {
            StateSort::Variable | StateSort::Flag => {
                " is set but never read: only the trace shows it"
            }
            StateSort::Bag | StateSort::Queue => {
                " is changed but never read: only the trace shows it"
            }
        }
    }
}

/// Which way values go through a port.
#[derive(Clone, Copy)]
pub enum Direction {
    /// Values arrive at the port.
    Input,
    /// Values are sent from the port.
    Output,
}

impl Direction {
    fn noun(self) -> &'static str {
        match self {
            Direction::Input => "the input port",
            Direction::Output => "the output port",
        }
    }
}

/// Why a rule never runs.
#[derive(Clone, Copy)]
pub enum NeverRuns {
    /// It needs values that arrive, and the model has no input port.
    NoInput,
    /// It runs at the end of the hold, and the hold is `forever`.
    HeldForever,
    /// It runs for values that arrive before the end of the hold, and the hold of 0 ends before any
    /// can arrive.
    LeftAtOnce,
}

/// A warning, with the names that its sentence needs. `Display` writes the sentence.
#[derive(Clone, Copy)]
pub enum Warning<'a> {
    /// The root does not lead to a model.
    UnreachedModel {
        /// The name of the model.
        model: &'a str,
    },
    /// No rule and no hold uses a state variable.
    UnusedVariable {
        /// The kind of the state variable.
        sort: StateSort,
        /// Its name.
        name: &'a str,
    },
    /// Rules set or change a state variable, but nothing reads it.
    UnreadVariable {
        /// The kind of the state variable.
        sort: StateSort,
        /// Its name.
        name: &'a str,
    },
    /// A port has no link outside of its model, and nothing inside of the model uses it.
    UnusedPort {
        /// Whether it is an input or an output port.
        direction: Direction,
        /// The name of the port.
        port: &'a str,
    },
    /// No rule reads an input port, and each external or confluent rule reads another one.
    UnreadInput {
        /// The name of the port.
        port: &'a str,
    },
    /// No rule sends from an output port.
    UnsentOutput {
        /// The name of the port.
        port: &'a str,
    },
    /// No link leads to an input port, at any part of its model.
    UnfedInput {
        /// The name of the port.
        port: &'a str,
    },
    /// No link leads from an output port, at any part of its model.
    UntakenOutput {
        /// The name of the port.
        port: &'a str,
    },
    /// No link inside of a coupled model leads from one of its inputs, or to one of its outputs.
    UnlinkedInside {
        /// Whether it is an input or an output port.
        direction: Direction,
        /// The name of the coupled model.
        model: &'a str,
        /// The name of the port.
        port: &'a str,
    },
    /// No link leads to or from a part, and its model has ports.
    UnlinkedPart {
        /// The name of the part.
        part: &'a str,
    },
    /// No link leads to an input port of a part, but links lead to this port of other parts of the
    /// same model.
    UnfedPart {
        /// The name of the part.
        part: &'a str,
        /// The name of the first such input port.
        port: &'a str,
        /// How many more such input ports the part has.
        others: usize,
    },
    /// No sequence of rules leads from the start to a phase.
    UnreachedPhase {
        /// The name of the phase.
        phase: &'a str,
    },
    /// A phase has no external rule, but another phase of the model has one: what arrives in this
    /// phase is lost.
    LostValues {
        /// The name of the phase.
        phase: &'a str,
    },
    /// A phase of hold 0 has no external rule, but another phase of the model has one: what arrives
    /// as an internal rule leads to this phase is lost.
    LostOnArrival {
        /// The name of the phase.
        phase: &'a str,
    },
    /// A rule never runs.
    IdleRule {
        /// The sort of the rule.
        sort: RuleSort,
        /// The name of its phase.
        phase: &'a str,
        /// Why it never runs.
        reason: NeverRuns,
    },
    /// No rule leaves a phase of hold 0.
    EndlessPhase {
        /// The name of the phase.
        phase: &'a str,
    },
    /// From a phase of hold 0 rules lead only to others of hold 0.
    EndlessRound {
        /// The name of the phase.
        phase: &'a str,
    },
    /// A statement stands behind a `goto` in the same block, and runs all the same.
    BehindGoto {
        /// The name of the phase of the `goto`.
        phase: &'a str,
    },
    /// A `goto` stands directly behind another one.
    ReplacedGoto {
        /// The name of the phase of the first one.
        phase: &'a str,
    },
    /// A constant that is assigned to a variable is outside of its range.
    OutsideRange {
        /// The name of the variable.
        name: &'a str,
        /// The constant.
        number: i64,
        /// The least number of the range.
        low: i64,
        /// The greatest number of the range.
        high: i64,
    },
    /// The range of a variable by which a rule divides has 0, and no condition reads it.
    ZeroDivisor {
        /// The name of the variable.
        name: &'a str,
        /// The least number of the range.
        low: i64,
        /// The greatest number of the range.
        high: i64,
    },
    /// A condition has the same value whatever number of its range a variable has.
    DecidedByRange {
        /// The value.
        value: bool,
        /// The name of the variable.
        name: &'a str,
        /// The least number of the range.
        low: i64,
        /// The greatest number of the range.
        high: i64,
    },
    /// A condition uses no names, so it always has the same value.
    ConstantCondition {
        /// The value.
        value: bool,
    },
}

impl<'a> Warning<'a> {
    /// That no rule of its atomic model uses a port.
    pub(crate) fn unused_inside(direction: Direction, port: &'a str) -> Self {
        match direction {
            Direction::Input => Warning::UnreadInput { port },
            Direction::Output => Warning::UnsentOutput { port },
        }
    }

    /// That no link outside of its model leads to or from a port.
    pub(crate) fn unlinked_outside(direction: Direction, port: &'a str) -> Self {
        match direction {
            Direction::Input => Warning::UnfedInput { port },
            Direction::Output => Warning::UntakenOutput { port },
        }
    }
}

impl fmt::Display for Warning<'_> {
    fn fmt<W: fmt::Write>(&self, f: &mut fmt::Formatter<W>) -> fmt::Result {
        match self {
            Warning::UnreachedModel { model } => {
                write_named(f, "the root does not lead to the model", model, "")
            }
            Warning::UnusedVariable { sort, name } => {
                write_named(f, sort.noun(), name, IS_UNUSED)
            }
            Warning::UnreadVariable { sort, name } => {
                write_named(f, sort.noun(), name, sort.is_unread())
            }
            Warning::UnusedPort { direction, port } => {
                write_named(f, direction.noun(), port, IS_UNUSED)
            }
            Warning::UnreadInput { port } => {
                write_named(f, "no rule reads the input port", port, "")
            }
            Warning::UnsentOutput { port } => {
                write_named(f, "no rule sends from the output port", port, "")
            }
            Warning::UnfedInput { port } => {
                write_named(f, "no link leads to the input port", port, "")
            }
            Warning::UntakenOutput { port } => {
                write_named(f, "no link leads from the output port", port, "")
            }
            Warning::UnlinkedInside {
                direction,
                model,
                port,
            } => write_inside(f, *direction, model, port),
            Warning::UnlinkedPart { part } => {
                write_named(f, "no link leads to or from the part", part, "")
            }
            Warning::UnfedPart { part, port, others } => write_unfed(f, part, port, *others),
            Warning::UnreachedPhase { phase } => {
                write_named(f, "no rules lead from the start to the phase", phase, "")
            }
            Warning::LostValues { phase } => {
                write_named(f, "what arrives in the phase", phase, IS_LOST)
            }
            Warning::LostOnArrival { phase } => {
                let arrives = "what arrives as an internal rule leads to the phase";
                write_named(f, arrives, phase, IS_LOST)
            }
            Warning::IdleRule {
                sort,
                phase,
                reason,
            } => write_idle(f, *sort, phase, *reason),
            Warning::EndlessPhase { phase } => {
                write_named(f, "no rule leaves the phase", phase, BEGINS_AGAIN)
            }
            Warning::EndlessRound { phase } => {
                write_named(f, "rules lead from the phase", phase, STANDS_STILL)
            }
            Warning::BehindGoto { phase } => {
                write_named(
                    f,
                    "this runs although a `goto` stands before it, to",
                    phase,
                    ENDS_NONE,
                )
            }
            Warning::ReplacedGoto { phase } => {
                write_named(f, "this `goto` replaces the one before it, to", phase, "")
            }
            Warning::OutsideRange {
                name,
                number,
                low,
                high,
            } => write!(
                f,
                "{number} is outside of {low}..{high}, the range of `{name}`"
            ),
            Warning::ZeroDivisor { name, low, high } => write!(
                f,
                "`{name}` may be 0 here: it is in {low}..{high}, and no condition asks"
            ),
            Warning::DecidedByRange {
                value,
                name,
                low,
                high,
            } => write!(
                f,
                "this condition is always {value}: `{name}` is in {low}..{high}"
            ),
            Warning::ConstantCondition { value } => {
                write!(f, "this condition is always {value}")
            }
        }
    }
}

const IS_UNUSED: &str = " is never used";

const IS_LOST: &str = " is lost: it has no external rule";

const ENDS_NONE: &str = ": a `goto` ends no rule";

const STANDS_STILL: &str =
    " only to phases of hold 0: time stands still, until the fault `microsteps`";

const BEGINS_AGAIN: &str =
    ", whose hold is 0: it begins again at once, until the fault `microsteps`";

// Writes a sentence with one name in it.
fn write_named<W: fmt::Write>(
    f: &mut fmt::Formatter<W>,
    before: &str,
    name: &str,
    after: &str,
) -> fmt::Result {
    write!(f, "{before} `{name}`{after}")
}

fn write_inside<W: fmt::Write>(
    f: &mut fmt::Formatter<W>,
    direction: Direction,
    model: &str,
    port: &str,
) -> fmt::Result {
    let end = match direction {
        Direction::Input => "from the input",
        Direction::Output => "to the output",
    };
    write!(f, "inside of `{model}` no link leads {end} port `{port}`")
}

fn write_unfed<W: fmt::Write>(
    f: &mut fmt::Formatter<W>,
    part: &str,
    port: &str,
    others: usize,
) -> fmt::Result {
    write!(
        f,
        "no link leads to the input port `{port}` of the part `{part}`"
    )?;
    match others {
        0 => Ok(()),
        1 => f.write_str(", nor to another of its inputs"),
        _ => write!(f, ", nor to {others} others of its inputs"),
    }
}

fn write_idle<W: fmt::Write>(
    f: &mut fmt::Formatter<W>,
    sort: RuleSort,
    phase: &str,
    reason: NeverRuns,
) -> fmt::Result {
    let sort = sort_word(sort);
    let (before, after) = match reason {
        NeverRuns::NoInput => (
            "nothing arrives in the phase",
            " of a model without input ports",
        ),
        NeverRuns::HeldForever => ("the phase", " is held forever"),
        NeverRuns::LeftAtOnce => ("nothing arrives in the phase", " before its hold of 0 ends"),
    };
    write!(
        f,
        "{before} `{phase}`{after}, so its {sort} rule never runs"
    )
}

fn sort_word(sort: RuleSort) -> &'static str {
    match sort {
        RuleSort::Output => "output",
        RuleSort::Internal => "internal",
        RuleSort::External => "external",
        RuleSort::Confluent => "confluent",
    }
}

/// A warning and where it belongs.
#[derive(Clone, Copy)]
pub struct Found<'a> {
    /// The offset of the token to which the warning belongs, in bytes of the text.
    pub offset: u32,
    /// The warning.
    pub warning: Warning<'a>,
}
