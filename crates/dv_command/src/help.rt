//! The help of each subcommand and of its words, as tables.

use crate::asked::MOST_WORKERS;
use crate::number::number_in;
use dv_time::{GREATEST_LIMIT, GREATEST_TICK};

/// A subcommand: its name, what it does, and the words that it takes, in the order of the help.
pub(crate) struct SubcommandHelp {
    pub(crate) name: &'static str,
    pub(crate) about: &'static str,
    pub(crate) words: &'static [WordHelp],
}

/// A value, an option or a flag of a subcommand.
#[derive(Clone, Copy)]
pub(crate) struct WordHelp {
    /// The name, without hyphens.
    pub(crate) name: &'static str,
    pub(crate) form: Form,
    pub(crate) is_required: bool,
    pub(crate) help: &'static str,
}

/// How a word is given. The texts are the names of values in the help.
#[derive(Clone, Copy)]
pub(crate) enum Form {
    /// A value by itself: its place says which one it is.
    Plain(&'static str),
    /// One or more values, the last ones.
    Several(&'static str),
    /// `--name value`
    Option(&'static str, Value),
    /// `--name`
    Flag,
}

/// The value of an option.
#[derive(Clone, Copy)]
pub(crate) struct Value {
    /// What it is, for the error if it is something else.
    pub(crate) words: &'static str,
    /// The range, if it is a number; otherwise it may be any text.
    numbers: Option<Numbers>,
}

/// The numbers from the least to the greatest one, both included.
#[derive(Clone, Copy)]
struct Numbers {
    least: u64,
    greatest: u64,
}

impl Value {
    /// Whether a text is such a value.
    pub(crate) fn takes(self, text: &str) -> bool {
        match self.numbers {
            Some(numbers) => number_in(numbers.least, numbers.greatest, text).is_some(),
            None => true,
        }
    }
}

const FILE: Value = Value {
    words: "a file",
    numbers: None,
};

const TICK: Value = Value {
    words: "a tick, 0 to 10^15",
    numbers: Some(Numbers {
        least: 0,
        greatest: GREATEST_TICK,
    }),
};

const MODEL: WordHelp = WordHelp {
    name: "model-file",
    form: Form::Plain("MODEL"),
    is_required: true,
    help: "the file of the model, or - for standard input",
};

const TRACE: WordHelp = WordHelp {
    name: "trace",
    form: Form::Plain("TRACE"),
    is_required: true,
    help: "the file of the trace, as run printed it, or - for standard input",
};

const NAMES: WordHelp = WordHelp {
    name: "names",
    form: Form::Several("NAME"),
    is_required: true,
    help: "what is shown: a component by its path, a variable or port of it as PATH.NAME, or an output",
};

const CODE: WordHelp = WordHelp {
    name: "code",
    form: Form::Plain("CODE"),
    is_required: true,
    help: "the number of a refusal, as E7, I2 or Q3, or the name of a fault, as overflow",
};

const EXPLAIN: WordHelp = WordHelp {
    name: "explain",
    form: Form::Flag,
    is_required: false,
    help: "shows the line of a refusal, and what it means; after a run, where its faults came from",
};

const CSV: WordHelp = WordHelp {
    name: "csv",
    form: Form::Flag,
    is_required: false,
    help: "prints comma-separated values",
};

const JSON: WordHelp = WordHelp {
    name: "json",
    form: Form::Flag,
    is_required: false,
    help: "prints a line of JSON for each row",
};

const WARN: WordHelp = WordHelp {
    name: "warn",
    form: Form::Flag,
    is_required: false,
    help: "prints a warning for what is never used, never runs or is lost in silence",
};

const PARTIAL: WordHelp = WordHelp {
    name: "partial",
    form: Form::Flag,
    is_required: false,
    help: "takes a trace that stops before its end, and tells how far it reaches",
};

const HOLD_PORTS: WordHelp = WordHelp {
    name: "hold-ports",
    form: Form::Flag,
    is_required: false,
    help: "shows the last value of a port until the next one",
};

const TIMESCALE: WordHelp = WordHelp {
    name: "timescale",
    form: Form::Option(
        "T",
        Value {
            words: "a count and a unit, as 1ns, 10us or 100ms",
            numbers: None,
        },
    ),
    is_required: false,
    help: "what a tick is: 1, 10 or 100, and s, ms, us, ns, ps or fs (1s)",
};

const FROM: WordHelp = WordHelp {
    name: "from",
    form: Form::Option("T", TICK),
    is_required: false,
    help: "the first tick that counts, 0 to 10^15 (0)",
};

const TO: WordHelp = WordHelp {
    name: "to",
    form: Form::Option("T", TICK),
    is_required: false,
    help: "the last tick that counts, 0 to 10^15 (the end of the trace)",
};

const ONLY: WordHelp = WordHelp {
    name: "only",
    form: Form::Option(
        "PATH",
        Value {
            words: "a path",
            numbers: None,
        },
    ),
    is_required: false,
    help: "the path of what counts: a component, or a part with all that is in it (all)",
};

const FLOW: WordHelp = WordHelp {
    name: "flow",
    form: Form::Option(
        "FROM:TO",
        Value {
            words: "two ports, as source.box:done",
            numbers: None,
        },
    ),
    is_required: false,
    help: "prints how long values take from one port to another one, first in, first out",
};

const BY_VALUE: WordHelp = WordHelp {
    name: "by-value",
    form: Form::Flag,
    is_required: false,
    help: "with --flow, pairs a value that goes with the first one inside that is the same",
};

const QUANTILES: WordHelp = WordHelp {
    name: "quantiles",
    form: Form::Flag,
    is_required: false,
    help: "prints quantiles, too",
};

const STATS: WordHelp = WordHelp {
    name: "stats",
    form: Form::Flag,
    is_required: false,
    help: "prints the numbers of the trace in its place; --from, --to, --only, --flow, --by-value, --quantiles and --csv go with it",
};

const PROGRESS: WordHelp = WordHelp {
    name: "progress",
    form: Form::Flag,
    is_required: false,
    help: "tells once a second on standard error which tick is printed, and how many lines",
};

const HORIZON: WordHelp = WordHelp {
    name: "horizon",
    form: Form::Option("H", TICK),
    is_required: true,
    help: "the last tick of the run, 0 to 10^15",
};

const MICROSTEPS: WordHelp = WordHelp {
    name: "microsteps",
    form: Form::Option(
        "L",
        Value {
            words: "a microstep, 1 to 1000",
            numbers: Some(Numbers {
                least: 1,
                greatest: GREATEST_LIMIT as u64,
            }),
        },
    ),
    is_required: false,
    help: "the greatest microstep of a tick, 1 to 1000 (20)",
};

const INPUTS: WordHelp = WordHelp {
    name: "inputs",
    form: Form::Option("F", FILE),
    is_required: false,
    help: "the file of the inputs, with a line TICK PORT VALUE or TICK.MICRO PORT VALUE for each",
};

const PARTITION: WordHelp = WordHelp {
    name: "partition",
    form: Form::Option("F", FILE),
    is_required: false,
    help: "the file that says which components each process has",
};

const PROCESSES: WordHelp = WordHelp {
    name: "processes",
    form: Form::Option(
        "N",
        // A number above 256 is refused later, as Q4 of the model.
        Value {
            words: "a number of processes, 1 to 256",
            numbers: Some(Numbers {
                least: 0,
                greatest: u32::MAX as u64,
            }),
        },
    ),
    is_required: false,
    help: "the number of processes, 1 to 256, and no more than the components (1)",
};

const DEPTH: WordHelp = WordHelp {
    name: "depth",
    form: Form::Option(
        "N",
        Value {
            words: "a depth, 0 to 2^64-1",
            numbers: Some(Numbers {
                least: 0,
                greatest: u64::MAX,
            }),
        },
    ),
    is_required: false,
    help: "shows the coupled models at this depth as boxes; 0 is the root alone (all components)",
};

const PHASES: WordHelp = WordHelp {
    name: "model",
    form: Form::Option(
        "NAME",
        Value {
            words: "the name of an atomic model",
            numbers: None,
        },
    ),
    is_required: false,
    help: "shows the phases of the atomic model of this name, in the place of the components",
};

const ROUNDS: WordHelp = WordHelp {
    name: "rounds",
    form: Form::Option(
        "N",
        Value {
            words: "a number of rounds, 0 to 2^64-1",
            numbers: Some(Numbers {
                least: 0,
                greatest: u64::MAX,
            }),
        },
    ),
    is_required: false,
    help: "the most rounds of turns and packets (as many as it takes)",
};

const WORKERS: WordHelp = WordHelp {
    name: "workers",
    form: Form::Option(
        "N",
        Value {
            words: "a number of threads, 1 to 256",
            numbers: Some(Numbers {
                least: 1,
                greatest: MOST_WORKERS,
            }),
        },
    ),
    is_required: false,
    help: "the threads that run the processes, 1 to 256; not with --rounds (none but the program's own)",
};

/// The subcommands, in the order of the help.
const SUBCOMMANDS: &[SubcommandHelp] = &[
    SubcommandHelp {
        name: "check",
        about: "Checks a model and prints the number of its components",
        words: &[MODEL, WARN, EXPLAIN],
    },
    SubcommandHelp {
        name: "run",
        about: "Runs a model and prints its trace, or the numbers of it",
        words: &[
            MODEL, HORIZON, PARTITION, PROCESSES, INPUTS, MICROSTEPS, ROUNDS, WORKERS, STATS, FROM,
            TO, ONLY, FLOW, BY_VALUE, QUANTILES, CSV, PROGRESS, EXPLAIN,
        ],
    },
    SubcommandHelp {
        name: "plan",
        about: "Prints the processes of a model and the links between them",
        words: &[MODEL, PARTITION, PROCESSES, EXPLAIN],
    },
    SubcommandHelp {
        name: "graph",
        about: "Prints a model as a graph in the DOT language",
        words: &[MODEL, DEPTH, PHASES, PARTITION, PROCESSES, EXPLAIN],
    },
    SubcommandHelp {
        name: "code",
        about: "Prints the programs of a model, instruction by instruction",
        words: &[MODEL, EXPLAIN],
    },
    SubcommandHelp {
        name: "vcd",
        about: "Prints a trace as a value change dump, for wave viewers",
        words: &[
            MODEL, TRACE, INPUTS, FROM, TO, ONLY, HOLD_PORTS, TIMESCALE, PARTIAL, EXPLAIN,
        ],
    },
    SubcommandHelp {
        name: "plot",
        about: "Prints curves of a trace over time, as a picture (SVG)",
        words: &[MODEL, TRACE, NAMES, FROM, TO, PARTIAL, EXPLAIN],
    },
    SubcommandHelp {
        name: "stats",
        about: "Prints what a trace says of each component, in numbers",
        words: &[
            MODEL, TRACE, INPUTS, FROM, TO, ONLY, FLOW, BY_VALUE, QUANTILES, CSV, PARTIAL, EXPLAIN,
        ],
    },
    SubcommandHelp {
        name: "table",
        about: "Prints a trace as a table: transitions, values that were sent and values that came",
        words: &[MODEL, TRACE, INPUTS, FROM, TO, ONLY, JSON, PARTIAL, EXPLAIN],
    },
    SubcommandHelp {
        name: "explain",
        about: "Prints what a refusal or a fault means",
        words: &[CODE],
    },
];

/// The help of each subcommand.
pub(crate) fn subcommands() -> &'static [SubcommandHelp] {
    SUBCOMMANDS
}
