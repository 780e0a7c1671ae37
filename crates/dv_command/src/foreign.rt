//! Words that other programs take, and what stands for them here.

/// Options of other programs with one meaning, and what to write instead.
struct Foreign {
    words: &'static [&'static str],
    reason: &'static str,
}

/// Options that other simulators and tools have.
const FOREIGN: &[Foreign] = &[
    Foreign {
        words: &[
            "--until",
            "--end",
            "--stop",
            "--time",
            "--duration",
            "--ticks",
            "-t",
        ],
        reason: "the last tick of a run is set by --horizon",
    },
    Foreign {
        words: &["--output", "--out", "--trace", "-o"],
        reason: "what is printed goes to a file by `> FILE`",
    },
    Foreign {
        words: &["--seed", "--random", "-s"],
        reason: "a run draws no random numbers: scripts/arrivals.py prints inputs at random times",
    },
    Foreign {
        words: &["--input", "-i"],
        reason: "the inputs of a run are given by --inputs",
    },
    Foreign {
        words: &["--threads", "--jobs", "-j"],
        reason: "the number of threads of a run is set by --workers",
    },
];

/// Why words that have one of another program are refused, if one is known. The first word is the
/// program's name.
pub(crate) fn foreign_reason(words: &[String]) -> Option<&'static str> {
    let first = words.get(1)?.as_str();
    if first == "version" {
        return Some("the version is asked for by the word --version, or -V");
    }
    if first.ends_with(".pd") || first.starts_with("--") {
        return Some("the first word is a subcommand, as in `run MODEL --horizon 10`");
    }
    words
        .iter()
        .skip(2)
        .find_map(|word| reason_of(word.as_str()))
}

/// Why words are refused of which one has a single dash and then at least two letters, as
/// `-horizon`.
pub(crate) fn dash_reason(words: &[String]) -> Option<&'static str> {
    let is_long = words
        .iter()
        .skip(1)
        .any(|word| is_long_behind_one_dash(word.as_str()));
    if is_long {
        Some("an option has two dashes before it, as in --horizon 10")
    } else {
        None
    }
}

// What stands for an option of another program, with or without a value behind `=`.
fn reason_of(word: &str) -> Option<&'static str> {
    let (name, _) = word.split_once('=').unwrap_or((word, ""));
    let foreign = FOREIGN
        .iter()
        .find(|foreign| foreign.words.contains(&name))?;
    Some(foreign.reason)
}

// Whether a word is one dash and at least two letters.
fn is_long_behind_one_dash(word: &str) -> bool {
    match word.as_bytes() {
        [b'-', first, second, ..] => first.is_ascii_alphabetic() && second.is_ascii_alphabetic(),
        _ => false,
    }
}
