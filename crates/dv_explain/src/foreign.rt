//! Words of other languages, where a text has them as names.

use crate::expectations::Expectations;
use crate::grammar::{ASSIGN, Part};
use dv_lex::{Keyword, Symbol, TokenKind, Tokens};

/// A sentence with a line feed on a word of another language, or an empty text. The word is the
/// token at index `number`, or the one before it if that begins a statement or a call.
pub fn foreign_at(read: &Tokens, number: usize, expected: &Expectations) -> &'static str {
    let here = sentence_on(name_at(read, number));
    let is_call = symbol_at(read, number) == Some(Symbol::OpenParen);
    if !here.is_empty() && symbol_at(read, number.saturating_add(1)) != Some(Symbol::Assign) {
        here
    } else if expected.have(ASSIGN) || is_call {
        sentence_on_beginning(name_at(read, number.saturating_sub(1)), expected, is_call)
    } else {
        ""
    }
}

/// A sentence on a name that begins neither a statement nor a call; `is_call` says whether an open
/// parenthesis follows it.
fn sentence_on_beginning(word: &str, expected: &Expectations, is_call: bool) -> &'static str {
    let before = sentence_on(word);
    if !before.is_empty() {
        before
    } else if is_call && !word.is_empty() {
        unknown_call(expected)
    } else {
        ""
    }
}

/// A sentence on parentheses after a name.
fn unknown_call(expected: &Expectations) -> &'static str {
    let is_in_rule = expected.have(Part::Operators)
        || expected.have(Part::OperatorsOfCompared)
        || expected.have(ASSIGN);
    if !is_in_rule {
        "Models, phases and ports have no parameters: write a model for each value.\n"
    } else if expected.version.knows_queues() {
        "The calls are `size(b)`, `sum(b)`, `least(b)`, `most(b)`, `times(1, b)` and `front(q)`; there are no others.\n"
    } else {
        "The calls are `size(b)`, `sum(b)`, `least(b)`, `most(b)` and `times(1, b)`; there are no others.\n"
    }
}

/// The text of the token at an index if it is a name, or else an empty text.
pub fn name_at(read: &Tokens, number: usize) -> &str {
    match read.tokens.get(number) {
        Some(token) => match token.kind {
            TokenKind::Name(name) => read.names.text(name).unwrap_or(""),
            TokenKind::Number(_) | TokenKind::Keyword(_) | TokenKind::Symbol(_) => "",
        },
        None => "",
    }
}

/// The sign that the token at an index is, if it is one.
pub fn symbol_at(read: &Tokens, number: usize) -> Option<Symbol> {
    match read.tokens.get(number)?.kind {
        TokenKind::Symbol(symbol) => Some(symbol),
        TokenKind::Name(_) | TokenKind::Number(_) | TokenKind::Keyword(_) => None,
    }
}

/// A sentence on a word that version 3 has taken from other languages and uses in none of its
/// forms, or an empty text.
pub fn sentence_on_unused(word: Keyword) -> &'static str {
    match word {
        Keyword::Const => sentence_on("const"),
        Keyword::Each => sentence_on("each"),
        Keyword::When => sentence_on("when"),
        _ => "",
    }
}

/// A sentence on a word of another language, or an empty text.
fn sentence_on(word: &str) -> &'static str {
    match FOREIGN.iter().find(|foreign| foreign.words.contains(&word)) {
        Some(foreign) => foreign.sentence,
        None => "",
    }
}

/// Words by which other languages take in another file.
pub const IMPORTS: &[&str] = &["import", "include", "use", "require", "using"];

/// On those words.
pub const NO_IMPORT: &str = "There is no import: all models are in one text, before `root`.\n";

/// Words of other languages with one meaning, and the sentence on them, with a line feed.
struct Foreign {
    words: &'static [&'static str],
    sentence: &'static str,
}

/// Words by which other languages declare something, then those of their statements and
/// expressions.
const FOREIGN: &[Foreign] = &[
    Foreign {
        words: &["const", "constant", "define", "param", "parameter"],
        sentence: "There are no constants: write the number itself, or `var n: 5..5 = 5;`, which keeps its value.\n",
    },
    Foreign {
        words: &["let"],
        sentence: "A variable is declared among the items of its model, by `var n: 0..9 = 0;`, and a rule assigns to it by `n := 1;`.\n",
    },
    Foreign {
        words: IMPORTS,
        sentence: NO_IMPORT,
    },
    Foreign {
        words: &[
            "int", "integer", "bool", "boolean", "float", "double", "real", "string",
        ],
        sentence: "A number is declared as `var n: 0..9 = 0;` with its range, and a truth value as `flag f = false;`.\n",
    },
    Foreign {
        words: &["array", "list", "vector"],
        sentence: "A bag holds several numbers, as `bag b 10;` for at most 10 of them.\n",
    },
    Foreign {
        words: &["state", "states", "phase"],
        sentence: "The phases are declared by `phases z, w;`, and the rest of the state by `var`, `flag` and `bag`.\n",
    },
    Foreign {
        words: &[
            "input", "inputs", "inport", "outputs", "outport", "port", "ports",
        ],
        sentence: "Ports are declared by `in x;` and `out y;`.\n",
    },
    Foreign {
        words: &[
            "model",
            "component",
            "components",
            "module",
            "class",
            "submodel",
        ],
        sentence: "A model is `atomic NAME { .. }` or `coupled NAME { .. }`, and becomes part of a coupled one by `part a: NAME;`.\n",
    },
    Foreign {
        words: &[
            "connect",
            "couple",
            "coupling",
            "couplings",
            "wire",
            "links",
        ],
        sentence: "Ports are coupled by `link a.y -> b.x;`.\n",
    },
    Foreign {
        words: &[
            "ta",
            "lambda",
            "delta",
            "delta_int",
            "delta_ext",
            "delta_con",
            "deltint",
            "deltext",
        ],
        sentence: "The time advance is `hold`, the output function `output`, and the transitions are `internal`, `external` and `confluent`.\n",
    },
    Foreign {
        words: &["function", "fn", "func", "def", "proc", "procedure"],
        sentence: "There are no functions: write the statements in each rule.\n",
    },
    Foreign {
        words: &["while", "loop", "repeat", "until", "do"],
        sentence: "There is no `while`: a rule runs once, `for v in b { .. }` goes through a bag, and a phase with `hold z: 0;` repeats at once.\n",
    },
    Foreign {
        words: &["range", "foreach"],
        sentence: "A loop goes through the values of a bag, as `for v in b { .. }`; a phase with `hold z: 0;` repeats at once.\n",
    },
    Foreign {
        words: &["each"],
        sentence: "Nothing makes copies of items: write each of them. A loop goes through the values of a bag, as `for v in b { .. }`.\n",
    },
    Foreign {
        words: &["switch", "case", "match", "when", "select"],
        sentence: "There is no `switch`: write `if n = 1 { .. } else { .. }`.\n",
    },
    Foreign {
        words: &["elif", "elsif", "elseif"],
        sentence: "Another condition is written `else { if .. { .. } }`, or `else if .. { .. }` in a text that begins with `version 3;`.\n",
    },
    Foreign {
        words: &["then", "begin", "end", "endif"],
        sentence: "A block is written in braces: `if n > 0 { .. }`.\n",
    },
    Foreign {
        words: &["return", "break", "continue", "exit"],
        sentence: "A rule runs to its end: put what may be skipped into an `if`.\n",
    },
    Foreign {
        words: &["print", "println", "printf", "log", "echo", "write"],
        sentence: "A rule prints nothing: the trace shows each transition with all variables.\n",
    },
    Foreign {
        words: &["max", "min"],
        sentence: "There is no `max` or `min` of two numbers: write `if a > b { .. } else { .. }`. Those of a bag are `most(b)` and `least(b)`.\n",
    },
    Foreign {
        words: &["abs"],
        sentence: "There is no `abs`: write `if a < b { n := b - a; } else { n := a - b; }`.\n",
    },
    Foreign {
        words: &[
            "random",
            "rand",
            "randint",
            "uniform",
            "normal",
            "exponential",
        ],
        sentence: "There are no random numbers: supply them as inputs, or compute them, as `n := (n * 75 + 74) % 65537;`.\n",
    },
    Foreign {
        words: &["mod", "rem", "modulo"],
        sentence: "The remainder of a division is written `%`.\n",
    },
    Foreign {
        words: &["div"],
        sentence: "`/` divides and drops the remainder.\n",
    },
    Foreign {
        words: &["xor"],
        sentence: "`f != g` is true if exactly one of the two is true.\n",
    },
    Foreign {
        words: &["set", "emit"],
        sentence: "A value is assigned by `n := 1;` and sent by `send y 1;`.\n",
    },
    Foreign {
        words: &["len", "length", "count"],
        sentence: "`size(b)` is the number of values in a bag.\n",
    },
    Foreign {
        words: &["empty", "is_empty", "isempty"],
        sentence: "`size(b) = 0` is true if there is no value in a bag.\n",
    },
    Foreign {
        words: &["clear", "reset"],
        sentence: "A bag loses all its values by `for v in b { drop v from b; }`.\n",
    },
    Foreign {
        words: &["wait", "delay", "sleep", "timeout"],
        sentence: "How long a phase lasts is declared by `hold z: 5;`.\n",
    },
    Foreign {
        words: &["next", "transition"],
        sentence: "The next phase is chosen by `goto z;`.\n",
    },
];
