//! Invisible characters, their names, and what is displayed in their place.

/// A range of invisible characters, both ends included, and what one of them is called.
struct Unseen {
    first: char,
    last: char,
    name: &'static str,
}

/// The invisible characters. If several entries have a character, the first one names it.
const UNSEEN: &[Unseen] = &[
    Unseen {
        first: '\u{0}',
        last: '\u{0}',
        name: "a null character",
    },
    Unseen {
        first: '\u{b}',
        last: '\u{b}',
        name: "a vertical tab",
    },
    Unseen {
        first: '\u{c}',
        last: '\u{c}',
        name: "a form feed",
    },
    Unseen {
        first: '\u{1b}',
        last: '\u{1b}',
        name: "an escape character",
    },
    Unseen {
        first: '\u{a0}',
        last: '\u{a0}',
        name: "a no-break space",
    },
    Unseen {
        first: '\u{ad}',
        last: '\u{ad}',
        name: "a soft hyphen",
    },
    Unseen {
        first: '\u{200b}',
        last: '\u{200b}',
        name: "a zero width space",
    },
    Unseen {
        first: '\u{200c}',
        last: '\u{200c}',
        name: "a zero width non-joiner",
    },
    Unseen {
        first: '\u{200d}',
        last: '\u{200d}',
        name: "a zero width joiner",
    },
    Unseen {
        first: '\u{200e}',
        last: '\u{200f}',
        name: "a mark of the writing direction",
    },
    Unseen {
        first: '\u{2028}',
        last: '\u{2028}',
        name: "a line separator",
    },
    Unseen {
        first: '\u{2029}',
        last: '\u{2029}',
        name: "a paragraph separator",
    },
    Unseen {
        first: '\u{202f}',
        last: '\u{202f}',
        name: "a narrow no-break space",
    },
    Unseen {
        first: '\u{2060}',
        last: '\u{2060}',
        name: "a word joiner",
    },
    Unseen {
        first: '\u{3000}',
        last: '\u{3000}',
        name: "an ideographic space",
    },
    Unseen {
        first: '\u{feff}',
        last: '\u{feff}',
        name: "a byte order mark",
    },
    Unseen {
        first: '\u{1}',
        last: '\u{8}',
        name: "a control character",
    },
    Unseen {
        first: '\u{e}',
        last: '\u{1f}',
        name: "a control character",
    },
    Unseen {
        first: '\u{7f}',
        last: '\u{9f}',
        name: "a control character",
    },
    Unseen {
        first: '\u{2000}',
        last: '\u{200a}',
        name: "a space that is not U+0020",
    },
    Unseen {
        first: '\u{205f}',
        last: '\u{205f}',
        name: "a space that is not U+0020",
    },
    Unseen {
        first: '\u{1680}',
        last: '\u{1680}',
        name: "a space that is not U+0020",
    },
];

/// The name of an invisible character, with its article; `None` for a visible one.
pub fn unseen_name(character: char) -> Option<&'static str> {
    match UNSEEN.iter().find(|unseen| unseen.first <= character && character <= unseen.last) {
        Some(unseen) => Some(unseen.name),
        None => None,
    }
}

/// A character as it is displayed: a blank for an invisible one other than a tab. So no displayed
/// text can control a terminal.
pub fn visible(character: char) -> char {
    if character != '\t' && (character < ' ' || unseen_name(character).is_some()) {
        ' '
    } else {
        character
    }
}
