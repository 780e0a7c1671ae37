//! Lists of names, in words.

use dv_explain::Quoted;
use std::fmt;

/// The most names that are listed.
const MOST_LISTED: usize = 8;

/// Names in backquotes with commas between them, except before the last one.
#[derive(Clone, Copy)]
pub struct Listed<'a> {
    /// The names.
    pub names: &'a [&'a str],
    /// What is displayed between the last two names.
    pub before_last: &'static str,
}

impl fmt::Display for Listed<'_> {
    fn fmt<W: fmt::Write>(&self, f: &mut fmt::Formatter<W>) -> fmt::Result {
        let last = self.names.len().saturating_sub(1);
        for (index, name) in self.names.iter().enumerate() {
            let separator = if index == 0 {
                ""
            } else if index == last {
                self.before_last
            } else {
                ", "
            };
            write!(f, "{separator}{}", Quoted(name))?;
        }
        Ok(())
    }
}

/// Alternatives, such as "`a`, `b` or `c`". Of more than eight, the first eight and the number of
/// the others.
#[derive(Clone, Copy)]
pub struct Choice<'a>(pub &'a [&'a str]);

impl fmt::Display for Choice<'_> {
    fn fmt<W: fmt::Write>(&self, f: &mut fmt::Formatter<W>) -> fmt::Result {
        let names = self.0.get(..MOST_LISTED).unwrap_or(self.0);
        match self.0.len().saturating_sub(MOST_LISTED) {
            0 => {
                let before_last = " or ";
                write!(f, "{}", Listed { names, before_last })
            }
            more => {
                let before_last = ", ";
                write!(f, "{} and {more} more", Listed { names, before_last })
            }
        }
    }
}

/// A sentence with a line feed on what a place takes, and the names that fit.
#[derive(Clone, Copy)]
pub struct WantedSentence<'a, D> {
    /// What the place takes, with its article.
    pub wanted: D,
    /// What declares such names.
    pub owner: &'a str,
    /// The names that fit.
    pub names: &'a [&'a str],
}

impl<D: fmt::Display> fmt::Display for WantedSentence<'_, D> {
    fn fmt<W: fmt::Write>(&self, f: &mut fmt::Formatter<W>) -> fmt::Result {
        if self.names.is_empty() {
            write!(
                f,
                "This has to be {}, but {} has none.\n",
                self.wanted, self.owner
            )
        } else {
            write!(
                f,
                "This has to be {}: {}.\n",
                self.wanted,
                Choice(self.names)
            )
        }
    }
}
