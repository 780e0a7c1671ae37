//! Names as they are displayed.

use crate::unseen::visible;
use std::fmt;

/// The most characters that are shown of a name.
const SHOWN: usize = 60;

/// A name in backquotes, cut with a `…` after 60 characters. It may be any text in the place of a
/// name; characters that can't be seen are displayed as blanks.
#[derive(Clone, Copy)]
pub struct Quoted<'a>(pub &'a str);

impl fmt::Display for Quoted<'_> {
    fn fmt<W: fmt::Write>(&self, f: &mut fmt::Formatter<W>) -> fmt::Result {
        f.write_str("`")?;
        for character in self.0.chars().take(SHOWN) {
            write!(f, "{}", visible(character))?;
        }
        if self.0.chars().nth(SHOWN).is_some() {
            f.write_str("…")?;
        }
        f.write_str("`")
    }
}
