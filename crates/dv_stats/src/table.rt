//! Sections as text, in aligned columns or as comma-separated values.

use crate::cell::Cell;
use crate::section::{Kind, MOST_CELLS, Named, Row, Section};
use dv_trace::Text;
use std::fmt;
use std::fmt::{Display, Write};

/// What a column shows if there is no value.
const NOTHING: &str = "-";

/// The number of characters of what is written to it.
#[derive(Drop)]
struct Width {
    count: usize,
}

impl fmt::Write for Width {
    fn write_str(&mut self, text: &str) -> fmt::Result {
        self.count = self.count.saturating_add(text.chars().count());
        Ok(())
    }
}

fn width_of(shown: impl Display + Drop) -> usize {
    let mut width = Width { count: 0 };
    // Counting takes no memory, so there is no error.
    let _written = write!(width, "{shown}");
    width.count
}

/// The widths of columns, in characters.
#[derive(Clone, Copy)]
struct Columns {
    component: usize,
    name: usize,
    values: [usize; MOST_CELLS],
}

impl Columns {
    /// Columns that are wide enough for a section.
    fn of(section: &Section<'_>) -> Self {
        let mut columns = Columns {
            component: 0,
            name: 0,
            values: [0; MOST_CELLS],
        };
        for row in &section.rows {
            columns.widen(section.path_text(row.component), row);
        }
        columns
    }

    // Makes the columns wide enough for a row.
    fn widen(&mut self, path: &str, row: &Row<'_>) {
        self.component = self.component.max(width_of(path));
        self.name = self.name.max(width_of(row.name));
        for (width, cell) in self.values.iter_mut().zip(&row.cells) {
            *width = (*width).max(width_of(*cell));
        }
    }

    // Adds the line of a row: names aligned to the left, values to the right, with two blanks
    // before each value.
    fn push_line(&self, text: &mut Text, kind: Kind, path: &str, row: &Row<'_>) {
        self.push_names(text, kind, path, row.name);
        for (width, cell) in self.values.iter().zip(&row.cells) {
            let width = *width;
            match cell {
                Cell::Nothing => text.show(format_args!("  {NOTHING:>width$}")),
                cell => {
                    let blanks = width.saturating_sub(width_of(*cell));
                    text.show(format_args!("  {:>blanks$}{cell}", ""));
                }
            }
        }
        text.add("\n");
    }

    // Adds the columns of names.
    fn push_names(&self, text: &mut Text, kind: Kind, component: &str, name: &str) {
        let (first, second) = (self.component, self.name);
        match kind.named() {
            Named::ByComponent => text.show(format_args!("{component:<first$}")),
            Named::ByName => text.show(format_args!("{name:<second$}")),
            Named::ByBoth => text.show(format_args!("{component:<first$}  {name:<second$}")),
        }
    }
}

/// Adds a section in aligned columns. Its first row has the titles; without further rows it is left
/// out.
pub(crate) fn push_columns(text: &mut Text, section: &Section<'_>) {
    if section.rows.len() < 2 {
        return;
    }
    let columns = Columns::of(section);
    text.add("\n");
    for row in &section.rows {
        columns.push_line(text, section.kind, section.path_text(row.component), row);
    }
}

/// Adds a section as comma-separated values: a line for each value, and one for each bin. No name
/// has a comma or a quote.
pub(crate) fn push_csv(text: &mut Text, section: &Section<'_>) {
    for row in &section.rows {
        push_row(text, section.kind, section.path_text(row.component), row);
    }
}

fn push_row(text: &mut Text, kind: Kind, path: &str, row: &Row<'_>) {
    if let Kind::Bins(_) = kind {
        return push_bin(text, kind, path, row);
    }
    let (word, name) = (kind.word(), row.name);
    for (measure, cell) in kind.measures().iter().zip(&row.cells) {
        text.show(format_args!("{word},{path},{name},{},{cell}\n", *measure));
    }
}

// Adds the line of a bin, whose measure is the range.
fn push_bin(text: &mut Text, kind: Kind, path: &str, row: &Row<'_>) {
    let (word, name) = (kind.word(), row.name);
    if let [from, to, count] = row.cells.as_slice() {
        text.show(format_args!("{word},{path},{name},{from}..{to},{count}\n"));
    }
}
