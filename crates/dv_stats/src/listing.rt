//! Writes the sections.

use crate::counts::Counts;
use crate::error::StatsError;
use crate::options::{Counted, Form, StatsOptions};
use crate::rows::section_of;
use crate::section::Kind;
use crate::table::{push_columns, push_csv};
use dv_text::hand_over;
use dv_trace::Text;
use std::alloc::AllocError;
use std::fmt::Display;
use std::io::Write;

/// Writes what was counted.
pub(crate) fn write_counts<'t, W: Write>(
    counted: Counted<'t>,
    counts: &Counts<'t>,
    writer: &mut W,
) -> Result<(), StatsError> {
    let mut text = Text::new(counted.alloc);
    push_counts(counted, counts, &mut text)?;
    hand_over(writer, text.whole()?.as_bytes())?;
    Ok(())
}

fn push_counts<'t>(
    counted: Counted<'t>,
    counts: &Counts<'t>,
    text: &mut Text,
) -> Result<(), AllocError> {
    push_span(text, counts.span.ticks(), &counted.options);
    for kind in Kind::ALL {
        let form = counted.options.form;
        let section = section_of(counted.alloc, counted.tree, counts, kind, form)?;
        match form {
            Form::Columns => push_columns(text, &section),
            Form::Csv => push_csv(text, &section),
        }
    }
    Ok(())
}

// Adds the number of ticks that count, and the options that were given.
fn push_span(text: &mut Text, ticks: u64, options: &StatsOptions<'_>) {
    let form = options.form;
    if let Form::Csv = form {
        text.add("kind,component,name,measure,value\n");
    }
    for (name, tick) in [
        ("ticks", Some(ticks)),
        ("from", options.excerpt.from),
        ("to", options.excerpt.to),
    ] {
        if let Some(tick) = tick {
            push_fact(text, form, name, tick);
        }
    }
    if let Some(only) = options.excerpt.only {
        push_fact(text, form, "only", only);
    }
}

fn push_fact(text: &mut Text, form: Form, name: &str, value: impl Display + Drop) {
    match form {
        Form::Columns => text.show(format_args!("{name} {value}\n")),
        Form::Csv => text.show(format_args!("run,,,{name},{value}\n")),
    }
}
