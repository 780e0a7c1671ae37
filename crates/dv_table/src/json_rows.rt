//! Rows as JSON lines.

use crate::error::TableError;
use crate::row::{Index, Row, Rows, State, Value};
use dv_text::{hand_over, hand_over_if_long};
use dv_time::Time;
use dv_trace::Datum;
use serde::{Described, Serialize, Serializer};
use std::alloc::Global;
use std::io::Write;

/// A JSON object on a line of its own for each row.
#[derive(Drop)]
pub(crate) struct JsonRows<'w, W: Write> {
    alloc: Global,
    writer: &'w mut W,
    // The lines that are not written yet.
    text: String,
}

impl<'w, W: Write> JsonRows<'w, W> {
    /// No rows yet.
    pub(crate) fn new(alloc: Global, writer: &'w mut W) -> Self {
        JsonRows {
            alloc,
            writer,
            text: String::new(alloc),
        }
    }
}

impl<'w, W: Write> Rows for JsonRows<'w, W> {
    fn put(&mut self, index: &Index<'_>, row: Row<'_, '_>) -> Result<(), TableError> {
        let object = Object { index: *index, row };
        let line = serde_json::to_string(self.alloc, &object)?;
        writeln!(self.text, "{line}")?;
        hand_over_if_long(&mut self.text, self.writer)?;
        Ok(())
    }

    fn finish(&mut self) -> Result<(), TableError> {
        hand_over(self.writer, self.text.as_bytes())?;
        Ok(())
    }
}

// The object on a line. It has six members.
#[derive(Clone, Copy)]
struct Object<'p, 't, 'v> {
    index: Index<'p>,
    row: Row<'t, 'v>,
}

impl Described for Object<'_, '_, '_> {}

impl Serialize for Object<'_, '_, '_> {
    fn serialize<S: Serializer>(&self, out: &mut S) -> Result<(), S::Error> {
        out.begin_map(Some(6))?;
        put_time(self.index.time, out)?;
        put_words(self.index.component, self.row.what, self.row.name, out)?;
        out.key("value")?;
        put_value(self.row.value, out)?;
        out.end_map()
    }
}

fn put_time<S: Serializer>(time: Time, out: &mut S) -> Result<(), S::Error> {
    for (key, number) in [("tick", time.tick), ("microstep", u64::from(time.micro))] {
        out.key(key)?;
        out.u64(number)?;
    }
    Ok(())
}

fn put_words<'r, S: Serializer>(
    component: Option<&'r str>,
    what: &'r str,
    name: &'r str,
    out: &mut S,
) -> Result<(), S::Error> {
    for (key, word) in [
        ("component", component),
        ("what", Some(what)),
        ("name", Some(name)),
    ] {
        out.key(key)?;
        word.serialize(out)?;
    }
    Ok(())
}

fn put_value<S: Serializer>(value: Value<'_, '_>, out: &mut S) -> Result<(), S::Error> {
    match value {
        Value::Nothing => out.unit(),
        Value::Numbers(values) => put_numbers(values, out),
        Value::State(state) => put_state(state, out),
    }
}

// An object with a member for each state variable.
fn put_state<S: Serializer>(state: State<'_, '_>, out: &mut S) -> Result<(), S::Error> {
    out.begin_map(Some(state.data.len()))?;
    for (name, datum) in state.names.iter().zip(state.data) {
        out.key(state.tree.name(*name))?;
        put_datum(*datum, out)?;
    }
    out.end_map()
}

fn put_datum<S: Serializer>(datum: Datum<'_>, out: &mut S) -> Result<(), S::Error> {
    match datum {
        Datum::Number(number) => out.i64(number),
        Datum::Flag(flag) => out.bool(flag),
        Datum::Held(values) => put_numbers(values.text, out),
    }
}

// An array of the numbers between commas. All pieces are numbers: others are refused by the reader
// of the trace.
fn put_numbers<S: Serializer>(values: &str, out: &mut S) -> Result<(), S::Error> {
    out.begin_seq(None)?;
    for piece in values.split(',') {
        if let Ok(number) = piece.parse::<i64>() {
            out.i64(number)?;
        }
    }
    out.end_seq()
}
