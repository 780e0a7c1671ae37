//! Rows as comma-separated values.

use crate::error::TableError;
use crate::row::{Index, Row, Rows, State, Value};
use dv_trace::Datum;
use std::alloc::{AllocError, Global};
use std::io::Write;

/// The word of a record for a state variable.
const STATE: &str = "state";

/// Titles, and a record for each row. After the record of a transition there is one for each state
/// variable, since a field has one value.
#[derive(Drop)]
pub(crate) struct CsvRows<'w, W: Write> {
    writer: csv::Writer<&'w mut W>,
    // The text of the current record's value.
    value: String,
}

impl<'w, W: Write> CsvRows<'w, W> {
    /// Writes the titles.
    ///
    /// # Errors
    ///
    /// `Write`: a write failed.
    pub(crate) fn new(alloc: Global, writer: &'w mut W) -> Result<Self, TableError> {
        let mut rows = CsvRows {
            writer: csv::Writer::from_writer(writer),
            value: String::new(alloc),
        };
        rows.writer.write_fields(&[
            b"tick",
            b"microstep",
            b"component",
            b"what",
            b"name",
            b"value",
        ])?;
        Ok(rows)
    }

    // Writes a record with the value in `self.value`.
    fn put_record(&mut self, index: &Index<'_>, what: &str, name: &str) -> Result<(), TableError> {
        let mut digits = itoa::Buffer::new();
        for number in [index.time.tick, u64::from(index.time.micro)] {
            self.writer.write_field(digits.format(number).as_bytes())?;
        }
        let component = index.component.unwrap_or("");
        self.writer.write_field(component.as_bytes())?;
        self.writer.write_field(what.as_bytes())?;
        self.writer.write_field(name.as_bytes())?;
        self.writer.write_field(self.value.as_bytes())?;
        self.writer.end_record()?;
        Ok(())
    }

    fn put_state(&mut self, index: &Index<'_>, state: State<'_, '_>) -> Result<(), TableError> {
        for (name, datum) in state.names.iter().zip(state.data) {
            self.value.clear();
            push_datum(&mut self.value, *datum)?;
            self.put_record(index, STATE, state.tree.name(*name))?;
        }
        Ok(())
    }
}

impl<'w, W: Write> Rows for CsvRows<'w, W> {
    fn put(&mut self, index: &Index<'_>, row: Row<'_, '_>) -> Result<(), TableError> {
        self.value.clear();
        if let Value::Numbers(values) = row.value {
            self.value.push_str(values)?;
        }
        self.put_record(index, row.what, row.name)?;
        match row.value {
            Value::State(state) => self.put_state(index, state),
            Value::Nothing | Value::Numbers(_) => Ok(()),
        }
    }

    fn finish(&mut self) -> Result<(), TableError> {
        self.writer.flush()?;
        Ok(())
    }
}

fn push_datum(text: &mut String, datum: Datum<'_>) -> Result<(), AllocError> {
    match datum {
        Datum::Number(number) => write!(text, "{number}"),
        Datum::Flag(flag) => write!(text, "{flag}"),
        Datum::Held(values) => write!(text, "[{}]", values.text),
    }
}
