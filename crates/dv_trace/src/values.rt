//! Values of variables and ports.

use crate::line::{Datum, Values};
use crate::numbers::value_in;
use dv_bag::Discipline;
use dv_eval::Domain;

/// Reads one or more values with commas between them. Those of a bag have to ascend.
pub(crate) fn values_in(discipline: Discipline, text: &str) -> Option<Values<'_>> {
    if value_in(text).is_some() {
        return Some(Values { text, count: 1 });
    }
    let mut before = i64::MIN;
    let mut count: u64 = 0;
    for piece in text.split(',') {
        let value = value_in(piece)?;
        if discipline == Discipline::Bag && value < before {
            return None;
        }
        before = value;
        count = count.saturating_add(1);
    }
    Some(Values { text, count })
}

// Reads a bag or a queue in brackets, which may be empty.
fn held_in(discipline: Discipline, text: &str) -> Option<Values<'_>> {
    let inner = text.strip_prefix("[")?.strip_suffix("]")?;
    if inner.is_empty() {
        return Some(Values {
            text: inner,
            count: 0,
        });
    }
    values_in(discipline, inner)
}

/// Reads the value of a state variable with this domain.
pub(crate) fn datum_in(domain: Domain, text: &str) -> Option<Datum<'_>> {
    match domain {
        Domain::Number(_) => Some(Datum::Number(value_in(text)?)),
        Domain::Flag { .. } => match text {
            "true" => Some(Datum::Flag(true)),
            "false" => Some(Datum::Flag(false)),
            _ => None,
        },
        Domain::Held { discipline, .. } => Some(Datum::Held(held_in(discipline, text)?)),
    }
}
