//! The parts of a line.

use crate::line::{Datum, Sending};
use crate::model::index_of;
use crate::names::Directory;
use crate::refusal::{LineError, TraceReason};
use crate::values::{datum_in, values_in};
use dv_bag::Discipline;
use dv_eval::{Domain, Scope};
use dv_tree::Tree;
use memchr::memchr;

/// The word before the first space, and the text after it.
pub(crate) fn split_word(text: &str) -> (&str, &str) {
    let Some(end) = memchr(b' ', text.as_bytes()) else {
        return (text, "");
    };
    match text.split_at_checked(end) {
        Some((word, rest)) => (word, rest.strip_prefix(' ').unwrap_or(rest)),
        None => (text, ""),
    }
}

/// Reads `name=value` of the variable with this name, and returns the value and the text after it.
fn split_variable<'a>(
    name: &str,
    domain: Domain,
    text: &'a str,
) -> Result<(Datum<'a>, &'a str), TraceReason> {
    let Some(value) = text.strip_prefix(name) else {
        return Err(TraceReason::Variable);
    };
    let Some(value) = value.strip_prefix('=') else {
        return Err(TraceReason::Variable);
    };
    let (word, rest) = split_word(value);
    match datum_in(domain, word) {
        Some(datum) => Ok((datum, rest)),
        None => Err(TraceReason::Value),
    }
}

/// Reads the values of all state variables, in their order, and returns the text after them.
pub(crate) fn split_state<'a>(
    tree: &Tree,
    scope: &Scope,
    text: &'a str,
    state: &mut Vec<Datum<'a>>,
) -> Result<&'a str, LineError> {
    state.reserve_exact(scope.variables().len())?;
    let mut rest = text;
    for (name, domain) in scope.variables().iter().zip(scope.domains()) {
        match split_variable(tree.name(*name), *domain, rest) {
            Ok((datum, behind)) => {
                state.push(datum)?;
                rest = behind;
            }
            Err(reason) => return Err(LineError::Refused(reason)),
        }
    }
    Ok(rest)
}

/// The most names that are searched one after the other by their texts. Among more names, one is
/// looked up by its number.
const FEW_NAMES: usize = 8;

/// The index of the phase with this name.
pub(crate) fn phase_of(
    tree: &Tree,
    names: &Directory<'_>,
    scope: &Scope,
    name: &str,
) -> Option<u32> {
    if scope.phases().len() <= FEW_NAMES {
        u32::try_from(index_of(tree, scope.phases(), name)?).ok()
    } else {
        scope.phase(names.name(name)?)
    }
}

/// Whose output ports are named.
#[derive(Clone, Copy)]
pub(crate) enum Sender<'s> {
    Component(&'s Scope),
    Root,
}

/// The index of the output port with this name.
fn port_of(tree: &Tree, names: &Directory<'_>, sender: Sender<'_>, name: &str) -> Option<usize> {
    match sender {
        Sender::Component(scope) if scope.outputs().len() <= FEW_NAMES => {
            index_of(tree, scope.outputs(), name)
        }
        Sender::Component(scope) => scope.output(names.name(name)?),
        Sender::Root => names.output(name),
    }
}

/// Reads `port:v,v`.
fn sending_in<'a>(
    tree: &Tree,
    names: &Directory<'_>,
    sender: Sender<'_>,
    word: &'a str,
) -> Result<Sending<'a>, TraceReason> {
    let Some((name, values)) = word.split_once(':') else {
        return Err(TraceReason::Form);
    };
    let Some(port) = port_of(tree, names, sender, name) else {
        return Err(TraceReason::Port);
    };
    match values_in(Discipline::Bag, values) {
        Some(values) => Ok(Sending { port, values }),
        None => Err(TraceReason::Value),
    }
}

/// Reads `port:v,v port:v`. The ports have to be in their order.
pub(crate) fn read_sendings<'a>(
    tree: &Tree,
    names: &Directory<'_>,
    sender: Sender<'_>,
    text: &'a str,
    sent: &mut Vec<Sending<'a>>,
) -> Result<(), LineError> {
    // Mostly one port sends something.
    sent.reserve_exact(1)?;
    let mut least = 0;
    for word in text.split(' ') {
        match sending_in(tree, names, sender, word) {
            Ok(sending) if sending.port >= least => {
                least = sending.port.saturating_add(1);
                sent.push(sending)?;
            }
            Ok(_) => return Err(LineError::Refused(TraceReason::Port)),
            Err(reason) => return Err(LineError::Refused(reason)),
        }
    }
    Ok(())
}

/// Reads the text after the state of a component: nothing, or `> ` and what it sent.
pub(crate) fn read_sent<'a>(
    tree: &Tree,
    names: &Directory<'_>,
    scope: &Scope,
    text: &'a str,
    sent: &mut Vec<Sending<'a>>,
) -> Result<(), LineError> {
    if text.is_empty() {
        return Ok(());
    }
    match text.strip_prefix("> ") {
        Some(text) => read_sendings(tree, names, Sender::Component(scope), text, sent),
        None => Err(LineError::Refused(TraceReason::Form)),
    }
}
