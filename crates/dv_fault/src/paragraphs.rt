//! The paragraphs on faults.

use crate::atom::Atom;
use crate::component::Component;
use crate::reaction::{Instant, kind_at, react};
use crate::stop::{Found, Site, Stop};
use dv_bag::{Fault, Kind};
use dv_explain::{Cause, Position, Quoted, Spot, explanation_of, pointed};
use dv_syntax::RuleSort;
use std::alloc::{AllocError, Global};

/// The most faults that are explained.
const SHOWN: u64 = 10;

/// What runs without a confluent rule.
const ORDER: &str = "its internal rule runs first, then the external rule of the phase reached.";

/// The text of a model: the name of its file, and its bytes.
#[derive(Clone, Copy)]
pub struct FileText<'a> {
    /// The name of the file.
    pub name: &'a str,
    /// The bytes of the file.
    pub bytes: &'a [u8],
}

/// A paragraph for each of the first faults, and the number of all.
#[derive(Drop)]
pub(crate) struct Paragraphs<'a> {
    model: FileText<'a>,
    text: String,
    count: u64,
}

impl<'a> Paragraphs<'a> {
    /// No faults yet, of a model with this text.
    pub(crate) fn new(alloc: Global, model: FileText<'a>) -> Self {
        Paragraphs {
            model,
            text: String::new(alloc),
            count: 0,
        }
    }

    /// Whether no more faults are explained.
    pub(crate) fn is_full(&self) -> bool {
        self.count >= SHOWN
    }

    /// Counts a fault that is not explained.
    pub(crate) fn count_one(&mut self) {
        self.count = self.count.saturating_add(1);
    }

    /// Counts the fault of a component at an instant, and explains it if it is one of the first.
    ///
    /// # Errors
    ///
    /// No memory for the paragraph.
    pub(crate) fn explain(
        &mut self,
        atom: &Atom<'_>,
        component: &Component,
        instant: &Instant<'_>,
    ) -> Result<(), AllocError> {
        if !self.is_full() {
            match react(atom, component, instant) {
                Err(Stop::Fault(found)) => self.push_paragraph(atom, component, instant, &found)?,
                Err(Stop::Memory) => return Err(AllocError),
                // The trace has a fault here, so this does not happen.
                Ok(_) => {}
            }
        }
        self.count_one();
        Ok(())
    }

    fn push_paragraph(
        &mut self,
        atom: &Atom<'_>,
        component: &Component,
        instant: &Instant<'_>,
        found: &Found,
    ) -> Result<(), AllocError> {
        if !self.text.is_empty() {
            self.text.push('\n')?;
        }
        let offset = found.offset as usize;
        let spot = Spot {
            name: self.model.name,
            text: self.model.bytes,
            line: Position::of(self.model.bytes, offset).line as u64,
            offset,
        };
        let cause = Cause {
            summary: summary_of(atom, instant, found)?,
            sentences: sentences_of(atom, component, instant, found)?,
        };
        let paragraph = pointed(atom.alloc, &spot, found.fault.word(), &cause)?;
        self.text.push_str(paragraph.as_str())
    }

    /// The paragraphs with empty lines between them, and a last line if there are more faults.
    ///
    /// # Errors
    ///
    /// No memory for the line.
    pub(crate) fn into_text(self) -> Result<String, AllocError> {
        let Paragraphs {
            model: _,
            mut text,
            count,
        } = self;
        let more = count.saturating_sub(SHOWN);
        if more == 1 {
            text.push_str("\n1 more fault is in the trace.\n")?;
        } else if more > 1 {
            writeln!(text, "\n{more} more faults are in the trace.")?;
        }
        Ok(text)
    }
}

// When and where the fault happened, and what has it.
fn summary_of(atom: &Atom<'_>, instant: &Instant<'_>, found: &Found) -> Result<String, AllocError> {
    let mut path = String::new(atom.alloc);
    atom.tree.push_path(&mut path, atom.path)?;
    let time = instant.time;
    let model = Quoted(atom.name(atom.model.name.number));
    let (site, name) = words_of(found.site);
    let name = Quoted(atom.name(name));
    format!(in atom.alloc; "at {time} in `{path}` of the model {model}, {site} {name}")
}

// What has the fault, in words, and the number of its name.
fn words_of(site: Site) -> (&'static str, u32) {
    match site {
        Site::Rule { sort, phase } => (word_of(sort), phase),
        Site::Hold { phase } => ("hold of the phase", phase),
        Site::Arrival { port } => ("input port", port),
    }
}

fn word_of(sort: RuleSort) -> &'static str {
    match sort {
        RuleSort::Output => "output rule of the phase",
        RuleSort::Internal => "internal rule of the phase",
        RuleSort::External => "external rule of the phase",
        RuleSort::Confluent => "confluent rule of the phase",
    }
}

// The values at the fault, why that rule ran if that is not obvious, and what the fault means.
fn sentences_of(
    atom: &Atom<'_>,
    component: &Component,
    instant: &Instant<'_>,
    found: &Found,
) -> Result<String, AllocError> {
    let mut text = String::from_str(atom.alloc, found.sentences.as_str())?;
    push_order(&mut text, atom, component, instant, found.site)?;
    push_meaning(&mut text, found.fault)?;
    Ok(text)
}

// Adds which rules run without a confluent rule, if one of them or its hold has the fault.
fn push_order(
    text: &mut String,
    atom: &Atom<'_>,
    component: &Component,
    instant: &Instant<'_>,
    site: Site,
) -> Result<(), AllocError> {
    let phase = atom.phase_of(&component.state);
    let is_replaced = kind_at(component, instant) == Kind::Confluent
        && atom.rule(RuleSort::Confluent, phase).is_none()
        && replaces_confluent(site);
    if !is_replaced {
        return Ok(());
    }
    let phase = Quoted(atom.name(phase));
    writeln!(
        text,
        "Values arrived as the hold of {phase} ended, and this phase has no confluent rule: {ORDER}"
    )
}

// Adds what the fault means.
fn push_meaning(text: &mut String, fault: Fault) -> Result<(), AllocError> {
    let code = fault.word();
    let Some(explanation) = explanation_of(code) else {
        return Ok(());
    };
    writeln!(text, "{}", explanation.words)?;
    if explanation.example.is_some() {
        writeln!(text, "`pdevs explain {code}` has an example.")?;
    }
    Ok(())
}

// Whether a rule or hold runs in the place of a confluent rule.
fn replaces_confluent(site: Site) -> bool {
    match site {
        Site::Rule { sort, .. } => match sort {
            RuleSort::Internal | RuleSort::External => true,
            RuleSort::Output | RuleSort::Confluent => false,
        },
        Site::Hold { .. } => true,
        Site::Arrival { .. } => false,
    }
}
