//! A file of rows.
//!
//! A line that begins with `= ` is a heading, and what follows it, up to the next one, its text.
//! `data/README.md` says what the headings are.

use crate::outcome::{Texts, other_outcome, outcome_of};
use crate::text::Text;
use std::alloc::{AllocError, Global};
use std::rt::Files;
use std::sync::Wait;
use std::thread::Threads;
use std::{fs, io};

/// What the file has told so far: the model, as what stands before, in and behind a row's own
/// piece, the partition and the inputs; and how many rows hold and do not.
#[derive(Drop)]
struct Telling {
    before: Vec<u8>,
    piece: Vec<u8>,
    after: Vec<u8>,
    partition: Vec<u8>,
    inputs: Vec<u8>,
    holding: u32,
    failing: u32,
}

impl Telling {
    fn new(alloc: Global) -> Self {
        Telling {
            before: Vec::new(alloc),
            piece: Vec::new(alloc),
            after: Vec::new(alloc),
            partition: Vec::new(alloc),
            inputs: Vec::new(alloc),
            holding: 0,
            failing: 0,
        }
    }

    /// Begins with another model, which has no pieces, no partition and no inputs yet.
    fn begin(&mut self, model: Vec<u8>) {
        self.before = model;
        self.piece.clear();
        self.after.clear();
        self.partition.clear();
        self.inputs.clear();
    }

    fn model(&self, alloc: Global) -> Result<Vec<u8>, AllocError> {
        let mut model = Vec::from_slice(alloc, &self.before)?;
        model.extend_from_slice(&self.piece)?;
        model.extend_from_slice(&self.after)?;
        Ok(model)
    }

    /// Compares what comes of the model by a command with what is wanted, and tells where it
    /// differs. A run of one process has to give the same in several, and by workers.
    fn compare<R: AllocGlobal + Print + Threads + Wait + Sync>(
        &mut self,
        rt: &R,
        command: &str,
        wanted: &str,
    ) -> io::Result<()> {
        let model = self.model(rt.alloc())?;
        let texts = Texts {
            model: &model,
            partition: &self.partition,
            inputs: &self.inputs,
        };
        let mut got = outcome_of(rt, command, texts)?;
        if got.as_str() == wanted
            && let Some(other) = other_outcome(rt, command, texts, wanted)?
        {
            got = other;
        }
        if got.as_str() == wanted {
            self.holding = self.holding.saturating_add(1);
            return Ok(());
        }
        self.failing = self.failing.saturating_add(1);
        let piece = str::from_utf8(&self.piece).unwrap_or("not text");
        println!(rt; "{piece}\n{command}\ngives\n{got}\nand not\n{wanted}")
    }

    /// Takes a heading with its text.
    fn take<R: AllocGlobal + Print + Threads + Wait + Sync>(
        &mut self,
        rt: &R,
        heading: &str,
        text: Text,
    ) -> io::Result<()> {
        let (kind, rest) = heading.split_once(' ').unwrap_or((heading, ""));
        match kind {
            "note" => {}
            "model" => self.begin(text.bytes),
            "after" => self.after = text.bytes,
            "piece" => self.piece = text.bytes,
            "partition" => self.partition = text.bytes,
            "inputs" => self.inputs = text.bytes,
            "taken" => {
                self.piece = text.bytes;
                self.compare(rt, "run", "whole 0\nstatus 0")?;
            }
            "refused" => {
                self.piece = text.bytes;
                self.compare(rt, "run", rest)?;
            }
            _ => {
                let wanted = str::from_utf8(&text.bytes).unwrap_or("not text");
                self.compare(rt, heading, wanted.trim_end_matches('\n'))?;
            }
        }
        Ok(())
    }
}

/// Runs the rows of a file. Tells how many hold, and answers whether all do.
pub fn do_hold<R: AllocGlobal + Files + Print + Threads + Wait + Sync>(
    rt: &R,
    name: &str,
) -> io::Result<bool> {
    let rows = fs::read_to_string(rt, name)?;
    let telling = follow_lines(rt, rows.as_str())?;
    if telling.failing == 0 {
        println!(rt; "{name}: {} hold", telling.holding)?;
    } else {
        println!(rt;
            "{name}: {} hold, and {} not",
            telling.holding, telling.failing
        )?;
    }
    Ok(telling.failing == 0)
}

fn follow_lines<R: AllocGlobal + Print + Threads + Wait + Sync>(
    rt: &R,
    rows: &str,
) -> io::Result<Telling> {
    let mut telling = Telling::new(rt.alloc());
    let mut heading: Option<&str> = None;
    let mut text = Text::new(rt.alloc());
    for line in rows.lines() {
        if let Some(next) = line.strip_prefix("= ") {
            telling.take(rt, heading.unwrap_or("note"), text)?;
            heading = Some(next);
            text = Text::new(rt.alloc());
        } else {
            text.push_line(line)?;
        }
    }
    telling.take(rt, heading.unwrap_or("note"), text)?;
    Ok(telling)
}
