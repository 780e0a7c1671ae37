//! A record that keeps the text of a trace.

ghost use Rattle.std.specs.Prelude.{◌≡◌, IfOk};
ghost use Rattle.dv_text.specs.Names.{tree_names, tree_ports};
ghost use Rattle.dv_lines.specs.Records.{fresh};

use crate::faults::KnowsFaults;
use crate::leaving::all_left;
use crate::lines::Lines;
use crate::told::{faulted, transition};
use crate::words::Words;
use dv_bag::{Bags, Fault, Kind, Sent, State};
use dv_record::{History, Record};
use dv_time::Time;
use dv_tree::Tree;
use std::alloc::{AllocError, Global};
use std::marker::Model;

/// A record that makes the line of each entry at once and keeps the text alone. Only the bytes that
/// were not handed over are in memory. A contract reads all that was told, what of it is settled,
/// and what was handed over.
#[derive(Drop)]
pub struct TextRecord<'t> {
    tree: &'t Tree<'t>,
    words: Words,
    lines: Lines,
    // How many bytes are settled.
    mark: usize,
    // Whether the record was told of a fault, and whether a fault is settled.
    faulted: bool,
    settled_faulted: bool,
    told: History,
    settled: History,
    handed: History,
}

impl<'t> Model for TextRecord<'t> {
    ghost use Rattle.std.specs.Prelude.{◌≡◌, ◌∷◌, [], map};
    ghost use Rattle.dv_text.specs.Names.{tree_names, tree_ports};
    ghost use Rattle.dv_lines.specs.Records.{IsText, Recorded, recorded};
    ghost use Rattle.dv_lines.specs.Tables.{decorated, ports_found, rows_found, with_ends};
    ghost use Rattle.dv_written.specs.Faults.{has_fault};

    ghost Value = { Recorded };

    ghost view = { λ r. recorded (tree_names r.tree.now) (tree_ports r.tree.now)
        r.told.part r.settled.part r.handed.part r.lines };

    ghost invariant = { λ r.
        (rows_found r.words ≡ map decorated (tree_names r.tree.now))
        × (ports_found r.words ≡ map (with_ends (58 ∷ [])) (tree_ports r.tree.now))
        × (r.faulted ≡ has_fault r.told.part)
        × (r.settled_faulted ≡ has_fault r.settled.part)
        × IsText (recorded (tree_names r.tree.now) (tree_ports r.tree.now)
        r.told.part r.settled.part r.handed.part r.lines) r.mark };
}

impl<'t> TextRecord<'t> {
    /// A record with the names of a tree, to which nothing was told.
    ///
    /// # Errors
    ///
    /// No memory for the words of its components.
    pub fn new(alloc: Global, tree: &'t Tree<'t>) -> Result<Self, AllocError>
        ensures { IfOk result (λ r. r ≡ fresh (tree_names tree.now) (tree_ports tree.now)) }
    {
        Ok(TextRecord {
            tree,
            words: Words::of(alloc, tree)?,
            lines: Lines::new(alloc),
            mark: 0,
            faulted: false,
            settled_faulted: false,
            told: History::new(),
            settled: History::new(),
            handed: History::new(),
        })
    }
}

impl<'t> Record for TextRecord<'t> {
    ghost use Rattle.dv_lines.specs.Records.{handed_of, settled_of, told_of};

    ghost told = { told_of };

    ghost settled = { settled_of };

    ghost handed = { handed_of };

    #[inline]
    fn moved(
        &mut self,
        time: Time,
        component: u32,
        kind: Kind,
        state: &State,
        sent: &Sent,
    ) -> Result<(), AllocError> {
        transition(
            &mut self.lines,
            &self.words,
            time,
            component,
            kind,
            state,
            sent,
        )?;
        self.told = self.told.and_moved(&time, &component, &kind, state, sent);
        Ok(())
    }

    fn faulted(
        &mut self,
        time: Time,
        component: u32,
        fault: Fault,
        sent: &Sent,
    ) -> Result<(), AllocError> {
        faulted(&mut self.lines, &self.words, time, component, fault, sent)?;
        self.faulted = true;
        self.told = self.told.and_faulted(&time, &component, &fault, sent);
        Ok(())
    }

    fn left(&mut self, time: Time, values: &Bags) -> Result<(), AllocError> {
        all_left(&mut self.lines, &self.words, time, values)?;
        self.told = self.told.and_left(&time, values);
        Ok(())
    }

    fn settle(&mut self) {
        self.mark = self.lines.len();
        self.settled_faulted = self.faulted;
        self.settled = self.told.again();
    }

    fn roll_back(&mut self) {
        self.lines.cut(self.mark);
        self.faulted = self.settled_faulted;
        self.told = self.settled.again();
    }

    fn bytes(&self) -> &[u8] {
        self.lines.as_bytes()
    }

    fn let_go(&mut self) {
        self.lines.clear();
        self.mark = 0;
        self.handed = self.told.again();
    }
}

impl<'t> KnowsFaults for TextRecord<'t> {
    fn has_fault(&self) -> bool {
        self.faulted
    }
}
