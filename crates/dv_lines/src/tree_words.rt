//! The words of a tree, and the lines of entries by them.

ghost use Rattle.std.specs.Prelude.{◌≡◌, ◌++◌, IfOk, OnErr, OnOk};
ghost use Rattle.dv_bag.specs.declared.entry.Entry.{Entry as MeantEntry};
ghost use Rattle.dv_text.specs.Names.{tree_names, tree_ports};
ghost use Rattle.dv_text.specs.Texts.{port_text};
ghost use Rattle.dv_tree.specs.Paths.{name_at};
ghost use Rattle.dv_lines.specs.Entries.{line_of};

use crate::laws::words_say_the_names;
use crate::lines::Lines;
use crate::words::Words;
use crate::written_record::WrittenRecords;
use dv_bag::Bag;
use dv_tree::Tree;
use dv_written::OfJob;
use std::alloc::{AllocError, Global};
use std::marker::Model;

/// A tree with its words. A contract reads the tree.
#[derive(Drop)]
pub struct TreeWords<'t> {
    tree: &'t Tree<'t>,
    words: Words,
}

impl<'t> Model for TreeWords<'t> {
    ghost use Rattle.std.specs.Prelude.{◌≡◌, ◌∷◌, [], map};
    ghost use Rattle.dv_tree.specs.Tables.{Source, source_code};
    ghost use Rattle.dv_text.specs.Names.{tree_names, tree_ports};
    ghost use Rattle.dv_lines.specs.Tables.{decorated, ports_found, rows_found, with_ends};

    ghost Value = { Source };

    ghost coded = { source_code };

    ghost view = { λ w. w.tree.now };

    ghost invariant = { λ w.
        (rows_found w.words ≡ map decorated (tree_names w.tree.now))
        × (ports_found w.words ≡ map (with_ends (58 ∷ [])) (tree_ports w.tree.now)) };
}

impl<'t> TreeWords<'t> {
    /// Looks up the words of a tree.
    ///
    /// # Errors
    ///
    /// No memory for them.
    pub fn of(alloc: Global, tree: &'t Tree<'t>) -> Result<Self, AllocError>
        ensures { IfOk result (λ words. words ≡ tree.now) }
    {
        let words = Words::of(alloc, tree)?;
        Ok(TreeWords { tree, words })
    }

    /// The tree.
    pub fn tree(&self) -> &'t Tree<'t>
        ensures { result.now ≡ self.now }
    {
        self.tree
    }

    /// Makes records that share these words, for a job whose entries print the lines with the names
    /// of the tree.
    pub fn records<N: OfJob>(&self) -> WrittenRecords<'_, N>
        requires { (e : MeantEntry) → line_of (tree_names self.now) e ≡ N.line e }
    {
        // For the prover alone.
        words_say_the_names();
        WrittenRecords::new(&self.words)
    }

    /// Appends what left at a port to an output line.
    ///
    /// # Errors
    ///
    /// No memory for it. The lines are as before.
    pub fn put_port(&self, lines: &mut Lines, port: u32, values: &Bag) -> Result<(), AllocError>
        ensures ok { OnOk result (lines.new ≡ lines.old
            ++ port_text (name_at (tree_ports self.now) port) values.now) }
        ensures err { OnErr result (lines.new ≡ lines.old) }
    {
        // For the prover alone.
        words_say_the_names();
        let (bytes, word) = self.words.port(port as usize);
        lines.left(bytes, word, values)
    }
}
