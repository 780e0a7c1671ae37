//! The models that the root of a text leads to. A text may have many others, and a tree keeps
//! nothing of them.

ghost use Rattle.std.specs.Prelude.{◌≡◌, length, map, slice_get, Some, IfOk, OnOk};
ghost use Rattle.dv_syntax.specs.Trees.{file_of, model_of};
ghost use Rattle.dv_tree.specs.Reached.{AreMarks, AreReached, borrowed_models, marked, marking_of, with_mark, with_marks};
ghost use Rattle.dv_tree.specs.Tables.{model_names};

use crate::indices::Indices;
use crate::tables::{model_numbers, parts_inside};
use dv_syntax::{File, Model, Part};
use smallvec::SmallVec;
use std::alloc::{AllocError, Global};

/// Models of a text in its order, with their indices among all of its models.
#[derive(Drop)]
pub(crate) struct Reached<'c> {
    pub(crate) models: Vec<&'c Model>,
    pub(crate) indices: Vec<usize>,
}

impl<'c> Reached<'c> {
    /// The models that the root leads to, and no others.
    ///
    /// # Errors
    ///
    /// No memory for the list of them, or for the names and the marks of all models.
    pub(crate) fn of(alloc: Global, file: &'c File) -> Result<Self, AllocError>
        ensures reached { IfOk result (λ r. AreReached (file_of file.now)
            (borrowed_models r.models.items)) }
        ensures indices { IfOk result (λ r. map (slice_get (file_of file.now).models) r.indices.items
            ≡ map Some (borrowed_models r.models.items)) }
    {
        let names = Indices::of(
            alloc,
            SmallVec::from_vec(model_numbers(alloc, &file.models)?),
        )?;
        let marks = marks_of(alloc, file, &names)?;
        Reached::marked(alloc, &file.models, &marks)
    }

    // The models with a mark.
    fn marked(alloc: Global, models: &'c [Model], marks: &[bool]) -> Result<Self, AllocError>
        requires { length marks.now ≡ length models.now }
        ensures models { IfOk result (λ r. borrowed_models r.models.items
            ≡ marked marks.now (map model_of models.now)) }
        ensures indices { IfOk result
            (λ r. map (slice_get (map model_of models.now)) r.indices.items
            ≡ map Some (borrowed_models r.models.items)) }
    {
        let mut reached = Reached {
            models: Vec::new(alloc),
            indices: Vec::new(alloc),
        };
        for (index, model) in models.iter().enumerate() {
            if marks[index] {
                reached.models.push(model)?;
                reached.indices.push(index)?;
            }
        }
        Ok(reached)
    }
}

// The marks of the models that were reached so far, and the indices of those whose parts have not
// been marked yet. Each model is added once, with its mark, so there are never more of them than
// models.
#[derive(Drop)]
struct Walk {
    marks: Vec<bool>,
    waiting: Vec<usize>,
}

impl Walk {
    // Marks the model at an index, if there is one without a mark. Its parts have to be marked
    // later.
    fn mark(&mut self, index: Option<usize>) -> Result<(), AllocError>
        ensures { OnOk result (marking_of self.new ≡ with_mark index (marking_of self.old)) }
    {
        if let Some(index) = index
            && index < self.marks.len()
            && !self.marks[index]
        {
            self.waiting.push(index)?;
            self.marks[index] = true;
        }
        Ok(())
    }

    // Marks the models of parts.
    fn mark_parts(&mut self, parts: &[Part], names: &Indices) -> Result<(), AllocError>
        ensures { OnOk result (marking_of self.new
            ≡ with_marks names.now parts.now (marking_of self.old)) }
    {
        for part in parts {
            self.mark(names.index_of(part.model.number))?;
        }
        Ok(())
    }
}

// Marks for the models that the root leads to, by the names of all models. Each marked model is
// visited once.
fn marks_of(alloc: Global, file: &File, names: &Indices) -> Result<Vec<bool>, AllocError>
    requires names { names.now ≡ model_names (file_of file.now).models }
    ensures one_each { IfOk result
        (λ marks. length marks.items ≡ length (file_of file.now).models) }
    ensures reached { IfOk result (λ marks. AreMarks (file_of file.now) marks.items) }
{
    let mut walk = Walk {
        marks: vec![in alloc; false; file.models.len()]?,
        waiting: Vec::new(alloc),
    };
    walk.mark(names.index_of(file.root.number))?;
    while let Some(index) = walk.waiting.pop() {
        walk.mark_parts(parts_inside(&file.models[index]), names)?;
    }
    Ok(walk.marks)
}
