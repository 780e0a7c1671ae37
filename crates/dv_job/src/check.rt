//! Whether a text is accepted.

ghost use Rattle.std.specs.Prelude.{IfOk, IfErr};
ghost use Rattle.dv_job.specs.Ending.{AnswersWith, HasComponents};

use crate::ended::JobError;
use crate::load::{accept, load};
use dv_check::laws::checked_files;
use std::alloc::Global;

/// Checks the text of a model, and returns how many components the model has.
///
/// # Errors
///
/// `Text` is the answer to the text. `Memory`: no memory for it. It is never `Partition`, `Inputs`
/// or `Write`.
pub fn check_bytes(alloc: Global, model: &[u8]) -> Result<u32, JobError>
    ensures accepted { IfOk result (HasComponents model.now) }
    ensures error { IfErr result (AnswersWith model.now) }
{
    // For the prover alone: the components of a checked file are its instances of atomic models.
    checked_files();
    let checked = load(alloc, model)?;
    let _tree = accept(alloc, model, &checked)?;
    Ok(checked.components())
}
