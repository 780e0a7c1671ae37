//! From the bytes of a model to the tree of an accepted text, from a partition to its groups, and
//! from the bytes of inputs to the inputs.

ghost use Rattle.std.specs.Prelude.{◌≡◌, None, IfOk, IfErr, MatchResult, Ok, Err};
ghost use Rattle.dv_check.specs.Refusals.{refusal_of};
ghost use Rattle.dv_flat.specs.Links.{paths_of};
ghost use Rattle.dv_inputs.specs.Reading.{reading_of};
ghost use Rattle.dv_partition.specs.Answers.{IsErrorOf, partition_answer};
ghost use Rattle.dv_syntax.specs.Trees.{file_of};
ghost use Rattle.dv_job.specs.Errors.{job_error_of_load};
ghost use Rattle.dv_job.specs.Ending.{AnswersWith};
ghost use Rattle.dv_job.specs.Job.{IsCheckedFileOf, IsModelOf};
ghost use Rattle.dv_job.specs.Loading.{IsUnloaded, tree_inputs};

use crate::ended::JobError;
use dv_bag::Inputs;
use dv_check::laws::{checked_files, files_of_texts_are_writable};
use dv_check::{Checked, check};
use dv_expand::expand;
use dv_flat::{count_links, paths_of};
use dv_inputs::{InputRefusal, InputsError, read_inputs};
use dv_lex::{LoadError, answer, tokens};
use dv_parser::parse;
use dv_partition::{Groups, Partition, PartitionError, counted_groups, partition};
use dv_tree::Tree;
use law_dead_ends::laws::refusals_are_dead_ends;
use std::alloc::Global;

/// Reads and checks a text. Its links are not counted yet.
///
/// # Errors
///
/// `Text` is the answer to the text. `Memory`: no memory for the text.
pub fn load(alloc: Global, text: &[u8]) -> Result<Checked, JobError>
    ensures checked { IfOk result (λ c. IsCheckedFileOf text.now c.names (file_of c.file)) }
    ensures refused { IfErr result (AnswersWith text.now) }
{
    match read(alloc, text) {
        Ok(checked) => Ok(checked),
        Err(error) => Err(unloaded(text, error)),
    }
}

// Reads and checks a text.
fn read(alloc: Global, text: &[u8]) -> Result<Checked, LoadError>
    ensures checked { IfOk result (λ c. IsCheckedFileOf text.now c.names (file_of c.file)) }
    ensures refused { IfErr result (λ e. IsUnloaded e text.now) }
{
    // For the prover alone: no file continues the tokens of a refusal, and the file of a text could
    // be written down.
    refusals_are_dead_ends();
    files_of_texts_are_writable();
    let lexed = tokens(alloc, text)?;
    let source = parse(alloc, &lexed.tokens, text.len() as u32)?;
    // A text may have millions of tokens, and nothing needs them from here on.
    drop(lexed.tokens);
    let file = expand(alloc, source)?;
    check(alloc, file, lexed.names)
}

/// The tree of a checked text, if it does not have too many links. Then the text is accepted.
///
/// # Errors
///
/// `Text` is E17: there are too many links. `Memory`: no memory for the tree.
pub fn accept<'c>(alloc: Global, text: &[u8], checked: &'c Checked) -> Result<Tree<'c>, JobError>
    requires checked { IsCheckedFileOf text.now checked.now.names (file_of checked.now.file) }
    ensures accepted { IfOk result (λ tree. IsModelOf text.now tree.names (file_of tree.file)) }
    ensures of_checked { IfOk result (λ tree. tree.file ≡ checked.now.file) }
    ensures refused { IfErr result (AnswersWith text.now) }
{
    let tree = Tree::of(alloc, checked)?;
    match count_links(alloc, &tree) {
        Ok(_) => Ok(tree),
        Err(error) => Err(unloaded(text, error)),
    }
}

/// The groups of a partition of the components of an accepted text. The paths of the components are
/// made only if the partition is a text.
///
/// # Errors
///
/// The refusal of the partition, or no memory.
pub fn load_groups(
    alloc: Global,
    tree: &Tree,
    groups: Partition<'_>,
) -> Result<Groups, PartitionError>
    requires checked { refusal_of (file_of tree.now.file) ≡ None }
    ensures { MatchResult result
        (λ found. partition_answer (paths_of tree.now.names (file_of tree.now.file)) groups.entry
        ≡ Ok found)
        (IsErrorOf
        (partition_answer (paths_of tree.now.names (file_of tree.now.file)) groups.entry)) }
{
    // For the prover alone: a checked file has few components.
    checked_files();
    match groups {
        Partition::Json(_) => {
            let paths = paths_of(alloc, tree)?;
            partition(alloc, &paths, groups)
        }
        Partition::Count(processes) => {
            counted_groups(alloc, tree.component_count(), processes as usize)
        }
    }
}

/// The inputs of a text for the root of a tree, in a run with this microstep limit.
///
/// # Errors
///
/// The refusal of the text, or no memory.
pub fn load_inputs(
    alloc: Global,
    text: &[u8],
    tree: &Tree,
    limit: u32,
) -> Result<Inputs, InputsError>
    ensures inputs { IfOk result (λ inputs.
        reading_of text.now (tree_inputs tree.now) limit ≡ Ok inputs) }
    ensures refused { (r : InputRefusal) → result ≡ Err (InputsError.Refused r)
        → reading_of text.now (tree_inputs tree.now) limit ≡ Err r }
{
    let names = tree.input_names(alloc)?;
    read_inputs(alloc, text, &names, limit)
}

// The error of a job for an error of loading, with the line of a refusal.
fn unloaded(text: &[u8], error: LoadError) -> JobError
    ensures { result ≡ job_error_of_load text.now error }
{
    match error {
        LoadError::Refused(refusal) => JobError::Text(answer(text, refusal)),
        LoadError::Memory => JobError::Memory,
    }
}
