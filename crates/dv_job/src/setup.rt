//! Reads the partition and the inputs of a run.

ghost use Rattle.std.specs.Prelude.{◌≡◌, IfOk, IfErr, None, OnOk};
ghost use Rattle.dv_check.specs.Refusals.{refusal_of};
ghost use Rattle.dv_check.specs.Writable.{IsWritable};
ghost use Rattle.dv_run.specs.Texts.{AreLinksOf, IsReady};
ghost use Rattle.dv_syntax.specs.Trees.{file_of};
ghost use Rattle.law_sound.specs.Jobs.{AllInputNumbers};
ghost use Rattle.dv_job.specs.Job.{IsModelOf};
ghost use Rattle.dv_job.specs.Loading.{parts_of};
ghost use Rattle.dv_job.specs.Running.{IsPlanned};
ghost use Rattle.dv_job.specs.Stepping.{AnswersSteps};

use crate::ended::JobError;
use crate::load::{load_groups, load_inputs};
use crate::options::Options;
use dv_bag::Inputs;
use dv_check::laws::files_of_texts_are_writable;
use dv_flat::{LinkLists, flatten};
use dv_partition::{Groups, Partition};
use dv_run::TextJob;
use dv_tree::Tree;
use law_sound::numbers::inputs_are_of_numbers;
use std::alloc::Global;

/// What a run of an accepted text needs beside its tree.
#[derive(Drop)]
pub struct Setup {
    /// The links between the components, from the root's inputs and to its outputs.
    pub links: LinkLists,
    /// The groups of components, one for each process.
    pub groups: Groups,
    /// The inputs of the root, by time.
    pub inputs: Inputs,
}

impl Setup {
    /// The job of an accepted text, with the horizon and the microstep limit of options.
    pub fn job<'s, 'c>(&'s self, tree: &'s Tree<'c>, options: &Options) -> TextJob<'s, 'c>
        requires writable { IsWritable (file_of tree.now.file) }
        requires accepted { refusal_of (file_of tree.now.file) ≡ None }
        requires numbers { AllInputNumbers self.now.inputs }
        requires links { AreLinksOf (file_of tree.now.file) self.now.links }
        ensures parts { parts_of result ≡ record {
          tree = tree.now;
          inputs = self.now.inputs;
          groups = self.now.groups;
          horizon = options.now.horizon;
          limit = options.now.limit;
        } }
        ensures ready { IsReady result self.now.links }
    {
        TextJob {
            tree,
            inputs: &self.inputs,
            groups: &self.groups,
            horizon: options.horizon,
            limit: options.limit,
        }
    }
}

/// Makes the links of an accepted text, and reads the partition and the inputs, for a run with this
/// microstep limit.
///
/// # Errors
///
/// `Partition` is the answer to the partition. If it is accepted, `Inputs` is the answer to the
/// text of the inputs. `Memory`: no memory for one of them, or for the links. It is never `Text` or
/// `Write`.
pub fn set_up(
    alloc: Global,
    tree: &Tree,
    model: &[u8],
    inputs: &[u8],
    groups: Partition<'_>,
    limit: u32,
) -> Result<Setup, JobError>
    requires accepted { IsModelOf model.now tree.now.names (file_of tree.now.file) }
    ensures planned { IfOk result (λ s. IsPlanned model.now inputs.now groups.entry limit
        tree.now.names (file_of tree.now.file) s.groups s.inputs) }
    ensures writable { OnOk result (IsWritable (file_of tree.now.file)) }
    ensures numbers { IfOk result (λ s. AllInputNumbers s.inputs) }
    ensures links { IfOk result (λ s. AreLinksOf (file_of tree.now.file) s.links) }
    ensures error { IfErr result (AnswersSteps model.now inputs.now groups.entry limit) }
{
    let _ = model;
    // For the prover alone: the file of a text could be written down, and the values of inputs that
    // were read are numbers of the language.
    files_of_texts_are_writable();
    inputs_are_of_numbers();
    let links = flatten(alloc, tree)?;
    let groups = load_groups(alloc, tree, groups)?;
    let inputs = load_inputs(alloc, inputs, tree, limit)?;
    Ok(Setup {
        links,
        groups,
        inputs,
    })
}
