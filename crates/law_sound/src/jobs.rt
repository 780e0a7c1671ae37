//! Texts run in processes.

ghost use Rattle.std.specs.Prelude.{◌≡◌, ℕ, ◌+◌, ◌<◌, ◌≤◌, Bool, List, [], None, length, nat_eq};
ghost use Rattle.std.specs.List.{filter, range_with_len};
ghost use Rattle.dv_bag.specs.declared.entry.Entry.{Entry};
ghost use Rattle.dv_bag.specs.declared.inputs.Input.{Input};
ghost use Rattle.dv_check.specs.Refusals.{refusal_of};
ghost use Rattle.dv_check.specs.Writable.{IsWritable};
ghost use Rattle.dv_conservative.specs.Events.{Event};
ghost use Rattle.dv_conservative.specs.Flat.{kept, whole};
ghost use Rattle.dv_conservative.specs.Process.{components_by, events_by, part_by};
ghost use Rattle.dv_conservative.specs.Rounds.{AreRounds};
ghost use Rattle.dv_conservative.specs.Sound.{IsJob};
ghost use Rattle.dv_conservative.specs.True.{united};
ghost use Rattle.dv_conservative.specs.World.{IsRun, Reply, Step, World, new_world, owned, received_in, share_of};
ghost use Rattle.dv_devs.specs.Network.{components_at, emissions_at, trace_before};
ghost use Rattle.dv_devs.specs.Parts.{part_before};
ghost use Rattle.dv_plain.specs.Source.{network_of, outside, trace_of};
ghost use Rattle.dv_syntax.specs.Trees.{FileTree};
ghost use Rattle.dv_time.specs.Time.{end_of, rank};
ghost use Rattle.dv_tree.specs.Instances.{instances};
ghost use Rattle.law_sound.specs.Jobs.{AllInputNumbers, fits_number, job_of};
ghost use Rattle.law_sound.specs.Members.{flat_of};

use crate::numbers::files_are_of_numbers;
use crate::outside::what_leaves_a_text_is_linear;
use crate::sound::components_are_sound;
use dv_bag::Bags;
use dv_bag::inputs::laws::what_comes_in_stands_in_bags;
use dv_conservative::channels::channels_are_where_links_cross;
use dv_conservative::rounds::{rounds_are_enough, rounds_are_runs};
use dv_conservative::shares::one_process_commits_the_trace;
use dv_conservative::world::{
    a_whole_run_is_the_trace, every_process_commits_its_part, parts_of_processes_are_the_trace,
};
use dv_devs::laws::fits::alike_networks_run_alike;
use dv_devs::laws::parts::parts_are_of_the_trace;
use dv_flat::laws::links_route_as_the_tree;
use dv_gen::laws::accepted_files_are_compilable;
use dv_plain::laws::networks_of_texts;
use law_accepted::laws::{rules_send_bags, start_states_fit};
use law_compiled::laws::programs_behave_as_rules;

/// An accepted text with inputs of numbers of the language may be run in processes, for any
/// partition. The response of a process is the least of its components'.
pub fn texts_are_jobs()
    ensures { (f : FileTree) (inputs : List Input) (limit horizon processes : ℕ) (owner : ℕ → ℕ)
        → IsWritable f → refusal_of f ≡ None → AllInputNumbers inputs
        → ((k : ℕ) → owner k < processes)
        → IsJob (fits_number (instances f)) (job_of limit horizon f inputs processes owner) }
{
    files_are_of_numbers();
    components_are_sound();
    accepted_files_are_compilable();
    channels_are_where_links_cross();
}

/// The run of a text's flat model has the same components as the run of the text's network, they
/// send the same, and the part of a set of components is that of the text.
pub fn parts_of_the_flat_model_are_those_of_the_text()
    ensures components { (f : FileTree) (inputs : List Input) (limit n : ℕ)
        → IsWritable f → refusal_of f ≡ None
        → components_at limit (whole (flat_of limit f)) (outside f limit inputs) n
        ≡ components_at limit (network_of limit f) (outside f limit inputs) n }
    ensures emissions { (f : FileTree) (inputs : List Input) (limit n : ℕ)
        → IsWritable f → refusal_of f ≡ None
        → emissions_at limit (whole (flat_of limit f)) (outside f limit inputs) n
        ≡ emissions_at limit (network_of limit f) (outside f limit inputs) n }
    ensures part { (f : FileTree) (inputs : List Input) (limit n : ℕ) (who : ℕ → Bool)
        → IsWritable f → refusal_of f ≡ None
        → part_before who limit (whole (flat_of limit f)) (outside f limit inputs) n
        ≡ part_before who limit (network_of limit f) (outside f limit inputs) n }
{
    programs_behave_as_rules();
    accepted_files_are_compilable();
    start_states_fit();
    rules_send_bags();
    what_comes_in_stands_in_bags();
    links_route_as_the_tree();
    alike_networks_run_alike::<Bags>();
}

/// One process with all components of a text has no link to another, and commits exactly the trace
/// of the text: before each rank, and in the end all of it.
pub fn one_process_commits_the_trace_of_the_text()
    ensures incoming { (f : FileTree) (inputs : List Input) (limit horizon : ℕ) (owner : ℕ → ℕ)
        → (share_of (job_of limit horizon f inputs 1 owner) 0).incoming ≡ [] }
    ensures outgoing { (f : FileTree) (inputs : List Input) (limit horizon : ℕ) (owner : ℕ → ℕ)
        → (share_of (job_of limit horizon f inputs 1 owner) 0).outgoing ≡ [] }
    ensures before { (f : FileTree) (inputs : List Input)
        (limit horizon n : ℕ) (owner : ℕ → ℕ) (events : ℕ → List Event)
        → IsWritable f → refusal_of f ≡ None → ((k : ℕ) → owner k ≡ 0)
        → part_by (share_of (job_of limit horizon f inputs 1 owner) 0) events n
        ≡ trace_before limit (network_of limit f) (outside f limit inputs) n }
    ensures whole { (f : FileTree) (inputs : List Input)
        (limit horizon : ℕ) (owner : ℕ → ℕ) (events : ℕ → List Event)
        → IsWritable f → refusal_of f ≡ None → ((k : ℕ) → owner k ≡ 0)
        → part_by (share_of (job_of limit horizon f inputs 1 owner) 0) events
        (end_of limit horizon) ≡ trace_of f inputs horizon limit }
{
    one_process_commits_the_trace();
    parts_of_the_flat_model_are_those_of_the_text();
    parts_are_of_the_trace::<Bags>();
    networks_of_texts();
}

/// After any steps in any order, the components of a process of a text are as in the run of the
/// text just before the process's clock, and it has committed exactly their part of the trace of
/// the text before its clock.
pub fn processes_commit_their_parts_of_the_text()
    ensures components { (f : FileTree) (inputs : List Input) (limit horizon processes capacity : ℕ)
        (owner : ℕ → ℕ) (steps : List (Step × Reply)) (w : World) (p : ℕ)
        → IsWritable f → refusal_of f ≡ None → AllInputNumbers inputs
        → ((k : ℕ) → owner k < processes)
        → let job = job_of limit horizon f inputs processes owner in
        IsRun job steps (new_world capacity) w
        → components_by (share_of job p) (events_by (received_in w)) (rank limit (w.clock p))
        ≡ kept (owned job p) (range_with_len 0 (length (instances f)))
        (components_at limit (network_of limit f) (outside f limit inputs)
        (rank limit (w.clock p))) }
    ensures part { (f : FileTree) (inputs : List Input) (limit horizon processes capacity : ℕ)
        (owner : ℕ → ℕ) (steps : List (Step × Reply)) (w : World) (p : ℕ)
        → IsWritable f → refusal_of f ≡ None → AllInputNumbers inputs
        → ((k : ℕ) → owner k < processes)
        → let job = job_of limit horizon f inputs processes owner in
        IsRun job steps (new_world capacity) w
        → part_by (share_of job p) (events_by (received_in w)) (rank limit (w.clock p))
        ≡ part_before (owned job p) limit (network_of limit f) (outside f limit inputs)
        (rank limit (w.clock p)) }
{
    texts_are_jobs();
    parts_of_the_flat_model_are_those_of_the_text();
    every_process_commits_its_part();
}

/// If every clock is at the end, each process of a text has the entries of its components in the
/// trace of the text, and what leaves all processes, united by time and port, is what leaves the
/// text.
pub fn a_whole_run_has_the_trace_of_the_text()
    ensures entries { (f : FileTree) (inputs : List Input) (limit horizon processes capacity : ℕ)
        (owner : ℕ → ℕ) (steps : List (Step × Reply)) (w : World) (p : ℕ)
        → IsWritable f → refusal_of f ≡ None → AllInputNumbers inputs
        → ((k : ℕ) → owner k < processes)
        → let job = job_of limit horizon f inputs processes owner in
        IsRun job steps (new_world capacity) w
        → w.clock p ≡ record { tick = horizon + 1; micro = 0 }
        → (part_by (share_of job p) (events_by (received_in w)) (end_of limit horizon)).entries
        ≡ filter (λ (e : Entry). nat_eq (owner e.component) p)
        (trace_of f inputs horizon limit).entries }
    ensures outer { (f : FileTree) (inputs : List Input) (limit horizon processes capacity : ℕ)
        (owner : ℕ → ℕ) (steps : List (Step × Reply)) (w : World)
        → IsWritable f → refusal_of f ≡ None → AllInputNumbers inputs
        → ((k : ℕ) → owner k < processes)
        → let job = job_of limit horizon f inputs processes owner in
        IsRun job steps (new_world capacity) w
        → ((p : ℕ) → p < processes → w.clock p ≡ record { tick = horizon + 1; micro = 0 })
        → united
        (λ p. (part_by (share_of job p) (events_by (received_in w)) (end_of limit horizon)).outer)
        processes
        ≡ (trace_of f inputs horizon limit).outer }
{
    texts_are_jobs();
    parts_of_the_flat_model_are_those_of_the_text();
    a_whole_run_is_the_trace();
    parts_of_processes_are_the_trace::<Bags>();
    what_leaves_a_text_is_linear();
    networks_of_texts();
}

/// One more round than there are ranks before the end gives the trace of the text, if there is
/// memory.
pub fn rounds_give_the_trace_of_the_text()
    ensures { (f : FileTree) (inputs : List Input) (limit horizon processes capacity k : ℕ)
        (owner : ℕ → ℕ) (w : World)
        → IsWritable f → refusal_of f ≡ None → AllInputNumbers inputs
        → ((k : ℕ) → owner k < processes) → 0 < capacity
        → let job = job_of limit horizon f inputs processes owner in
        AreRounds job k (new_world capacity) w → end_of limit horizon + 1 ≤ k
        → ((p : ℕ) → p < processes
        → (part_by (share_of job p) (events_by (received_in w)) (end_of limit horizon)).entries
        ≡ filter (λ (e : Entry). nat_eq (owner e.component) p)
        (trace_of f inputs horizon limit).entries)
        × (united
        (λ p. (part_by (share_of job p) (events_by (received_in w)) (end_of limit horizon)).outer)
        processes
        ≡ (trace_of f inputs horizon limit).outer) }
{
    a_whole_run_has_the_trace_of_the_text();
    channels_are_where_links_cross();
    rounds_are_enough();
    rounds_are_runs();
}
