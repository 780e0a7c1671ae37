//! Responses by the names of phases.

ghost use Rattle.std.specs.Map.{lookup};
ghost use Rattle.std.specs.Prelude.{◌≡◌, [], nat_eq, OnOk};
ghost use Rattle.dv_bag.specs.Responses.{ticks_of};
ghost use Rattle.dv_bound.specs.Soonest.{entries_in, response_in, with_response};

use dv_bag::Response;
use indexmap::IndexMap;
use std::alloc::{AllocError, Global};

/// The greatest number of responses that are searched from the front.
const GREATEST_FEW: usize = 8;

/// For the name of each phase its response. Most models have few holds, and searching a short list
/// is faster than making a table.
#[derive(Drop)]
pub(crate) enum PhaseResponses {
    /// At most eight responses, which are searched from the front.
    Few(Vec<(u32, Response)>),
    /// More, in a table.
    Many(IndexMap<u32, Response>),
}

impl PhaseResponses {
    /// No responses yet, of a model with this number of holds.
    pub(crate) fn new(alloc: Global, holds: usize) -> Self
        ensures { entries_in result ≡ [] }
    {
        if holds <= GREATEST_FEW {
            PhaseResponses::Few(Vec::new(alloc))
        } else {
            PhaseResponses::Many(IndexMap::new(alloc))
        }
    }

    /// Adds the response of a phase if it has none.
    ///
    /// # Errors
    ///
    /// No memory for one more response.
    pub(crate) fn insert_if_absent(
        &mut self,
        phase: u32,
        response: Response,
    ) -> Result<(), AllocError>
        ensures { OnOk result (entries_in self.new
            ≡ with_response (entries_in self.old) phase response) }
    {
        match self {
            PhaseResponses::Few(entries) => insert_among_few(entries, phase, response),
            PhaseResponses::Many(table) => insert_in_table(table, phase, response),
        }
    }

    /// The response of a phase: never if it has no hold.
    pub(crate) fn of_phase(&self, phase: u32) -> Response
        ensures { ticks_of result ≡ response_in (entries_in self.now) phase }
    {
        let found = match self {
            PhaseResponses::Few(entries) => find_among_few(entries, phase),
            PhaseResponses::Many(table) => table.get(&phase).copied(),
        };
        found.unwrap_or(Response::Never)
    }
}

fn insert_among_few(
    entries: &mut Vec<(u32, Response)>,
    phase: u32,
    response: Response,
) -> Result<(), AllocError>
    ensures { OnOk result (entries.new.items ≡ with_response entries.old.items phase response) }
{
    if find_among_few(entries, phase).is_none() {
        entries.push((phase, response))?;
    }
    Ok(())
}

fn find_among_few(entries: &[(u32, Response)], phase: u32) -> Option<Response>
    ensures { result ≡ lookup (nat_eq phase) entries.now }
{
    for entry in entries {
        if phase == entry.0 {
            return Some(entry.1);
        }
    }
    None
}

fn insert_in_table(
    table: &mut IndexMap<u32, Response>,
    phase: u32,
    response: Response,
) -> Result<(), AllocError>
    ensures { OnOk result (table.new.entries ≡ with_response table.old.entries phase response) }
{
    if !table.contains_key(&phase) {
        table.insert(phase, response)?;
    }
    Ok(())
}
