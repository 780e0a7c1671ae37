//! The processes of nodes, as text and as colours.

use crate::number::number_of;
use dv_partition::Groups;
use std::fmt;

/// In which processes the components of a node are.
#[derive(Clone, Copy)]
pub(crate) enum Place {
    /// There is no partition.
    Undivided,
    /// All in one process. `count` is the number of processes of the partition.
    Process { process: u32, count: u64 },
    /// In several processes.
    Several,
}

impl Place {
    /// The place of `count` components with successive numbers, of which `first` is the least.
    pub(crate) fn of(groups: Option<&Groups>, first: usize, count: usize) -> Self {
        let Some(groups) = groups else {
            return Place::Undivided;
        };
        let process = groups.owner(number_of(first));
        for component in first..first.saturating_add(count) {
            if groups.owner(number_of(component)) != process {
                return Place::Several;
            }
        }
        Place::Process {
            process,
            count: groups.processes() as u64,
        }
    }
}

/// The process of a node as a line of its label, with the line break before it.
#[derive(Clone, Copy)]
pub(crate) struct PlaceLine(pub(crate) &'static str, pub(crate) Place);

impl fmt::Display for PlaceLine {
    fn fmt<W: fmt::Write>(&self, f: &mut fmt::Formatter<W>) -> fmt::Result {
        let line_break = self.0;
        match self.1 {
            Place::Undivided => Ok(()),
            Place::Process { process, .. } => write!(f, "{line_break}process {process}"),
            Place::Several => write!(f, "{line_break}several processes"),
        }
    }
}

/// The colour of a node in one process, as an attribute with a comma before it. The hues of the
/// processes are evenly spaced.
#[derive(Clone, Copy)]
pub(crate) struct Colour(pub(crate) Place);

impl fmt::Display for Colour {
    fn fmt<W: fmt::Write>(&self, f: &mut fmt::Formatter<W>) -> fmt::Result {
        match self.0 {
            Place::Process { process, count } => {
                let thousandths = u64::from(process) * 1000 / count.max(1);
                write!(f, ", fillcolor=\"0.{thousandths:03} 0.3 1.0\"")
            }
            Place::Undivided | Place::Several => Ok(()),
        }
    }
}
