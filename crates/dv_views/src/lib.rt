//! Views of models and traces, from bytes to bytes.
//!
//! Each call takes the bytes of a model, and those of a trace, inputs or a partition if it needs
//! them, and writes one view: `graph_bytes` a graph, `vcd_bytes` a value change dump, `stats_bytes`
//! numbers, `table_bytes` a table, `plot_bytes` curves, `warnings_bytes` warnings. `faults_text`
//! runs the model again and explains its faults. All of them read the model by `load` and `accept`
//! of `dv_job`, so a model is refused with the same answer as by a run. A `ViewError` is the answer
//! to the first text that is refused.
//!
//! The program calls these for `graph`, `vcd`, `stats`, `table`, `plot`, `check --warn` and `run
//! --explain`. No trace depends on a view, and nothing is claimed of a view except that it is made
//! without a fault of the program.
#![tactic(auto)]

/// What names stand for.
mod chosen;
/// Why a view is not complete.
pub mod error;
/// Where the faults of a run came from.
pub mod faults;
/// The graph of a model.
pub mod graph;
/// What has a name that a view does not take.
mod others;
/// Curves of a trace.
pub mod plot;
/// The numbers of a trace.
pub mod stats;
/// The table of a trace.
pub mod table;
/// The value change dump of a trace.
pub mod vcd;
/// The warnings of a model.
pub mod warnings;

pub use dv_fault::FileText;
pub use dv_plot::PlotOptions;
pub use dv_stats::{FlowOptions, Form, StatsOptions, StatsWriter};
pub use dv_table::{TableForm, TableOptions};
pub use dv_trace::Excerpt;
pub use dv_tree::Tree;
pub use dv_vcd::{NoTimescale, TimeUnit, Timescale, UnitCount, WaveOptions};
pub use error::ViewError;
pub use faults::faults_text;
pub use graph::{GraphOptions, Shown, graph_bytes};
pub use plot::plot_bytes;
pub use stats::{numbers_of, stats_bytes};
pub use table::table_bytes;
pub use vcd::vcd_bytes;
pub use warnings::warnings_bytes;
