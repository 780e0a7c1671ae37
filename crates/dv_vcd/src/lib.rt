//! A trace as a value change dump (VCD, IEEE 1364), for wave viewers.
//!
//! `write_vcd` reads a trace twice. The first reading (`survey`) tests all lines, and with
//! `--hold-ports` finds the form of each port: a bit, a number or a string. The second one writes
//! the declarations, the values at the start, and line by line what changed. Nothing is written
//! before the first reading has ended, since a trace that is refused at its last line must leave no
//! output, and since the declarations come first. The second reading takes as many bytes as the
//! first one, because a file may grow meanwhile, and tests each line again, because it may be
//! changed.
//!
//! If only a part of the trace is asked for, the lines before it are followed in silence, so that
//! the values at the start are those that hold where it begins. The form of a port is that of the
//! whole trace, whatever part is shown.
//!
//! Memory does not grow with the trace. It holds what each component shows now, what passed by
//! ports in this tick, the inputs, one piece of the trace, and output of up to 64 KiB. The texts
//! that are shown reuse their memory.
//!
//! `dv_views` calls it for `pdevs vcd`. A dump has ticks and no microsteps: the changes at all
//! microsteps of a tick are written at that tick. Nothing is claimed of a dump except that it is
//! made without a fault of the program.
#![tactic(auto)]

/// What arrives at the input ports of the root.
mod arrivals;
/// The changes of values, line by line.
mod changes;
/// Writes the dump of a trace.
pub mod dump;
/// Why a dump is not complete.
pub mod error;
/// Bits, numbers and strings.
mod forms;
/// The declarations: a scope for each model, a variable for each value that is shown.
mod header;
/// What ports show at the beginning of the part that is asked for.
mod latest;
/// What passed in this tick by ports that are strings.
mod marks;
/// Options of a dump.
pub mod options;
/// The form of each port.
mod ports;
/// Reads the lines of a trace.
mod reading;
/// What is shown of each component.
mod shown;
/// The first reading of a trace, which tests it.
mod survey;
/// The length of a tick.
pub mod timescale;
/// Writes codes and values.
mod values;

pub use dump::write_vcd;
pub use error::VcdError;
pub use options::WaveOptions;
pub use timescale::{NoTimescale, TimeUnit, Timescale, UnitCount};
