//! What a command line asks for.

ghost use Rattle.std.specs.Prelude.{◌≡◌};
ghost use Rattle.dv_command.specs.Ranges.{AreInRange};
ghost use Rattle.dv_command.specs.declared.request.RequestError.TheVariants.{Memory};

use dv_explain::Explanation;
use std::alloc::AllocError;

/// The greatest microstep of a tick if none is given.
pub(crate) const USUAL_LIMIT: u32 = 20;

/// What a command line asks for: a subcommand with its values, or the version.
#[derive(Drop)]
pub enum Request {
    /// Check a model and print the number of its components.
    Check(Check),
    /// Run a model and print its trace, or the numbers of it.
    Run(Run),
    /// Print the programs of a model.
    Code(ModelFile),
    /// Print how a model is divided.
    Plan(Plan),
    /// Print a model as a graph in the DOT language.
    Graph(Graph),
    /// Print curves of a trace, as a picture.
    Plot(Plot),
    /// Print a trace as a value change dump.
    Vcd(Waves),
    /// Print what a trace says of each component, in numbers.
    Stats(Stats),
    /// Print a trace as a table.
    Table(Table),
    /// Print what a refusal or a fault means.
    Explain(&'static Explanation),
    /// Print the program's name and version, which is this text.
    Version(String),
}

/// The file of a model.
#[derive(Drop)]
pub struct ModelFile {
    /// The file of the model.
    pub model: String,
    /// Whether a refusal is explained.
    pub explained: bool,
}

/// A model to check.
#[derive(Drop)]
pub struct Check {
    /// The model.
    pub file: ModelFile,
    /// Whether warnings are printed.
    pub warned: bool,
}

/// A model with a trace of it.
#[derive(Drop)]
pub struct TraceFiles {
    /// The file of the model.
    pub model: String,
    /// The file of the trace, as `run` printed it.
    pub trace: String,
    /// Whether the trace may stop before its end.
    pub partial: bool,
    /// Whether a refusal is explained.
    pub explained: bool,
}

/// The part of a trace that is asked for. The last tick is not before the first one.
#[derive(Drop)]
pub struct Excerpt {
    /// The first tick, 0 to 10^15, if it is given.
    pub from: Option<u64>,
    /// The last tick, 0 to 10^15, if it is given.
    pub to: Option<u64>,
    /// The path of the component, or of the coupled model, that alone is asked for, if it is given.
    pub only: Option<String>,
}

/// A trace to print as a value change dump.
#[derive(Drop)]
pub struct Waves {
    /// The model and the trace.
    pub files: TraceFiles,
    /// What of the trace is shown.
    pub excerpt: Excerpt,
    /// The file of the inputs of the run, if it is given.
    pub inputs: Option<String>,
    /// Whether a port shows its last value until the next one.
    pub holds_ports: bool,
    /// The length of a tick, if it is given, as text. It may be no timescale.
    pub timescale: Option<String>,
}

/// A trace of which curves are printed. The last tick is not before the first one.
#[derive(Drop)]
pub struct Plot {
    /// The model and the trace.
    pub files: TraceFiles,
    /// The names of what is shown, at least one.
    pub names: Vec<String>,
    /// The first tick that is shown, 0 to 10^15, if it is given.
    pub from: Option<u64>,
    /// The last tick that is shown, 0 to 10^15, if it is given.
    pub to: Option<u64>,
}

/// A trace to print in numbers.
#[derive(Drop)]
pub struct Stats {
    /// The model and the trace.
    pub files: TraceFiles,
    /// The file of the inputs of the run, if it is given.
    pub inputs: Option<String>,
    /// What is counted, and how it is printed.
    pub choice: StatsChoice,
}

/// What of a trace is counted, and how it is printed.
#[derive(Drop)]
pub struct StatsChoice {
    /// The ticks and the components that count.
    pub excerpt: Excerpt,
    /// The ports between which times are taken, if they are given.
    pub flow: Option<Flow>,
    /// Whether quantiles are printed.
    pub quantiles: bool,
    /// Whether the numbers are printed as comma-separated values.
    pub csv: bool,
}

/// Two ports between which times are taken.
#[derive(Drop)]
pub struct Flow {
    /// Their names with a colon between them. It may be another text.
    pub ports: String,
    /// Whether a value that goes is paired with one that is the same.
    pub by_value: bool,
}

/// A trace to print as a table.
#[derive(Drop)]
pub struct Table {
    /// The model and the trace.
    pub files: TraceFiles,
    /// The ticks and the components of which rows are printed.
    pub excerpt: Excerpt,
    /// The file of the inputs of the run, if it is given.
    pub inputs: Option<String>,
    /// Whether rows are printed as JSON lines, instead of comma-separated values.
    pub json: bool,
}

/// How the components of a model are divided into processes.
#[derive(Drop)]
pub enum PartitionChoice {
    /// By the partition in this file.
    File(String),
    /// Into this number of processes, which may be too great for the model.
    Count(u32),
}

/// A model whose plan is printed.
#[derive(Drop)]
pub struct Plan {
    /// The file of the model.
    pub model: String,
    /// How it is divided, if that is given; otherwise there is one process.
    pub partition: Option<PartitionChoice>,
    /// Whether a refusal is explained.
    pub explained: bool,
}

/// A model to print as a graph. If phases are shown, there is no partition.
#[derive(Drop)]
pub struct Graph {
    /// The model.
    pub file: ModelFile,
    /// How it is divided, if that is given; otherwise no processes are shown.
    pub partition: Option<PartitionChoice>,
    /// What of the model is shown.
    pub choice: GraphChoice,
}

/// What of a model a graph shows.
#[derive(Drop)]
pub enum GraphChoice {
    /// All components.
    All,
    /// The parts down to this depth. The root is at depth 0.
    Depth(u64),
    /// The phases of the atomic model of this name. The model may have none.
    Phases(String),
}

/// A model to run. The type keeps horizon and microsteps within their ranges.
#[derive(Drop)]
pub struct Run {
    /// The file of the model.
    pub model: String,
    /// How it is divided, if that is given; otherwise there is one process.
    pub partition: Option<PartitionChoice>,
    /// The file of the inputs, if it is given.
    pub inputs: Option<String>,
    /// The last tick of the run, 0 to 10^15.
    pub horizon: u64,
    /// The greatest microstep of a tick, 1 to 1,000; 20 if none is given.
    pub microsteps: u32,
    /// The most rounds, if that is given; otherwise there are as many as are needed.
    pub rounds: Option<u64>,
    /// The number of threads that run the processes, 1 to 256, if that is given. There are no
    /// rounds then.
    pub workers: Option<u32>,
    /// Whether refusals and faults are explained.
    pub explained: bool,
    /// The numbers that are printed instead of the trace, if they are asked for.
    pub stats: Option<StatsChoice>,
    /// Whether progress is printed on standard error.
    pub progress: bool,
    pub ghost in_range: { AreInRange horizon microsteps },
}

/// The answer to words that are no command.
#[derive(Drop)]
pub struct Usage {
    /// The text to print, with its line feeds.
    pub text: String,
}

/// Why there is no request.
#[derive(Drop)]
pub enum RequestError {
    /// The words are no command, or ask for help.
    Usage(Usage),
    /// An allocation was refused.
    Memory,
}

impl From<AllocError> for RequestError {
    ghost from_gives = { λ _ e. e ≡ Memory };

    fn from(_error: AllocError) -> Self {
        RequestError::Memory
    }
}
