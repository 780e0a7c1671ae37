//! The subcommands, their names and their options.

ghost use Rattle.std.specs.Prelude.{◌≡◌};
ghost use Rattle.dv_command.specs.Subcommands.{excerpt_takes_value, graph_takes_value, is_flag, plan_takes_value, plot_has_flag, plot_takes_value};
ghost use Rattle.dv_command.specs.Subcommands.{run_has_flag, run_takes_value};
ghost use Rattle.dv_command.specs.Subcommands.{stats_has_flag, stats_takes_value, subcommand_named, table_has_flag, takes_value};
ghost use Rattle.dv_command.specs.Subcommands.{vcd_has_flag, vcd_takes_value};

/// A subcommand of the program.
#[derive(Clone, Copy)]
pub(crate) enum Subcommand {
    Check,
    Code,
    Explain,
    Graph,
    Plan,
    Plot,
    Run,
    Stats,
    Table,
    Vcd,
}

/// The subcommand of this name, if there is one.
pub(crate) fn subcommand_named(word: &str) -> Option<Subcommand>
    ensures { result ≡ subcommand_named word.now }
{
    if word == "check" {
        Some(Subcommand::Check)
    } else if word == "code" {
        Some(Subcommand::Code)
    } else if word == "explain" {
        Some(Subcommand::Explain)
    } else if word == "graph" {
        Some(Subcommand::Graph)
    } else if word == "plan" {
        Some(Subcommand::Plan)
    } else if word == "plot" {
        Some(Subcommand::Plot)
    } else if word == "run" {
        Some(Subcommand::Run)
    } else if word == "stats" {
        Some(Subcommand::Stats)
    } else if word == "table" {
        Some(Subcommand::Table)
    } else if word == "vcd" {
        Some(Subcommand::Vcd)
    } else {
        None
    }
}

fn plan_takes_value(name: &str) -> bool
    ensures { result ≡ plan_takes_value name.now }
{
    name == "--partition" || name == "--processes"
}

fn graph_takes_value(name: &str) -> bool
    ensures { result ≡ graph_takes_value name.now }
{
    plan_takes_value(name) || name == "--depth" || name == "--model"
}

fn plot_takes_value(name: &str) -> bool
    ensures { result ≡ plot_takes_value name.now }
{
    name == "--from" || name == "--to"
}

fn excerpt_takes_value(name: &str) -> bool
    ensures { result ≡ excerpt_takes_value name.now }
{
    name == "--from" || name == "--only" || name == "--to"
}

fn stats_takes_value(name: &str) -> bool
    ensures { result ≡ stats_takes_value name.now }
{
    excerpt_takes_value(name) || name == "--flow"
}

fn run_takes_value(name: &str) -> bool
    ensures { result ≡ run_takes_value name.now }
{
    name == "--horizon"
        || name == "--inputs"
        || name == "--microsteps"
        || name == "--rounds"
        || name == "--workers"
        || plan_takes_value(name)
        || stats_takes_value(name)
}

fn vcd_takes_value(name: &str) -> bool
    ensures { result ≡ vcd_takes_value name.now }
{
    name == "--inputs" || name == "--timescale" || excerpt_takes_value(name)
}

/// Whether the subcommand has an option of this name that takes a value. The name begins with `--`.
pub(crate) fn takes_value(subcommand: Subcommand, name: &str) -> bool
    ensures { result ≡ takes_value subcommand name.now }
{
    match subcommand {
        Subcommand::Run => run_takes_value(name),
        Subcommand::Plan => plan_takes_value(name),
        Subcommand::Graph => graph_takes_value(name),
        Subcommand::Plot => plot_takes_value(name),
        Subcommand::Check => false,
        Subcommand::Code => false,
        Subcommand::Explain => false,
        Subcommand::Stats => stats_takes_value(name) || name == "--inputs",
        Subcommand::Table => excerpt_takes_value(name) || name == "--inputs",
        Subcommand::Vcd => vcd_takes_value(name),
    }
}

fn run_has_flag(name: &str) -> bool
    ensures { result ≡ run_has_flag name.now }
{
    name == "--by-value"
        || name == "--csv"
        || name == "--explain"
        || name == "--progress"
        || name == "--quantiles"
        || name == "--stats"
}

fn plot_has_flag(name: &str) -> bool
    ensures { result ≡ plot_has_flag name.now }
{
    name == "--explain" || name == "--partial"
}

fn stats_has_flag(name: &str) -> bool
    ensures { result ≡ stats_has_flag name.now }
{
    name == "--by-value"
        || name == "--csv"
        || name == "--explain"
        || name == "--partial"
        || name == "--quantiles"
}

fn table_has_flag(name: &str) -> bool
    ensures { result ≡ table_has_flag name.now }
{
    name == "--explain" || name == "--json" || name == "--partial"
}

fn vcd_has_flag(name: &str) -> bool
    ensures { result ≡ vcd_has_flag name.now }
{
    name == "--explain" || name == "--hold-ports" || name == "--partial"
}

/// Whether the subcommand has a flag of this name, which begins with `--`.
pub(crate) fn is_flag(subcommand: Subcommand, name: &str) -> bool
    ensures { result ≡ is_flag subcommand name.now }
{
    match subcommand {
        Subcommand::Explain => false,
        Subcommand::Check => name == "--explain" || name == "--warn",
        Subcommand::Code => name == "--explain",
        Subcommand::Graph => name == "--explain",
        Subcommand::Plan => name == "--explain",
        Subcommand::Plot => plot_has_flag(name),
        Subcommand::Run => run_has_flag(name),
        Subcommand::Stats => stats_has_flag(name),
        Subcommand::Table => table_has_flag(name),
        Subcommand::Vcd => vcd_has_flag(name),
    }
}
