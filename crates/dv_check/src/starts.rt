//! The variables, flags, bags and queues of an atomic model that are known at the start.

ghost use Rattle.std.specs.Prelude.{◌≡◌, IfOk};
ghost use Rattle.std.specs.Option.{option_copied};
ghost use Rattle.dv_eval.specs.Scope.{state_variables_in};
ghost use Rattle.dv_syntax.specs.Trees.{expression_of, ticks_of};
ghost use Rattle.dv_check.specs.Names.{first_of};
ghost use Rattle.dv_check.specs.Tables.{value_for};
ghost use Rattle.dv_check.specs.Rules.{domain_of_state_variable, is_in_range, is_start_known, is_start_known_by, names_only};
ghost use Rattle.dv_check.specs.Rules.{number_of_state_variable, ticks_names_only};

use crate::declarations::{is_capacity, is_out_of_range};
use crate::directory::Directory;
use crate::limits::GREATEST_NAMES;
use crate::names;
use crate::repeats::within_limit;
use dv_eval::Domain;
use dv_syntax::{Declaration, Expr, Name, Ticks};
use std::alloc::{AllocError, Global};

/// What the variables, flags, bags and queues of an atomic model may hold, by their first
/// declarations within the limit on their number.
#[derive(Drop)]
pub struct Starts {
    /// The domain of each name, and its start value.
    pub domains: Directory<Domain>,
}

// The domain of each variable, flag, bag and queue, by its first declaration.
#[tactic(auto, using(crate::proofs::Firsts::first_of_none))]
fn directory_of(
    alloc: Global,
    variables: &[(Name, Domain)],
) -> Result<Directory<Domain>, AllocError>
    ensures { IfOk result (λ directory. value_for directory
        ≡ first_of number_of_state_variable domain_of_state_variable variables.now) }
{
    let mut directory = Directory::with_room(alloc, variables.len())?;
    for variable in variables {
        directory.add(variable.0.number, variable.1)?;
    }
    Ok(directory)
}

impl Starts {
    /// The variables, flags, bags and queues of these declarations.
    #[tactic(auto, unfolding(crate::specs::Rules::is_start_known, crate::specs::Rules::is_start_known_by))]
    pub fn of(alloc: Global, declarations: &[Declaration]) -> Result<Self, AllocError>
        ensures { IfOk result (λ starts. is_start_known_by starts
            ≡ is_start_known (state_variables_in declarations.now)) }
    {
        let variables = names::state_variables(alloc, declarations)?;
        Ok(Starts {
            domains: directory_of(alloc, within_limit(GREATEST_NAMES, &variables))?,
        })
    }

    /// Whether all variables, flags, bags and queues that a hold names are known.
    pub fn know_ticks(&self, ticks: &Ticks) -> bool
        ensures { result ≡ ticks_names_only (is_start_known_by self.now) (ticks_of ticks.now) }
    {
        match ticks {
            Ticks::Forever => true,
            Ticks::After(expression) => self.know_names(expression),
        }
    }

    fn know_names(&self, expression: &Expr) -> bool
        ensures { result ≡ names_only (is_start_known_by self.now) (expression_of expression.now) }
    {
        match expression {
            Expr::Literal(_) | Expr::TruthValue { .. } | Expr::Elapsed { .. } => true,
            Expr::Named(name) => self.know(name.number),
            Expr::Parens { inner, .. } => self.know_names(inner),
            Expr::Prefixed { operand, .. } => self.know_names(operand),
            Expr::Binary { left, right, .. } => self.know_names(left) && self.know_names(right),
            Expr::Call { bag, .. } => self.know(bag.number),
            Expr::Times { value, bag, .. } => self.know_names(value) && self.know(bag.number),
        }
    }

    #[tactic(auto, unfolding(crate::specs::Rules::is_start_known_by))]
    fn know(&self, name: u32) -> bool
        ensures { result ≡ is_start_known_by self.now name }
    {
        is_in_range(self.domains.get(name))
    }
}

fn is_in_range(domain: Option<&Domain>) -> bool
    ensures { result ≡ is_in_range (option_copied domain.entry) }
{
    match domain {
        Some(Domain::Number(range)) => !is_out_of_range(*range),
        Some(Domain::Flag { .. }) => true,
        Some(Domain::Held { capacity, .. }) => is_capacity(*capacity),
        None => false,
    }
}
