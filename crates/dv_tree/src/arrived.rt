//! What has arrived at the ports of one coupled model.

ghost use Rattle.std.specs.Prelude.{◌≡◌, [], unwrap_or, OnOk};
ghost use Rattle.std.specs.Option.{option_copied};
ghost use Rattle.dv_tree.specs.Routing.{along, joined_at, with_values};

use crate::couplings::{Coupling, Target};
use dv_bag::{Bag, Bags, Sent};
use std::alloc::{AllocError, Global};
use std::marker::Model;

/// What has arrived at the ports that the links of a coupled model lead to: its own outputs, and
/// the inputs of each part.
#[derive(Drop)]
pub(crate) struct Arrived {
    pub(crate) own: Bags,
    pub(crate) parts: Vec<Bags>,
}

impl Model for Arrived {
    ghost use Rattle.dv_tree.specs.Routing as routing;
    ghost use Rattle.dv_tree.specs.Nodes.{arrived_code};

    ghost Value = { routing.Arrived };

    ghost coded = { arrived_code };

    ghost view = { λ a. record { own = a.own; parts = a.parts.items } };
}

impl Arrived {
    /// Of a model without ports. It takes no memory.
    pub(crate) fn empty(alloc: Global) -> Self
        ensures { result ≡ record { own = []; parts = [] } }
    {
        Arrived {
            own: Bags::empty(alloc, 0),
            parts: Vec::new(alloc),
        }
    }

    /// What has arrived at the outputs of the model itself.
    pub(crate) fn own(&self) -> &Bags
        ensures { result.now ≡ self.now.own }
    {
        &self.own
    }

    /// What has arrived at the inputs of the parts.
    pub(crate) fn into_parts(self) -> Vec<Bags>
        ensures { result.items ≡ self.parts }
    {
        let Arrived { own: _, parts } = self;
        parts
    }

    // Adds values at a target.
    fn add(&mut self, target: Target, values: &Bag) -> Result<(), AllocError>
        ensures { OnOk result (self.new ≡ with_values target values.now self.old) }
    {
        match target {
            Target::Own { port } => join(&mut self.own, port, values),
            Target::OfPart { part, port } => {
                if part < self.parts.len() {
                    join(&mut self.parts[part], port, values)?;
                }
                Ok(())
            }
        }
    }

    // Adds the values of a port at a target, if there are any.
    fn add_held(&mut self, target: Target, values: Option<&Bag>) -> Result<(), AllocError>
        ensures { OnOk result (self.new
            ≡ with_values target (unwrap_or (option_copied values.entry) []) self.old) }
    {
        match values {
            Some(values) => self.add(target, values),
            None => Ok(()),
        }
    }

    /// Adds a copy of what a component sent along each of its couplings.
    ///
    /// # Errors
    ///
    /// No memory for the values.
    pub(crate) fn add_sent(&mut self, couplings: &[Coupling], sent: &Sent) -> Result<(), AllocError>
        ensures { OnOk result (self.new ≡ along couplings.now sent.now self.old) }
    {
        if sent.is_empty() {
            return Ok(());
        }
        for coupling in couplings {
            let values = sent.bag(coupling.port)?;
            self.add(coupling.target, &values)?;
        }
        Ok(())
    }

    /// Adds a copy of the values at each port along each of its couplings.
    ///
    /// # Errors
    ///
    /// No memory for the values.
    pub(crate) fn add_bags(&mut self, couplings: &[Coupling], bags: &Bags) -> Result<(), AllocError>
        ensures { OnOk result (self.new ≡ along couplings.now bags.now self.old) }
    {
        if bags.is_empty() {
            return Ok(());
        }
        for coupling in couplings {
            self.add_held(coupling.target, bags.get(coupling.port))?;
        }
        Ok(())
    }
}

// Adds values at a port. At a port past the last they are dropped.
fn join(bags: &mut Bags, port: usize, values: &Bag) -> Result<(), AllocError>
    ensures { OnOk result (bags.new ≡ joined_at port values.now bags.old) }
{
    if port < bags.len() {
        bags.union_at(port, values)?;
    }
    Ok(())
}
