//! The ports of a coupled model in the order of the text.

ghost use Rattle.std.specs.Prelude.{◌≡◌, ◌++◌, map, IfOk, OnOk};
ghost use Rattle.dv_syntax.specs.Trees.{coupled_of};
ghost use Rattle.dv_syntax.specs.declared.tree.Declaration.TheVariants.{Out};
ghost use Rattle.dv_check.specs.Ports.{names_before, names_from, ports_by_offset, ports_of};

use dv_syntax::{Coupled, Declaration, Name};
use std::alloc::{AllocError, Global};

/// The input and output ports of a model in the order of the text, merged from the lists of both
/// directions.
pub fn ports_of(alloc: Global, model: &Coupled) -> Result<Vec<Declaration>, AllocError>
    ensures { IfOk result (λ ports. ports.items ≡ ports_of (coupled_of model.now)) }
{
    ports_by_offset(alloc, &model.inputs, &model.outputs)
}

fn ports_by_offset(
    alloc: Global,
    inputs: &[Name],
    outputs: &[Name],
) -> Result<Vec<Declaration>, AllocError>
    ensures { IfOk result (λ ports. ports.items ≡ ports_by_offset inputs.now outputs.now) }
{
    let mut ports = Vec::new(alloc);
    let mut rest = outputs;
    for input in inputs {
        rest = push_before(input.offset, rest, &mut ports)?;
        ports.push(Declaration::In(*input))?;
    }
    push_outputs(rest, &mut ports)?;
    Ok(ports)
}

// Adds the output ports before an offset, and returns the others.
fn push_before<'a>(
    offset: u32,
    outputs: &'a [Name],
    ports: &mut Vec<Declaration>,
) -> Result<&'a [Name], AllocError>
    ensures pushed { OnOk result (ports.new.items
        ≡ ports.old.items ++ map Out (names_before offset outputs.now)) }
    ensures rest { IfOk result (λ rest. rest.now ≡ names_from offset outputs.now) }
{
    for (index, output) in outputs.iter().enumerate() {
        if output.offset >= offset {
            return Ok(&outputs[index..]);
        }
        ports.push(Declaration::Out(*output))?;
    }
    Ok(&[])
}

fn push_outputs(outputs: &[Name], ports: &mut Vec<Declaration>) -> Result<(), AllocError>
    ensures { OnOk result (ports.new.items ≡ ports.old.items ++ map Out outputs.now) }
{
    for output in outputs {
        ports.push(Declaration::Out(*output))?;
    }
    Ok(())
}
