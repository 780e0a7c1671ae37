//! Names that are declared twice or too often, and the parts that count.

ghost use Rattle.std.specs.Prelude.{◌≡◌, IfOk, OnOk};
ghost use Rattle.dv_check.specs.Findings.{with_refusals};
ghost use Rattle.dv_check.specs.Names.{excess, excess_past, first_parts, repeats, within_limit};

use crate::findings::Findings;
use crate::limits::GREATEST_NAMES;
use crate::number_set::NumberSet;
use dv_lex::RefusalNumber;
use dv_syntax::{Name, Part};
use std::alloc::{AllocError, Global};

/// Notes each name that occurs before in the list. Most lists have at most one name, and no set is
/// made for them.
#[tactic(auto, using(crate::proofs::Lists::no_repeats))]
pub fn find_repeats(
    alloc: Global,
    number: RefusalNumber,
    names: &[Name],
    found: &mut Findings,
) -> Result<(), AllocError>
    ensures { OnOk result (found.new ≡ with_refusals found.old (repeats number names.now)) }
{
    match names {
        [] | [_] => Ok(()),
        _ => find_repeats_by_set(alloc, number, names, found),
    }
}

fn find_repeats_by_set(
    alloc: Global,
    number: RefusalNumber,
    names: &[Name],
    found: &mut Findings,
) -> Result<(), AllocError>
    ensures { OnOk result (found.new ≡ with_refusals found.old (repeats number names.now)) }
{
    let mut seen = NumberSet::with_room(alloc, names.len())?;
    for name in names {
        if !seen.insert(name.number)? {
            found.note(number, name.offset);
        }
    }
    Ok(())
}

/// The parts that count, in their order: the first of each name.
pub fn first_parts(alloc: Global, parts: &[Part]) -> Result<Vec<Part>, AllocError>
    ensures { IfOk result (λ firsts. firsts.items ≡ first_parts parts.now) }
{
    let mut seen = NumberSet::with_room(alloc, parts.len())?;
    let mut firsts = Vec::new(alloc);
    for part in parts {
        if seen.insert(part.name.number)? {
            firsts.push(*part)?;
        }
    }
    Ok(firsts)
}

/// Notes the first name past the greatest number of names of one kind.
pub fn find_excess(names: &[Name], found: &mut Findings)
    ensures { found.new ≡ with_refusals found.old (excess names.now) }
{
    find_past(GREATEST_NAMES, names, found);
}

#[tactic(auto, unfolding(crate::specs::Names::excess_past))]
fn find_past(limit: usize, names: &[Name], found: &mut Findings)
    ensures { found.new ≡ with_refusals found.old (excess_past limit names.now) }
{
    if let Some(name) = names.get(limit) {
        found.note(RefusalNumber::E17, name.offset);
    }
}

/// The items within a limit.
#[tactic(auto, unfolding(crate::specs::Names::within_limit))]
pub fn within_limit<T>(limit: usize, items: &[T]) -> &[T]
    ensures { result.now ≡ within_limit limit items.now }
{
    if items.len() > limit {
        &items[..limit]
    } else {
        items
    }
}
