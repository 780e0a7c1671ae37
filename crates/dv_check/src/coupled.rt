//! The checks of a coupled model.

ghost use Rattle.std.specs.Prelude.{◌≡◌, List, map, OnOk};
ghost use Rattle.std.specs.List.{flat_map};
ghost use Rattle.dv_syntax.specs.Trees.{coupled_of, ModelTree};
ghost use Rattle.dv_check.specs.Findings.{with_refusals};
ghost use Rattle.dv_check.specs.LinkSets.{no_link};
ghost use Rattle.dv_check.specs.Models.{faces_by, faces_in};
ghost use Rattle.dv_check.specs.Couplings.{coupled_refusals, coupled_refusals_by, interior_by, kind_refusals, link_refusals};
ghost use Rattle.dv_check.specs.Couplings.{name_of_part, part_refusals, repeated_links_after};
ghost use Rattle.dv_check.specs.Ports.{ports_of};
ghost use Rattle.dv_check.specs.Rules.{name_of_declaration};

use crate::declarations::NameSort;
use crate::directory::Directory;
use crate::findings::Findings;
use crate::link_set::LinkSet;
use crate::names;
use crate::parts::{Interior, check_link, check_part_model, has_ends, part_names};
use crate::ports::ports_of;
use crate::repeats::{find_excess, find_repeats};
use dv_lex::RefusalNumber;
use dv_syntax::{Coupled, Link, Name, Part};
use std::alloc::{AllocError, Global};

/// Tests a coupled model. `faces` has the ports of the models of the text.
pub fn check_coupled(
    alloc: Global,
    faces: &Directory<Directory<NameSort>>,
    model: &Coupled,
    found: &mut Findings,
) -> Result<(), AllocError>
    ensures { OnOk result ((models : List ModelTree) → faces_by faces.now ≡ faces_in models
        → found.new ≡ with_refusals found.old (coupled_refusals models (coupled_of model.now))) }
{
    let interior = Interior::of(alloc, model, faces)?;
    check_within(alloc, &interior, model, found)
}

fn check_within(
    alloc: Global,
    interior: &Interior,
    model: &Coupled,
    found: &mut Findings,
) -> Result<(), AllocError>
    ensures { OnOk result (found.new ≡ with_refusals found.old
        (coupled_refusals_by (interior_by interior.now) (coupled_of model.now))) }
{
    check_ports(alloc, model, found)?;
    check_part_names(alloc, &model.parts, found)?;
    check_parts(interior, &model.parts, found);
    check_links(interior, &model.links, found);
    find_repeated_links(alloc, interior, &model.links, found)?;
    Ok(())
}

// Ports that are declared twice, and too many ports.
fn check_ports(alloc: Global, model: &Coupled, found: &mut Findings) -> Result<(), AllocError>
    ensures { OnOk result (found.new ≡ with_refusals found.old
        (kind_refusals (map name_of_declaration (ports_of (coupled_of model.now))))) }
{
    let ports = ports_of(alloc, model)?;
    let names = names::declared(alloc, &ports)?;
    check_kind(alloc, &names, found)
}

// Parts that are declared twice, and too many parts.
fn check_part_names(alloc: Global, parts: &[Part], found: &mut Findings) -> Result<(), AllocError>
    ensures { OnOk result (found.new ≡ with_refusals found.old
        (kind_refusals (map name_of_part parts.now))) }
{
    let names = part_names(alloc, parts)?;
    check_kind(alloc, &names, found)
}

fn check_kind(alloc: Global, names: &[Name], found: &mut Findings) -> Result<(), AllocError>
    ensures { OnOk result (found.new ≡ with_refusals found.old (kind_refusals names.now)) }
{
    find_repeats(alloc, RefusalNumber::E6, names, found)?;
    find_excess(names, found);
    Ok(())
}

fn check_parts(interior: &Interior, parts: &[Part], found: &mut Findings)
    ensures { found.new ≡ with_refusals found.old
        (flat_map (part_refusals (interior_by interior.now)) parts.now) }
{
    for part in parts {
        check_part_model(interior, part, found);
    }
}

fn check_links(interior: &Interior, links: &[Link], found: &mut Findings)
    ensures { found.new ≡ with_refusals found.old
        (flat_map (link_refusals (interior_by interior.now)) links.now) }
{
    for link in links {
        check_link(interior, link, found);
    }
}

fn find_repeated_links(
    alloc: Global,
    interior: &Interior,
    links: &[Link],
    found: &mut Findings,
) -> Result<(), AllocError>
    ensures { OnOk result (found.new ≡ with_refusals found.old
        (repeated_links_after (interior_by interior.now) no_link links.now)) }
{
    let mut seen = LinkSet::new(alloc);
    for link in links {
        if !seen.insert(link)? && has_ends(interior, link) {
            found.note(RefusalNumber::E14, link.offset);
        }
    }
    Ok(())
}
