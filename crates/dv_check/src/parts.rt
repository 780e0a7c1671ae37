//! The parts and links of a coupled model.

ghost use Rattle.std.specs.Prelude.{◌≡◌, ◌&&◌, map, IfOk};
ghost use Rattle.std.specs.Option.{option_copied};
ghost use Rattle.dv_lex.specs.declared.error.RefusalNumber.TheVariants.{E13};
ghost use Rattle.dv_syntax.specs.Trees.{coupled_of};
ghost use Rattle.dv_check.specs.Findings.{with_refusals};
ghost use Rattle.dv_check.specs.Names.{refusal_if};
ghost use Rattle.dv_check.specs.Tables.{value_for};
ghost use Rattle.dv_check.specs.Rules.{sort_in};
ghost use Rattle.dv_check.specs.Models.{faces_by};
ghost use Rattle.dv_check.specs.Ports.{ports_of};
ghost use Rattle.dv_check.specs.Couplings.{has_ends, input_refusals, interior_by, is_input, is_input_shown, is_output};
ghost use Rattle.dv_check.specs.Couplings.{is_output_shown, is_source, is_target, leads_back, link_refusals, name_of_part};
ghost use Rattle.dv_check.specs.Couplings.{output_refusals, part_refusals, part_source_refusals, part_target_refusals, parts_in};
ghost use Rattle.dv_check.specs.Couplings.{same_part, source_refusals, target_refusals};

use crate::declarations::{NameSort, sorts_of};
use crate::directory::Directory;
use crate::findings::Findings;
use crate::ports::ports_of;
use dv_lex::RefusalNumber;
use dv_syntax::{Coupled, End, Link, Name, Part};
use std::alloc::{AllocError, Global};

/// What a link of a coupled model can name: the model's own ports, its parts, and the ports of
/// their models.
#[derive(Drop)]
pub struct Interior<'a> {
    /// What the names of the model's own ports denote.
    pub ports: Directory<NameSort>,
    /// The first part of each name.
    pub parts: Directory<Part>,
    /// For the name of each model, what the names of its ports denote.
    pub faces: &'a Directory<Directory<NameSort>>,
}

fn name_of_part(part: &Part) -> Name
    ensures { result ≡ name_of_part part.now }
{
    part.name
}

/// The names of the parts.
pub fn part_names(alloc: Global, parts: &[Part]) -> Result<Vec<Name>, AllocError>
    ensures { IfOk result (λ names. names.items ≡ map name_of_part parts.now) }
{
    parts.iter().map(|part| name_of_part(part)).collect(alloc)
}

fn directory_of(alloc: Global, parts: &[Part]) -> Result<Directory<Part>, AllocError>
    ensures { IfOk result (λ directory. value_for directory ≡ parts_in parts.now) }
{
    let mut directory = Directory::with_room(alloc, parts.len())?;
    for part in parts {
        directory.add(part.name.number, *part)?;
    }
    Ok(directory)
}

impl<'a> Interior<'a> {
    /// What a model declares, in a text whose models have these ports.
    pub fn of(
        alloc: Global,
        model: &Coupled,
        faces: &'a Directory<Directory<NameSort>>,
    ) -> Result<Self, AllocError>
        ensures ports { IfOk result
            (λ interior. value_for interior.ports ≡ sort_in (ports_of (coupled_of model.now))) }
        ensures parts { IfOk result
            (λ interior. value_for interior.parts ≡ parts_in (coupled_of model.now).parts) }
        ensures faces { IfOk result (λ interior. interior.faces.now ≡ faces.now) }
    {
        let ports = ports_of(alloc, model)?;
        Ok(Interior {
            ports: sorts_of(alloc, &ports)?,
            parts: directory_of(alloc, &model.parts)?,
            faces,
        })
    }
}

/// Tests that the model of a part is known.
#[tactic(auto, unfolding(crate::specs::Models::faces_by))]
pub fn check_part_model(interior: &Interior, part: &Part, found: &mut Findings)
    ensures { found.new ≡ with_refusals found.old
        (part_refusals (interior_by interior.now) part.now) }
{
    if interior.faces.get(part.model.number).is_none() {
        found.note(RefusalNumber::E7, part.model.offset);
    }
}

/// Tests the ends of a link, and if they are known, that they are not both at one part or at the
/// model itself.
pub fn check_link(interior: &Interior, link: &Link, found: &mut Findings)
    ensures { found.new ≡ with_refusals found.old
        (link_refusals (interior_by interior.now) link.now) }
{
    check_source(interior, &link.from, found);
    check_target(interior, &link.to, found);
    check_way(interior, link, found);
}

fn check_way(interior: &Interior, link: &Link, found: &mut Findings)
    ensures { found.new ≡ with_refusals found.old (refusal_if
        (leads_back link.now && has_ends (interior_by interior.now) link.now) E13 link.now.offset) }
{
    if leads_back(link) && has_ends(interior, link) {
        found.note(RefusalNumber::E13, link.offset);
    }
}

// Whether both ends are at one part, or both at the model itself.
fn leads_back(link: &Link) -> bool
    ensures { result ≡ leads_back link.now }
{
    same_part(link.from.part, link.to.part)
}

fn same_part(one: Option<Name>, other: Option<Name>) -> bool
    ensures { result ≡ same_part one other }
{
    match (one, other) {
        (None, None) => true,
        (Some(one), Some(other)) => one.number == other.number,
        (None, Some(_)) | (Some(_), None) => false,
    }
}

fn check_source(interior: &Interior, end: &End, found: &mut Findings)
    ensures { found.new ≡ with_refusals found.old
        (source_refusals (interior_by interior.now) end.now.part end.now.port) }
{
    match end.part {
        None => check_input(interior.ports.get(end.port.number), &end.port, found),
        Some(name) => match interior.parts.get(name.number) {
            None => found.note(RefusalNumber::E7, name.offset),
            Some(part) => check_part_source(interior, part, &end.port, found),
        },
    }
}

#[tactic(auto, unfolding(crate::specs::Models::faces_by))]
fn check_part_source(interior: &Interior, part: &Part, port: &Name, found: &mut Findings)
    ensures { found.new ≡ with_refusals found.old
        (part_source_refusals (faces_by interior.now.faces.now part.now.model.number) port.now) }
{
    match interior.faces.get(part.model.number) {
        None => {}
        Some(face) => check_output(face.get(port.number), port, found),
    }
}

fn check_target(interior: &Interior, end: &End, found: &mut Findings)
    ensures { found.new ≡ with_refusals found.old
        (target_refusals (interior_by interior.now) end.now.part end.now.port) }
{
    match end.part {
        None => check_output(interior.ports.get(end.port.number), &end.port, found),
        Some(name) => match interior.parts.get(name.number) {
            None => found.note(RefusalNumber::E7, name.offset),
            Some(part) => check_part_target(interior, part, &end.port, found),
        },
    }
}

#[tactic(auto, unfolding(crate::specs::Models::faces_by))]
fn check_part_target(interior: &Interior, part: &Part, port: &Name, found: &mut Findings)
    ensures { found.new ≡ with_refusals found.old
        (part_target_refusals (faces_by interior.now.faces.now part.now.model.number) port.now) }
{
    match interior.faces.get(part.model.number) {
        None => {}
        Some(face) => check_input(face.get(port.number), port, found),
    }
}

// Tests that a port is an input.
fn check_input(sort: Option<&NameSort>, port: &Name, found: &mut Findings)
    ensures { found.new ≡ with_refusals found.old
        (input_refusals (option_copied sort.entry) port.now.offset) }
{
    match sort {
        Some(NameSort::Input) => {}
        Some(NameSort::Output) => found.note(RefusalNumber::E12, port.offset),
        _ => found.note(RefusalNumber::E7, port.offset),
    }
}

// Tests that a port is an output.
fn check_output(sort: Option<&NameSort>, port: &Name, found: &mut Findings)
    ensures { found.new ≡ with_refusals found.old
        (output_refusals (option_copied sort.entry) port.now.offset) }
{
    match sort {
        Some(NameSort::Output) => {}
        Some(NameSort::Input) => found.note(RefusalNumber::E12, port.offset),
        _ => found.note(RefusalNumber::E7, port.offset),
    }
}

fn is_input(sort: Option<&NameSort>) -> bool
    ensures { result ≡ is_input (option_copied sort.entry) }
{
    match sort {
        Some(NameSort::Input) => true,
        _ => false,
    }
}

fn is_output(sort: Option<&NameSort>) -> bool
    ensures { result ≡ is_output (option_copied sort.entry) }
{
    match sort {
        Some(NameSort::Output) => true,
        _ => false,
    }
}

/// Whether both ends of a link are known and have the right directions.
pub fn has_ends(interior: &Interior, link: &Link) -> bool
    ensures { result ≡ has_ends (interior_by interior.now) link.now }
{
    is_source(interior, &link.from) && is_target(interior, &link.to)
}

fn is_source(interior: &Interior, end: &End) -> bool
    ensures { result ≡ is_source (interior_by interior.now) end.now.part end.now.port.number }
{
    match end.part {
        None => is_input(interior.ports.get(end.port.number)),
        Some(name) => match interior.parts.get(name.number) {
            None => false,
            Some(part) => is_output_of_part(interior, part, end.port.number),
        },
    }
}

#[tactic(auto, unfolding(crate::specs::Models::faces_by))]
fn is_output_of_part(interior: &Interior, part: &Part, port: u32) -> bool
    ensures { result ≡ is_output_shown
        (faces_by interior.now.faces.now part.now.model.number) port }
{
    match interior.faces.get(part.model.number) {
        None => false,
        Some(face) => is_output(face.get(port)),
    }
}

fn is_target(interior: &Interior, end: &End) -> bool
    ensures { result ≡ is_target (interior_by interior.now) end.now.part end.now.port.number }
{
    match end.part {
        None => is_output(interior.ports.get(end.port.number)),
        Some(name) => match interior.parts.get(name.number) {
            None => false,
            Some(part) => is_input_of_part(interior, part, end.port.number),
        },
    }
}

#[tactic(auto, unfolding(crate::specs::Models::faces_by))]
fn is_input_of_part(interior: &Interior, part: &Part, port: u32) -> bool
    ensures { result ≡ is_input_shown
        (faces_by interior.now.faces.now part.now.model.number) port }
{
    match interior.faces.get(part.model.number) {
        None => false,
        Some(face) => is_input(face.get(port)),
    }
}
