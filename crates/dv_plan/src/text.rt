//! The text of a plan: JSON in compact form, with sorted keys.

ghost use Rattle.std.specs.Prelude.{◌≡◌, ◌++◌, map, string_bytes, IfOk, OnOk};
ghost use Rattle.std.specs.Fmt.{decimal};
ghost use Rattle.dv_bag.specs.Responses.{ticks_of};
ghost use Rattle.dv_share.specs.Links.{link_of, links_of};
ghost use Rattle.dv_plan.specs.Texts.{PlanNames, back, front, link_text, links_text, members_text, paths_text, plan_links, plan_text};
ghost use Rattle.dv_plan.specs.Texts.{port_text, process_text, processes_text, quoted, response_of, response_text, source_text, target_text};

use crate::links::Links;
use dv_bag::Response;
use dv_partition::Groups;
use dv_share::Link;
use serde_json::Value;
use std::alloc::{AllocError, Global};

/// The names that a plan prints. The name of something that does not exist is empty.
pub trait Names {
    /// How many components there are, and the names.
    ghost names: { Self → PlanNames };

    /// How many components there are.
    fn components(&self) -> u32
        ensures { result ≡ (names self.now).components };

    /// The path of a component.
    ///
    /// # Errors
    ///
    /// No memory for its text.
    fn path(&self, alloc: Global, component: u32) -> Result<String, AllocError>
        ensures { IfOk result (λ text. string_bytes text ≡ (names self.now).path component) };

    /// The name of an input port of a component.
    fn input(&self, component: u32, port: u32) -> &str
        ensures { result.now ≡ (names self.now).input component port };

    /// The name of an output port of a component.
    fn output(&self, component: u32, port: u32) -> &str
        ensures { result.now ≡ (names self.now).output component port };

    /// The name of an input port of the root.
    fn root_input(&self, port: u32) -> &str
        ensures { result.now ≡ (names self.now).root_input port };

    /// The name of an output port of the root.
    fn root_output(&self, port: u32) -> &str
        ensures { result.now ≡ (names self.now).root_output port };
}

/// A plan as one JSON object: its components by their paths, its links, and of each process its
/// components and its response. The text is made value by value, so that only one path at a time is
/// held beside it.
///
/// # Errors
///
/// No memory for the text.
pub fn plan_json<N: Names>(
    alloc: Global,
    names: &N,
    links: &Links,
    groups: &Groups,
    responses: &[Response],
) -> Result<String, AllocError>
    ensures { IfOk result (λ text. string_bytes text ≡ plan_text (N.names names.now)
        (plan_links links.now) groups.now (map ticks_of responses.now)) }
{
    let mut text = String::new(alloc);
    text.push_str("{\"components\":")?;
    push_paths(alloc, &mut text, names)?;
    text.push_str(",\"entries\":")?;
    push_links(
        alloc,
        &mut text,
        names,
        &links.entrances,
        Owner::Root,
        Owner::Component,
    )?;
    text.push_str(",\"exits\":")?;
    push_links(
        alloc,
        &mut text,
        names,
        &links.exits,
        Owner::Component,
        Owner::Root,
    )?;
    text.push_str(",\"links\":")?;
    push_links(
        alloc,
        &mut text,
        names,
        &links.direct,
        Owner::Component,
        Owner::Component,
    )?;
    text.push_str(",\"processes\":")?;
    push_processes(alloc, &mut text, names, groups, responses)?;
    text.push_str("}")?;
    Ok(text)
}

// Puts what comes before the value at an index of a list: the bracket or a comma.
fn push_front(text: &mut String, index: usize) -> Result<(), AllocError>
    ensures { OnOk result (string_bytes text.new ≡ string_bytes text.old ++ front index) }
{
    text.push_str(if index == 0 { "[" } else { "," })
}

// Puts the end of a list of `count` values.
fn push_back(text: &mut String, count: usize) -> Result<(), AllocError>
    ensures { OnOk result (string_bytes text.new ≡ string_bytes text.old ++ back count) }
{
    text.push_str(if count == 0 { "[]" } else { "]" })
}

// Puts a text in quotes.
#[tactic(auto, unfolding(crate::specs::Texts::quoted))]
fn push_quoted(alloc: Global, text: &mut String, inside: &str) -> Result<(), AllocError>
    ensures { OnOk result (string_bytes text.new ≡ string_bytes text.old ++ quoted inside.now) }
{
    let value = Value::try_from_str(alloc, inside)?;
    text.push_str(value.to_string(alloc)?.as_str())
}

fn push_paths<N: Names>(alloc: Global, text: &mut String, names: &N) -> Result<(), AllocError>
    ensures { OnOk result (string_bytes text.new ≡ string_bytes text.old
        ++ paths_text (N.names names.now) 0 (N.names names.now).components) }
{
    let count = names.components();
    for component in 0..count {
        push_front(text, component as usize)?;
        push_path(alloc, text, names, component)?;
    }
    push_back(text, count as usize)
}

fn push_path<N: Names>(
    alloc: Global,
    text: &mut String,
    names: &N,
    component: u32,
) -> Result<(), AllocError>
    ensures { OnOk result (string_bytes text.new ≡ string_bytes text.old
        ++ quoted ((N.names names.now).path component)) }
{
    let path = names.path(alloc, component)?;
    push_quoted(alloc, text, path.as_str())
}

// The owner of the port at an end of a link.
#[derive(Clone, Copy)]
enum Owner {
    Root,
    Component,
}

fn push_links<N: Names>(
    alloc: Global,
    text: &mut String,
    names: &N,
    links: &[Link],
    source: Owner,
    target: Owner,
) -> Result<(), AllocError>
    ensures { OnOk result (string_bytes text.new ≡ string_bytes text.old
        ++ links_text (N.names names.now) source target 0 (links_of links.now)) }
{
    for (index, link) in links.iter().enumerate() {
        push_front(text, index)?;
        let from = source_text(alloc, names, source, link)?;
        let to = target_text(alloc, names, target, link)?;
        push_link(alloc, text, from.as_str(), to.as_str(), link.copies)?;
    }
    push_back(text, links.len())
}

fn push_link(
    alloc: Global,
    text: &mut String,
    from: &str,
    to: &str,
    copies: u64,
) -> Result<(), AllocError>
    ensures { OnOk result (string_bytes text.new ≡ string_bytes text.old
        ++ link_text from.now to.now copies) }
{
    text.push_str("{\"copies\":")?;
    push_number(text, copies)?;
    text.push_str(",\"from\":")?;
    push_quoted(alloc, text, from)?;
    text.push_str(",\"to\":")?;
    push_quoted(alloc, text, to)?;
    text.push_str("}")
}

fn push_number(text: &mut String, number: u64) -> Result<(), AllocError>
    ensures { OnOk result (string_bytes text.new ≡ string_bytes text.old ++ decimal number) }
{
    write!(text, "{number}")
}

fn push_processes<N: Names>(
    alloc: Global,
    text: &mut String,
    names: &N,
    groups: &Groups,
    responses: &[Response],
) -> Result<(), AllocError>
    ensures { OnOk result (string_bytes text.new ≡ string_bytes text.old
        ++ processes_text (N.names names.now) groups.now (map ticks_of responses.now)
        0 groups.now.processes) }
{
    for process in 0..groups.processes() {
        push_front(text, process)?;
        let ticks = known(responses, process);
        push_process(alloc, text, names, groups.members(process), ticks)?;
    }
    push_back(text, groups.processes())
}

fn push_process<N: Names>(
    alloc: Global,
    text: &mut String,
    names: &N,
    members: &[u32],
    ticks: Option<u64>,
) -> Result<(), AllocError>
    ensures { OnOk result (string_bytes text.new ≡ string_bytes text.old
        ++ process_text (N.names names.now) members.now ticks) }
{
    text.push_str("{\"components\":")?;
    push_members(alloc, text, names, members)?;
    text.push_str(",\"response\":")?;
    push_response(text, ticks)?;
    text.push_str("}")?;
    Ok(())
}

fn push_members<N: Names>(
    alloc: Global,
    text: &mut String,
    names: &N,
    members: &[u32],
) -> Result<(), AllocError>
    ensures { OnOk result (string_bytes text.new ≡ string_bytes text.old
        ++ members_text (N.names names.now) 0 members.now) }
{
    for (index, member) in members.iter().enumerate() {
        push_front(text, index)?;
        push_path(alloc, text, names, *member)?;
    }
    push_back(text, members.len())
}

fn push_response(text: &mut String, ticks: Option<u64>) -> Result<(), AllocError>
    ensures { OnOk result (string_bytes text.new ≡ string_bytes text.old
        ++ response_text ticks) }
{
    match ticks {
        Some(ticks) => push_number(text, ticks),
        None => text.push_str("null"),
    }
}

// The response of a process in ticks, if there is one and it is not never.
fn known(responses: &[Response], process: usize) -> Option<u64>
    ensures { result ≡ response_of (map ticks_of responses.now) process }
{
    if process >= responses.len() {
        return None;
    }
    match responses[process] {
        Response::Ticks(ticks) => Some(ticks),
        Response::Never => None,
    }
}

// The port from which a link leads: an input of the root, or the output of a component, with its
// path.
fn source_text<N: Names>(
    alloc: Global,
    names: &N,
    owner: Owner,
    link: &Link,
) -> Result<String, AllocError>
    ensures { IfOk result (λ text. string_bytes text
        ≡ source_text (N.names names.now) owner (link_of link.now)) }
{
    match owner {
        Owner::Root => String::from_str(alloc, names.root_input(link.from_port)),
        Owner::Component => port_text(
            alloc,
            names,
            link.from,
            names.output(link.from, link.from_port),
        ),
    }
}

// The port to which a link leads: an output of the root, or the input of a component, with its
// path.
fn target_text<N: Names>(
    alloc: Global,
    names: &N,
    owner: Owner,
    link: &Link,
) -> Result<String, AllocError>
    ensures { IfOk result (λ text. string_bytes text
        ≡ target_text (N.names names.now) owner (link_of link.now)) }
{
    match owner {
        Owner::Root => String::from_str(alloc, names.root_output(link.to_port)),
        Owner::Component => port_text(alloc, names, link.to, names.input(link.to, link.to_port)),
    }
}

fn port_text<N: Names>(
    alloc: Global,
    names: &N,
    component: u32,
    port: &str,
) -> Result<String, AllocError>
    ensures { IfOk result (λ text. string_bytes text
        ≡ port_text (N.names names.now) component port.now) }
{
    let path = names.path(alloc, component)?;
    format!(in alloc; "{path}.{port}")
}
