//! The inputs that lead to the components of a process.

ghost use Rattle.std.specs.Prelude.{◌≡◌, ◌&&◌, ◌||◌, ℕ, false, length, nat_eq, nat_le, nat_lt, slice_index_or, IfOk};
ghost use Rattle.dv_share.specs.Links.{link_of, links_of};
ghost use Rattle.dv_share.specs.Indices.{AreRising};
ghost use Rattle.dv_share.specs.Share.{numbers_of};
ghost use Rattle.dv_plan.specs.Steps.{is_led, is_port, leads, led_inputs};

use dv_bag::{Input, Inputs};
use dv_share::tables::index_of;
use dv_share::{Link, Member};
use std::alloc::{AllocError, Global};

/// The inputs that come to one of the components by one of the links from outside. An input whose
/// microstep is above the limit never comes.
///
/// # Errors
///
/// No memory for them.
pub(crate) fn led_inputs(
    alloc: Global,
    limit: u32,
    ports: u32,
    members: &[Member],
    entrances: &[Link],
    inputs: &Inputs,
) -> Result<Inputs, AllocError>
    requires { AreRising (numbers_of members.now) }
    ensures { IfOk result (λ kept.
        kept ≡ led_inputs limit ports members.now (links_of entrances.now) inputs.now) }
{
    let led = led_ports(alloc, ports, members, entrances)?;
    let mut kept = Inputs::new(alloc);
    for input in inputs.as_slice() {
        if is_to_come(*input, limit, &led) {
            kept.push(*input)?;
        }
    }
    Ok(kept)
}

// For each input port of the model, whether a link leads from it to one of the components.
fn led_ports(
    alloc: Global,
    ports: u32,
    members: &[Member],
    entrances: &[Link],
) -> Result<Vec<bool>, AllocError>
    requires { AreRising (numbers_of members.now) }
    ensures { IfOk result (λ led. (port : ℕ) → slice_index_or led.items port false
        ≡ (nat_lt port ports && is_led members.now (links_of entrances.now) port)) }
{
    let mut led = vec![in alloc; false; ports as usize]?;
    for link in entrances {
        if leads(link, members) {
            mark(link.from_port, &mut led);
        }
    }
    Ok(led)
}

// Marks a port, if there is one with this number.
fn mark(port: u32, led: &mut Vec<bool>)
    ensures long { length led.new.items ≡ length led.old.items }
    ensures marked { (p : ℕ) → slice_index_or led.new.items p false
        ≡ ((nat_eq port p && nat_lt p (length led.old.items))
        || slice_index_or led.old.items p false) }
{
    let index = port as usize;
    if index < led.len() {
        led[index] = true;
    }
}

// Whether an input comes in a run, through a marked port.
fn is_to_come(input: Input, limit: u32, led: &[bool]) -> bool
    ensures { result
        ≡ (nat_le input.time.micro limit && slice_index_or led.now input.port false) }
{
    input.time.micro <= limit && at(led, input.port)
}

// Whether a port is marked.
fn at(led: &[bool], port: u32) -> bool
    ensures { result ≡ slice_index_or led.now port false }
{
    let index = port as usize;
    index < led.len() && led[index]
}

// Whether a link leads values to one of the components.
fn leads(link: &Link, members: &[Member]) -> bool
    requires { AreRising (numbers_of members.now) }
    ensures { result ≡ leads members.now (link_of link.now) }
{
    link.copies > 0 && is_port(members, link.to, link.to_port)
}

// Whether one of the components has this number and this input port.
fn is_port(members: &[Member], component: u32, port: u32) -> bool
    requires { AreRising (numbers_of members.now) }
    ensures { result ≡ is_port members.now component port }
{
    match index_of(members, component) {
        Some(index) => port < members[index].inputs,
        None => false,
    }
}
