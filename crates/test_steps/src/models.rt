//! Random models, as text.

use crate::random::Source;
use std::alloc::{AllocError, Global};
use std::fmt;
use std::fmt::Write;

/// The rules that a phase may have.
#[derive(Clone, Copy)]
enum Rule {
    Output,
    Internal,
    External,
    Confluent,
}

/// An input port or an output port: each component has two of both.
#[derive(Clone, Copy)]
enum Port {
    First,
    Second,
}

/// When a phase ends by itself.
#[derive(Drop)]
enum Hold {
    Forever,
    Ticks(u32),
    /// After as many ticks as the variable says.
    Variable,
}

/// A value of one digit, as the variable's.
#[derive(Drop)]
enum Value {
    Digit(u32),
    Variable,
    /// One above the variable's; after 9 comes 0.
    Next,
    /// How many values have come.
    Arrived(Port),
    /// Their sum.
    Total(Port),
    /// The ticks since the last transition.
    Elapsed,
    /// How many values the queue has.
    Waiting,
}

/// A statement of a rule. Phases have numbers.
#[derive(Drop)]
enum Statement {
    Send(Port, Value),
    /// Each value of the queue is sent.
    SendQueue(Port),
    /// A value comes into the queue, where there is room.
    Push(Value),
    /// The first value goes from the queue, which is a fault where there is none.
    Pop,
    Goto(u32),
    /// A `goto` where the variable is above a digit.
    GotoAbove(u32, u32),
    Set(Value),
    /// The variable is raised, which is a fault at 9.
    Raise,
}

impl fmt::Display for Rule {
    fn fmt<W: fmt::Write>(&self, f: &mut fmt::Formatter<W>) -> fmt::Result {
        f.write_str(match self {
            Rule::Output => "output",
            Rule::Internal => "internal",
            Rule::External => "external",
            Rule::Confluent => "confluent",
        })
    }
}

impl fmt::Display for Hold {
    fn fmt<W: fmt::Write>(&self, f: &mut fmt::Formatter<W>) -> fmt::Result {
        match self {
            Hold::Forever => f.write_str("forever"),
            Hold::Ticks(ticks) => write!(f, "{ticks}"),
            Hold::Variable => f.write_str("v"),
        }
    }
}

impl Port {
    /// Its name as an input port.
    fn input(self) -> &'static str {
        match self {
            Port::First => "x",
            Port::Second => "w",
        }
    }

    /// Its name as an output port.
    fn output(self) -> &'static str {
        match self {
            Port::First => "y",
            Port::Second => "u",
        }
    }
}

impl fmt::Display for Value {
    fn fmt<W: fmt::Write>(&self, f: &mut fmt::Formatter<W>) -> fmt::Result {
        match self {
            Value::Digit(digit) => write!(f, "{digit}"),
            Value::Variable => f.write_str("v"),
            Value::Next => f.write_str("(v + 1) % 10"),
            Value::Arrived(port) => write!(f, "size({}) % 10", port.input()),
            Value::Total(port) => write!(f, "sum({}) % 10", port.input()),
            Value::Elapsed => f.write_str("elapsed % 10"),
            Value::Waiting => f.write_str("size(q)"),
        }
    }
}

impl fmt::Display for Statement {
    fn fmt<W: fmt::Write>(&self, f: &mut fmt::Formatter<W>) -> fmt::Result {
        match self {
            Statement::Send(port, value) => write!(f, "send {} {value};", port.output()),
            Statement::SendQueue(port) => {
                write!(f, "for one in q {{ send {} one; }}", port.output())
            }
            Statement::Push(value) => write!(f, "if size(q) < 4 {{ push {value} to q; }}"),
            Statement::Pop => f.write_str("pop q;"),
            Statement::Goto(phase) => write!(f, "goto p{phase};"),
            Statement::GotoAbove(digit, phase) => {
                write!(f, "if v > {digit} {{ goto p{phase}; }}")
            }
            Statement::Set(value) => write!(f, "v := {value};"),
            Statement::Raise => f.write_str("v := v + 1;"),
        }
    }
}

/// A random model: two to six components, each of an atomic model of its own, with links between
/// them and to outside.
pub fn model_text(alloc: Global, source: &mut Source) -> Result<String, AllocError> {
    let components = source.below(5).saturating_add(2);
    let mut text = String::from_str(alloc, "version 2;\n")?;
    for component in 0..components {
        push_atomic(&mut text, source, component)?;
    }
    push_coupled(&mut text, source, components)?;
    text.push_str("root Top;\n")?;
    Ok(text)
}

/// An atomic model of one variable, one queue and one to four phases.
fn push_atomic(text: &mut String, source: &mut Source, number: u32) -> Result<(), AllocError> {
    let phases = source.below(4).saturating_add(1);
    write!(text, "atomic A{number} {{ in x; in w; out y; out u; ")?;
    write!(text, "var v: 0..9 = {}; queue q 4; ", source.below(10))?;
    write!(text, "start p{}; phases p0", source.below(phases))?;
    for phase in 1..phases {
        write!(text, ", p{phase}")?;
    }
    text.push_str("; ")?;
    push_phases(text, source, phases)?;
    text.push_str("}\n")
}

fn push_phases(text: &mut String, source: &mut Source, phases: u32) -> Result<(), AllocError> {
    for phase in 0..phases {
        write!(text, "hold p{phase}: {}; ", random_hold(source))?;
        push_rules(text, source, phase, phases)?;
    }
    Ok(())
}

/// The rules of a phase. Few phases have a confluent one.
fn push_rules(
    text: &mut String,
    source: &mut Source,
    phase: u32,
    phases: u32,
) -> Result<(), AllocError> {
    for rule in [Rule::Output, Rule::Internal, Rule::External] {
        push_rule(text, source, rule, phase, phases)?;
    }
    if source.is_one_in(3) {
        push_rule(text, source, Rule::Confluent, phase, phases)?;
    }
    Ok(())
}

/// A rule of one to three statements.
fn push_rule(
    text: &mut String,
    source: &mut Source,
    rule: Rule,
    phase: u32,
    phases: u32,
) -> Result<(), AllocError> {
    write!(text, "{rule} p{phase} {{ ")?;
    for _statement in 0..source.below(3).saturating_add(1) {
        write!(text, "{} ", random_statement(source, rule, phases))?;
    }
    text.push_str("} ")
}

/// A hold, which is finite in most phases.
fn random_hold(source: &mut Source) -> Hold {
    match source.below(8) {
        0 => Hold::Forever,
        1 => Hold::Variable,
        _ => Hold::Ticks(source.below(6)),
    }
}

/// A statement that may stand in a rule.
fn random_statement(source: &mut Source, rule: Rule, phases: u32) -> Statement {
    let value = random_value(source, rule);
    match rule {
        Rule::Output if source.is_one_in(4) => Statement::SendQueue(random_port(source)),
        Rule::Output => Statement::Send(random_port(source), value),
        Rule::Internal | Rule::External | Rule::Confluent => change(source, value, phases),
    }
}

/// A statement that changes the state; it is seldom one that may have a fault.
fn change(source: &mut Source, value: Value, phases: u32) -> Statement {
    match source.below(18) {
        0..=4 => Statement::Goto(source.below(phases)),
        5..=7 => Statement::GotoAbove(source.below(10), source.below(phases)),
        8..=11 => Statement::Set(value),
        12..=15 => Statement::Push(value),
        16 => Statement::Pop,
        _ => Statement::Raise,
    }
}

/// A value that may be read in a rule.
fn random_value(source: &mut Source, rule: Rule) -> Value {
    match rule {
        Rule::Output | Rule::Internal => own_value(source),
        Rule::External if source.is_one_in(4) => Value::Elapsed,
        Rule::External | Rule::Confluent => value_of_arrivals(source),
    }
}

fn own_value(source: &mut Source) -> Value {
    match source.below(4) {
        0 => Value::Digit(source.below(10)),
        1 => Value::Variable,
        2 => Value::Waiting,
        _ => Value::Next,
    }
}

fn value_of_arrivals(source: &mut Source) -> Value {
    match source.below(3) {
        0 => Value::Arrived(random_port(source)),
        1 => Value::Total(random_port(source)),
        _ => own_value(source),
    }
}

fn random_port(source: &mut Source) -> Port {
    if source.is_one_in(2) {
        Port::First
    } else {
        Port::Second
    }
}

/// The root: a part for each component, and the links.
fn push_coupled(text: &mut String, source: &mut Source, parts: u32) -> Result<(), AllocError> {
    text.push_str("coupled Top { out o; ")?;
    for part in 0..parts {
        write!(text, "part c{part}: A{part}; ")?;
    }
    for part in 0..parts {
        push_links(text, source, part, parts)?;
    }
    text.push_str("}\n")
}

/// The links from a part: to some others, and maybe to outside.
fn push_links(
    text: &mut String,
    source: &mut Source,
    part: u32,
    parts: u32,
) -> Result<(), AllocError> {
    if source.is_one_in(2) {
        write!(
            text,
            "link c{part}.{} -> self.o; ",
            random_port(source).output()
        )?;
    }
    for other in 0..parts {
        if other != part && source.is_one_in(3) {
            push_link(text, source, part, other)?;
        }
    }
    Ok(())
}

/// A link between two parts, or one from each of two ports to the same one.
fn push_link(
    text: &mut String,
    source: &mut Source,
    part: u32,
    other: u32,
) -> Result<(), AllocError> {
    let input = random_port(source).input();
    if source.is_one_in(4) {
        write!(text, "link c{part}.y -> c{other}.{input}; ")?;
        write!(text, "link c{part}.u -> c{other}.{input}; ")
    } else {
        let output = random_port(source).output();
        write!(text, "link c{part}.{output} -> c{other}.{input}; ")
    }
}
