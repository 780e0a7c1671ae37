//! Random rules and holds, as the text of a model. Each text is accepted.

use std::alloc::{AllocError, Global};
use test_samples::Random;

/// What stands before the rules.
const BEFORE: &str = "version 2;
atomic R { in x; out y; var a: -20..50 = 3; var b: 0..9 = 1; flag f = true; bag g 4; queue h 4;
    phases p, q; start p; hold p: forever; ";

/// What stands behind them.
const AFTER: &str = "}\ncoupled Top { part r: R; }\nroot Top;\n";

/// How deep statements lie in one another, at most.
const DEEPEST_BLOCKS: u32 = 3;

/// How deep expressions lie in one another, at most.
const DEEPEST_EXPRESSIONS: u32 = 3;

/// Where an expression or a statement stands.
#[derive(Clone, Copy)]
struct Spot {
    /// Whether it is in an output rule.
    sends: bool,
    /// Whether it may read the input port.
    receives: bool,
    /// Whether it may read the elapsed time.
    waits: bool,
    /// How many loops are around it.
    loops: u32,
}

/// A model with a rule of each sort for each of its phases, and a hold for the second.
pub fn random_model(alloc: Global, random: &mut Random) -> Result<String, AllocError> {
    let mut text = String::from_str(alloc, BEFORE)?;
    let nowhere = Spot {
        sends: false,
        receives: false,
        waits: false,
        loops: 0,
    };
    text.push_str("hold q: ")?;
    push_number(&mut text, random, nowhere, DEEPEST_EXPRESSIONS)?;
    text.push_str("; ")?;
    for phase in ["p", "q"] {
        push_rule(
            &mut text,
            random,
            "output",
            phase,
            Spot {
                sends: true,
                ..nowhere
            },
        )?;
        push_rule(&mut text, random, "internal", phase, nowhere)?;
        push_rule(
            &mut text,
            random,
            "external",
            phase,
            Spot {
                receives: true,
                waits: true,
                ..nowhere
            },
        )?;
        push_rule(
            &mut text,
            random,
            "confluent",
            phase,
            Spot {
                receives: true,
                ..nowhere
            },
        )?;
    }
    text.push_str(AFTER)?;
    Ok(text)
}

fn push_rule(
    text: &mut String,
    random: &mut Random,
    sort: &str,
    phase: &str,
    spot: Spot,
) -> Result<(), AllocError> {
    write!(text, "{sort} {phase} ")?;
    push_block(text, random, spot, DEEPEST_BLOCKS)
}

/// Up to three statements.
#[cycle(statements)]
fn push_block(
    text: &mut String,
    random: &mut Random,
    spot: Spot,
    depth: u32,
) -> Result<(), AllocError> {
    text.push_str("{ ")?;
    for _ in 0..random.below(4) {
        push_statement(text, random, spot, depth)?;
    }
    text.push_str("} ")
}

#[cycle(statements)]
fn push_statement(
    text: &mut String,
    random: &mut Random,
    spot: Spot,
    depth: u32,
) -> Result<(), AllocError> {
    match random.below(8) {
        0 if depth > 0 => push_choice(text, random, spot, depth - 1),
        1 if depth > 0 && spot.loops < 3 => push_loop(text, random, spot, depth - 1),
        _ if spot.sends => push_action(text, random, spot, "send y ", "; "),
        2 => push_flag(text, random, spot),
        3 => push_from(text, random, &["goto p; ", "goto q; "]),
        4 => push_action(text, random, spot, "add ", " to g; "),
        5 => push_action(text, random, spot, "drop ", " from g; "),
        6 => push_action(text, random, spot, "push ", " to h; "),
        7 => push_popping(text, random),
        0 => push_action(text, random, spot, "a := ", "; "),
        _ => push_action(text, random, spot, "b := ", "; "),
    }
}

#[cycle(statements)]
fn push_choice(
    text: &mut String,
    random: &mut Random,
    spot: Spot,
    depth: u32,
) -> Result<(), AllocError> {
    text.push_str("if ")?;
    push_truth(text, random, spot, DEEPEST_EXPRESSIONS)?;
    text.push_str(" ")?;
    push_block(text, random, spot, depth)?;
    if random.below(2) == 0 {
        text.push_str("else ")?;
        push_block(text, random, spot, depth)?;
    }
    Ok(())
}

#[cycle(statements)]
fn push_loop(
    text: &mut String,
    random: &mut Random,
    spot: Spot,
    depth: u32,
) -> Result<(), AllocError> {
    write!(text, "for v{} in ", spot.loops)?;
    if spot.receives && random.below(2) == 0 {
        text.push_str("x ")?;
    } else {
        push_from(text, random, &["g ", "h "])?;
    }
    let inside = Spot {
        loops: spot.loops.saturating_add(1),
        ..spot
    };
    push_block(text, random, inside, depth)
}

/// A statement that takes the first value from the queue, mostly where there is one.
fn push_popping(text: &mut String, random: &mut Random) -> Result<(), AllocError> {
    push_from(text, random, &["if size(h) > 0 { pop h; } ", "pop h; "])
}

/// A statement with a number between these words.
fn push_action(
    text: &mut String,
    random: &mut Random,
    spot: Spot,
    before: &str,
    behind: &str,
) -> Result<(), AllocError> {
    text.push_str(before)?;
    push_number(text, random, spot, DEEPEST_EXPRESSIONS)?;
    text.push_str(behind)
}

fn push_flag(text: &mut String, random: &mut Random, spot: Spot) -> Result<(), AllocError> {
    text.push_str("f := ")?;
    push_truth(text, random, spot, DEEPEST_EXPRESSIONS)?;
    text.push_str("; ")
}

/// One of some words.
fn push_from(text: &mut String, random: &mut Random, words: &[&str]) -> Result<(), AllocError> {
    let count = u32::try_from(words.len()).unwrap_or(1);
    match words.get(random.below(count) as usize) {
        Some(word) => text.push_str(word),
        None => Ok(()),
    }
}

/// An expression that is a number.
fn push_number(
    text: &mut String,
    random: &mut Random,
    spot: Spot,
    depth: u32,
) -> Result<(), AllocError> {
    if depth == 0 {
        return push_number_leaf(text, random, spot);
    }
    match random.below(6) {
        0 => push_number_leaf(text, random, spot),
        1 => {
            text.push_str("-(")?;
            push_number(text, random, spot, depth - 1)?;
            text.push_str(")")
        }
        2 => {
            text.push_str("times(")?;
            push_number(text, random, spot, depth - 1)?;
            text.push_str(", g)")
        }
        _ => {
            text.push_str("(")?;
            push_number(text, random, spot, depth - 1)?;
            push_from(text, random, &[" + ", " - ", " * ", " / ", " % "])?;
            push_number(text, random, spot, depth - 1)?;
            text.push_str(")")
        }
    }
}

fn push_number_leaf(text: &mut String, random: &mut Random, spot: Spot) -> Result<(), AllocError> {
    match random.below(10) {
        0 => text.push_str("a"),
        1 => text.push_str("b"),
        2 => push_from(text, random, &["size(g)", "sum(g)", "least(g)", "most(g)"]),
        3 if spot.receives => {
            push_from(text, random, &["size(x)", "sum(x)", "least(x)", "most(x)"])
        }
        4 if spot.waits => text.push_str("elapsed"),
        5 | 6 if spot.loops > 0 => write!(text, "v{}", random.below(spot.loops)),
        7 => text.push_str("9223372036854775807"),
        8 => push_from(text, random, &["size(h)", "front(h)"]),
        _ => write!(text, "{}", random.below(12)),
    }
}

/// An expression that is a truth value.
fn push_truth(
    text: &mut String,
    random: &mut Random,
    spot: Spot,
    depth: u32,
) -> Result<(), AllocError> {
    if depth == 0 {
        return push_from(text, random, &["f", "true", "false"]);
    }
    text.push_str("(")?;
    match random.below(5) {
        0 => {
            text.push_str("not ")?;
            push_truth(text, random, spot, depth - 1)?;
        }
        1 | 2 => {
            push_truth(text, random, spot, depth - 1)?;
            push_from(text, random, &[" and ", " or ", " = ", " != "])?;
            push_truth(text, random, spot, depth - 1)?;
        }
        _ => {
            push_number(text, random, spot, depth - 1)?;
            push_from(text, random, &[" = ", " != ", " < ", " <= ", " > ", " >= "])?;
            push_number(text, random, spot, depth - 1)?;
        }
    }
    text.push_str(")")
}
