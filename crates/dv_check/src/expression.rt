//! The types of expressions.

ghost use Rattle.std.specs.Prelude.{◌≡◌, ◌&&◌, not};
ghost use Rattle.dv_lex.specs.declared.error.RefusalNumber.TheVariants.{E9};
ghost use Rattle.dv_syntax.specs.Trees.{expression_of};
ghost use Rattle.dv_check.specs.Findings.{with_refusals};
ghost use Rattle.dv_check.specs.Rules.{known_at};
ghost use Rattle.dv_check.specs.Names.{refusal_if};
ghost use Rattle.dv_check.specs.Types.{alike, both_of, differ, held_name_refusals, is_of, is_readable, knows_elapsed, operands_wanted};
ghost use Rattle.dv_check.specs.Types.{port_refusals, sees_inputs, suits_port, type_if, expression_refusals, first_offset};
ghost use Rattle.dv_check.specs.Types.{operand_refusals, offset_refusals, type_by, type_of, type_of_name, type_of_prefix};
ghost use Rattle.dv_check.specs.Types.{type_refusals, value_name_refusals, value_refusals};

use crate::declarations::NameSort;
use crate::environment::Environment;
use crate::findings::Findings;
use crate::wanted::Wanted;
use dv_bag::ValueType;
use dv_lex::RefusalNumber;
use dv_syntax::{Expr, Name, OperatorClass, Prefix, RuleSort};

/// The type of an expression, if it is not refused, and the offset of its first token.
#[derive(Clone, Copy)]
pub struct Typed {
    /// The type: none if the expression is refused.
    pub value_type: Option<ValueType>,
    /// The offset of the first token, in bytes of the text.
    pub offset: u32,
}

/// Tests an expression that must have a given type.
pub fn check_offset(
    wanted: ValueType,
    environment: &Environment,
    expression: &Expr,
    found: &mut Findings,
)
    ensures { found.new ≡ with_refusals found.old (offset_refusals wanted
        (known_at environment.now) (expression_of expression.now)) }
{
    let given = check_expression(environment, expression, found);
    want(wanted, given, found);
}

/// Tests an expression that must have a given type, or may have any.
pub fn check_value(
    wanted: Option<ValueType>,
    environment: &Environment,
    expression: &Expr,
    found: &mut Findings,
)
    ensures { found.new ≡ with_refusals found.old (value_refusals wanted
        (known_at environment.now) (expression_of expression.now)) }
{
    match wanted {
        Some(wanted) => check_offset(wanted, environment, expression, found),
        None => {
            check_expression(environment, expression, found);
        }
    }
}

fn check_expression(environment: &Environment, expression: &Expr, found: &mut Findings) -> Typed
    ensures value_type { result.value_type ≡ type_of (known_at environment.now)
        (expression_of expression.now) }
    ensures offset { result.offset ≡ first_offset (expression_of expression.now) }
    ensures found { found.new ≡ with_refusals found.old (expression_refusals
        (known_at environment.now) (expression_of expression.now)) }
{
    match expression {
        Expr::Literal(number) => Typed {
            value_type: Some(ValueType::Number),
            offset: number.offset,
        },
        Expr::TruthValue { offset, .. } => Typed {
            value_type: Some(ValueType::Truth),
            offset: *offset,
        },
        Expr::Named(name) => Typed {
            value_type: check_value_name(environment, name, found),
            offset: name.offset,
        },
        Expr::Parens { offset, inner } => {
            let given = check_expression(environment, inner, found);
            Typed {
                value_type: given.value_type,
                offset: *offset,
            }
        }
        Expr::Prefixed {
            operator,
            offset,
            operand,
        } => {
            let given = check_expression(environment, operand, found);
            let wanted = type_of_prefix(*operator);
            want(wanted, given, found);
            Typed {
                value_type: type_if(is_of(wanted, given.value_type), wanted),
                offset: *offset,
            }
        }
        Expr::Binary {
            operator,
            left,
            right,
        } => {
            let a = check_expression(environment, left, found);
            let b = check_expression(environment, right, found);
            Typed {
                value_type: check_operands(operator.class(), a, b, found),
                offset: a.offset,
            }
        }
        Expr::Call { call, offset, bag } => {
            let is_readable = check_held(Wanted::by(*call), environment, bag, found);
            Typed {
                value_type: type_if(is_readable, ValueType::Number),
                offset: *offset,
            }
        }
        Expr::Elapsed { offset } => Typed {
            value_type: type_if(
                check_elapsed(environment, *offset, found),
                ValueType::Number,
            ),
            offset: *offset,
        },
        Expr::Times { offset, value, bag } => {
            let given = check_expression(environment, value, found);
            want(ValueType::Number, given, found);
            let is_bag = check_held(Wanted::Bag, environment, bag, found);
            let is_number = is_of(ValueType::Number, given.value_type);
            Typed {
                value_type: type_if(is_number && is_bag, ValueType::Number),
                offset: *offset,
            }
        }
    }
}

/// The type of the values that a name denotes, if it has one.
pub fn type_of_name(sort: Option<NameSort>) -> Option<ValueType>
    ensures { result ≡ type_of_name sort }
{
    match sort {
        Some(NameSort::Variable | NameSort::LoopVariable) => Some(ValueType::Number),
        Some(NameSort::Flag) => Some(ValueType::Truth),
        Some(NameSort::Held(_) | NameSort::Input | NameSort::Output) | None => None,
    }
}

// The type of the operand and of the result of a prefix operator.
fn type_of_prefix(operator: Prefix) -> ValueType
    ensures { result ≡ type_of_prefix operator }
{
    match operator {
        Prefix::Minus => ValueType::Number,
        Prefix::Not => ValueType::Truth,
    }
}

// A name where a value is wanted: it must be a variable, a flag or a loop variable.
fn check_value_name(
    environment: &Environment,
    name: &Name,
    found: &mut Findings,
) -> Option<ValueType>
    ensures value_type { result ≡ type_of_name ((known_at environment.now).sort name.now.number) }
    ensures found { found.new ≡ with_refusals found.old
        (value_name_refusals ((known_at environment.now).sort name.now.number) name.now.offset) }
{
    let sort = environment.sort(name.number);
    match sort {
        Some(NameSort::Variable | NameSort::Flag | NameSort::LoopVariable) => {}
        Some(NameSort::Held(_) | NameSort::Input | NameSort::Output) => {
            found.note(RefusalNumber::E8, name.offset);
        }
        None => found.note(RefusalNumber::E7, name.offset),
    }
    type_of_name(sort)
}

// Tests that `elapsed` is known, and returns whether it is.
fn check_elapsed(environment: &Environment, offset: u32, found: &mut Findings) -> bool
    ensures known { result ≡ knows_elapsed (known_at environment.now).rule }
    ensures found { found.new ≡ with_refusals found.old
        (refusal_if (not (knows_elapsed (known_at environment.now).rule)) E9 offset) }
{
    let knows_elapsed = environment.rule() == Some(RuleSort::External);
    if !knows_elapsed {
        found.note(RefusalNumber::E9, offset);
    }
    knows_elapsed
}

// Tests that the values at an input port can be read, and returns whether they can.
fn check_input(environment: &Environment, port: &Name, found: &mut Findings) -> bool
    ensures seen { result ≡ sees_inputs (known_at environment.now).rule }
    ensures found { found.new ≡ with_refusals found.old
        (refusal_if (not (sees_inputs (known_at environment.now).rule)) E9 port.now.offset) }
{
    let sees_inputs = sees_inputs(environment.rule());
    if !sees_inputs {
        found.note(RefusalNumber::E9, port.offset);
    }
    sees_inputs
}

// Whether the values at input ports can be read.
fn sees_inputs(rule: Option<RuleSort>) -> bool
    ensures { result ≡ sees_inputs rule }
{
    match rule {
        Some(RuleSort::External | RuleSort::Confluent) => true,
        Some(RuleSort::Internal) => false,
        Some(RuleSort::Output) | None => false,
    }
}

// Tests an input port where a collection is wanted, and returns whether it can be read.
fn check_port(wanted: Wanted, environment: &Environment, port: &Name, found: &mut Findings) -> bool
    ensures readable { result ≡ (suits_port wanted && sees_inputs (known_at environment.now).rule) }
    ensures found { found.new ≡ with_refusals found.old
        (port_refusals wanted (known_at environment.now).rule port.now.offset) }
{
    if wanted.suits_port() {
        check_input(environment, port, found)
    } else {
        found.note(RefusalNumber::E8, port.offset);
        false
    }
}

/// Tests a name where a collection is wanted, and returns whether it can be read.
pub fn check_held(
    wanted: Wanted,
    environment: &Environment,
    name: &Name,
    found: &mut Findings,
) -> bool
    ensures readable { result ≡ is_readable wanted (known_at environment.now).rule
        ((known_at environment.now).sort name.now.number) }
    ensures found { found.new ≡ with_refusals found.old
        (held_name_refusals wanted (known_at environment.now).rule
        ((known_at environment.now).sort name.now.number) name.now.offset) }
{
    match environment.sort(name.number) {
        None => {
            found.note(RefusalNumber::E7, name.offset);
            false
        }
        Some(NameSort::Held(discipline)) => {
            let suits = wanted.suits(discipline);
            if !suits {
                found.note(RefusalNumber::E8, name.offset);
            }
            suits
        }
        Some(NameSort::Input) => check_port(wanted, environment, name, found),
        Some(NameSort::Variable | NameSort::Flag | NameSort::Output | NameSort::LoopVariable) => {
            found.note(RefusalNumber::E8, name.offset);
            false
        }
    }
}

// The type of the result of an operator, if its operands have the right types.
fn check_operands(
    class: OperatorClass,
    a: Typed,
    b: Typed,
    found: &mut Findings,
) -> Option<ValueType>
    ensures value_type { result ≡ type_by class a.value_type b.value_type }
    ensures found { found.new ≡ with_refusals found.old
        (operand_refusals class a.value_type a.offset b.value_type b.offset) }
{
    match class {
        OperatorClass::Logic => {
            want_both(ValueType::Truth, a, b, found);
            type_if(both_of(ValueType::Truth, a, b), ValueType::Truth)
        }
        OperatorClass::Equality => {
            if differ(a.value_type, b.value_type) {
                found.note(RefusalNumber::E8, b.offset);
            }
            type_if(alike(a.value_type, b.value_type), ValueType::Truth)
        }
        OperatorClass::Order => {
            want_both(ValueType::Number, a, b, found);
            type_if(both_of(ValueType::Number, a, b), ValueType::Truth)
        }
        OperatorClass::Arithmetic => {
            want_both(ValueType::Number, a, b, found);
            type_if(both_of(ValueType::Number, a, b), ValueType::Number)
        }
    }
}

fn want_both(wanted: ValueType, a: Typed, b: Typed, found: &mut Findings)
    ensures { found.new ≡ with_refusals found.old
        (operands_wanted wanted a.value_type a.offset b.value_type b.offset) }
{
    want(wanted, a, found);
    want(wanted, b, found);
}

// Notes an expression of another type than is wanted.
fn want(wanted: ValueType, given: Typed, found: &mut Findings)
    ensures { found.new ≡ with_refusals found.old
        (type_refusals wanted given.value_type given.offset) }
{
    if let Some(value_type) = given.value_type {
        if value_type != wanted {
            found.note(RefusalNumber::E8, given.offset);
        }
    }
}

fn is_of(wanted: ValueType, given: Option<ValueType>) -> bool
    ensures { result ≡ is_of wanted given }
{
    given == Some(wanted)
}

fn both_of(wanted: ValueType, a: Typed, b: Typed) -> bool
    ensures { result ≡ both_of wanted a.value_type b.value_type }
{
    is_of(wanted, a.value_type) && is_of(wanted, b.value_type)
}

fn alike(a: Option<ValueType>, b: Option<ValueType>) -> bool
    ensures { result ≡ alike a b }
{
    match a {
        Some(value_type) => is_of(value_type, b),
        None => false,
    }
}

fn differ(a: Option<ValueType>, b: Option<ValueType>) -> bool
    ensures { result ≡ differ a b }
{
    match (a, b) {
        (Some(a), Some(b)) => a != b,
        _ => false,
    }
}

fn type_if(holds: bool, value_type: ValueType) -> Option<ValueType>
    ensures { result ≡ type_if holds value_type }
{
    if holds { Some(value_type) } else { None }
}
