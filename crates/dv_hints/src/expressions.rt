//! The search for what is wrong in the expressions of rules and holds.

use crate::around::Around;
use crate::known::Known;
use crate::reason::{Misplaced, Reason, Search};
use crate::sorts::NameSort;
use crate::taker::Taker;
use crate::wanted::Wanted;
use dv_bag::ValueType;
use dv_lex::RefusalNumber;
use dv_syntax::{Expr, Name, OperatorClass, RuleSort};

/// The type of an expression, if it has one, and the offset of its first token.
#[derive(Clone, Copy)]
struct Typed {
    value_type: Option<ValueType>,
    offset: u32,
}

/// Searches an expression, and checks that its value has the type that `taker` takes.
pub fn look_through_taken(
    known: &Known,
    around: &Around,
    taker: Taker,
    expression: &Expr,
    search: &mut Search,
) {
    let given = look_through(known, around, expression, search);
    take(taker, given, search);
}

/// Searches an expression, and checks that its value has the type of the name to which it is
/// assigned.
pub fn look_through_assigned(
    known: &Known,
    around: &Around,
    variable: Name,
    expression: &Expr,
    search: &mut Search,
) {
    let given = look_through(known, around, expression, search);
    let taker = match known.sort(around, variable.number) {
        Some(NameSort::Flag) => Taker::Flag(variable),
        Some(NameSort::Variable | NameSort::LoopVariable) => Taker::Variable(variable),
        Some(NameSort::Input | NameSort::Output | NameSort::Held(_) | NameSort::Phase) | None => {
            return;
        }
    };
    take(taker, given, search);
}

fn look_through(known: &Known, around: &Around, expression: &Expr, search: &mut Search) -> Typed {
    match expression {
        Expr::Literal(number) => of_type(Some(ValueType::Number), number.offset),
        Expr::TruthValue { offset, .. } => of_type(Some(ValueType::Truth), *offset),
        Expr::Named(name) => of_type(look_at_value(known, around, *name, search), name.offset),
        Expr::Parens { offset, inner } => {
            let given = look_through(known, around, inner, search);
            of_type(given.value_type, *offset)
        }
        Expr::Prefixed {
            operator,
            offset,
            operand,
        } => {
            let given = look_through(known, around, operand, search);
            let taker = Taker::Prefix(*operator);
            of_type(take(taker, given, search), *offset)
        }
        Expr::Binary {
            operator,
            left,
            right,
        } => {
            let a = look_through(known, around, left, search);
            let b = look_through(known, around, right, search);
            of_type(operate(operator.class(), a, b, search), a.offset)
        }
        Expr::Call { call, offset, bag } => {
            look_at_held(known, around, Wanted::by(*call), *bag, search);
            of_type(Some(ValueType::Number), *offset)
        }
        Expr::Elapsed { offset } => {
            if around.rule != Some(RuleSort::External) {
                search.note_misplaced(*offset, Misplaced::Elapsed, around);
            }
            of_type(Some(ValueType::Number), *offset)
        }
        Expr::Times { offset, value, bag } => {
            let given = look_through(known, around, value, search);
            take(Taker::Times, given, search);
            look_at_held(known, around, Wanted::Bag, *bag, search);
            of_type(Some(ValueType::Number), *offset)
        }
    }
}

fn of_type(value_type: Option<ValueType>, offset: u32) -> Typed {
    Typed { value_type, offset }
}

/// Checks a name that is read as a value, and answers its type.
fn look_at_value(
    known: &Known,
    around: &Around,
    name: Name,
    search: &mut Search,
) -> Option<ValueType> {
    let sort = known.sort(around, name.number);
    search.note_name(name, sort, Wanted::Value, around);
    match sort? {
        NameSort::Variable | NameSort::LoopVariable => Some(ValueType::Number),
        NameSort::Flag => Some(ValueType::Truth),
        NameSort::Input | NameSort::Output | NameSort::Held(_) | NameSort::Phase => None,
    }
}

/// Checks a name that is read as a collection.
pub fn look_at_held(
    known: &Known,
    around: &Around,
    wanted: Wanted,
    name: Name,
    search: &mut Search,
) {
    let sort = known.sort(around, name.number);
    search.note_name(name, sort, wanted, around);
    if sort == Some(NameSort::Input) && wanted.suits(NameSort::Input) && !around.sees_inputs() {
        search.note_misplaced(name.offset, Misplaced::Input(name), around);
    }
}

/// Checks the operands of an operator of this class, and answers the type of its result; `None` if an operand is
/// wrong.
fn operate(class: OperatorClass, a: Typed, b: Typed, search: &mut Search) -> Option<ValueType> {
    match Taker::by(class) {
        Some(taker) => {
            let a = take(taker, a, search);
            let b = take(taker, b, search);
            if a.is_some() && b.is_some() {
                Some(result_type(class))
            } else {
                None
            }
        }
        None => {
            take(Taker::Equality(a.value_type?), b, search)?;
            Some(result_type(class))
        }
    }
}

fn result_type(class: OperatorClass) -> ValueType {
    match class {
        OperatorClass::Logic | OperatorClass::Equality | OperatorClass::Order => ValueType::Truth,
        OperatorClass::Arithmetic => ValueType::Number,
    }
}

/// Checks the type of a value that is taken, and answers it if it is right.
fn take(taker: Taker, given: Typed, search: &mut Search) -> Option<ValueType> {
    let found = given.value_type?;
    if found == taker.takes() {
        return Some(found);
    }
    search.note(
        RefusalNumber::E8,
        given.offset,
        Reason::Type { found, taker },
    );
    None
}
