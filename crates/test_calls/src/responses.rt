//! The response of a very large model, and holds at the limits of numbers.

use crate::compare::{expect_same, same};
use dv_bag::{Response, State, Variables};
use dv_bound::response;
use dv_eval::{Scope, hold};
use dv_lex::Numeral;
use dv_syntax::{
    Atomic, Block, Command, Expr, Hold, Name, Number, Phases, Rule, RuleSort, Stmt, Ticks,
};
use std::process::Abort;

/// How many phases the model has.
const PHASES: u32 = 50_000;

fn name(number: u32) -> Name {
    Name { number, offset: 0 }
}

/// So many ticks, or forever where that is no number.
fn ticks(value: u64) -> Ticks {
    match Numeral::new(value) {
        Some(value) => Ticks::After(Expr::Literal(Number { value, offset: 0 })),
        None => Ticks::Forever,
    }
}

/// Adds the phases, the hold of each, a tick shorter than the one before, and a `goto` to each.
fn push_phases(
    rt: &impl Abort,
    names: &mut Vec<Name>,
    holds: &mut Vec<Hold>,
    gotos: &mut Vec<Stmt>,
) {
    for phase in 0..PHASES {
        let phase_name = name(phase);
        names.push(phase_name).expect(rt, "memory");
        holds
            .push(Hold {
                offset: 0,
                phase: phase_name,
                ticks: ticks(u64::from(100_000 - phase)),
            })
            .expect(rt, "memory");
        gotos
            .push(Stmt::Command {
                command: Command::Goto,
                offset: 0,
                name: phase_name,
            })
            .expect(rt, "memory");
    }
}

/// A model with an external rule that goes from phase 0 to each phase.
fn large_model<R: Abort + AllocGlobal>(rt: &R) -> Atomic {
    let alloc = rt.alloc();
    let mut names = Vec::new(alloc);
    let mut holds = Vec::new(alloc);
    let mut statements = Vec::new(alloc);
    push_phases(rt, &mut names, &mut holds, &mut statements);
    let rule = Rule {
        sort: RuleSort::External,
        phase: name(0),
        body: Block { statements },
    };
    Atomic {
        name: name(0),
        declarations: Vec::new(alloc),
        phases: vec![in alloc; Phases { offset: 0, names }].expect(rt, "memory"),
        starts: Vec::new(alloc),
        holds,
        rules: vec![in alloc; rule].expect(rt, "memory"),
    }
}

#[test]
fn thousands_of_holds_and_gotos(rt: HostRuntime) {
    let model = large_model(&rt);
    let scope = Scope::of(rt.alloc(), &model).expect(&rt, "memory");
    let response = response(rt.alloc(), &model, &scope).expect(&rt, "memory");
    same!(rt; response, Response::Ticks(50_001));
}

fn same_hold<R: Abort + AllocGlobal>(rt: &R, ticks: &Ticks, wanted: u64) {
    let scope = Scope::new(rt.alloc());
    let state = State {
        phase: 0,
        variables: Variables::new(rt.alloc()),
    };
    expect_same(rt, "hold", hold(ticks, &state, &scope), Ok(Some(wanted)));
}

// The longest hold, and that of a truth value, which no accepted model has.
#[test]
fn holds_at_the_edges(rt: HostRuntime) {
    let longest = 9_223_372_036_854_775_807;
    same_hold(&rt, &ticks(longest), longest);
    let truth = Ticks::After(Expr::TruthValue {
        offset: 0,
        value: true,
    });
    same_hold(&rt, &truth, 1);
}
