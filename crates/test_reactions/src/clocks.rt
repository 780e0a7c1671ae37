//! Two clocks with a lamp between them.

ghost use Rattle.std.specs.List.{All};
ghost use Rattle.dv_coded.specs.Components.{StandsAmong};
ghost use Rattle.dv_coded.specs.Models.{TakesState};
ghost use Rattle.dv_share.specs.declared.tables.Member.{Member};

use dv_bag::{DatumView, Response, RuleError, Sent, State};
use dv_coded::{Bench, Components, Lent, Programs, components_of};
use dv_react::{Atomic, Wait};
use dv_share::Member;
use dv_tree::Tree;
use std::alloc::{AllocError, Global};
use std::test::Fail;
use test_samples::checked;

const CLOCKS: &str =
    "atomic Clock { out beat; var n: 0..9 = 3; phases run; start run; hold run: n + 2;
    output run { send beat n; } internal run { n := n + 1; } }
atomic Lamp { in on; in off; phases dark, light; start dark; hold dark: forever; hold light: 4;
    external dark { goto light; } internal light { goto dark; } }
coupled Top { part a: Clock; part l: Lamp; part b: Clock; link a.beat -> l.on; link b.beat -> l.off; }
root Top;
";

/// A component, but for its state.
#[derive(Clone, Copy, PartialEq, Eq)]
struct Outline {
    number: u32,
    model: u32,
    inputs: u32,
    outputs: u32,
    /// The tick at which its hold runs out.
    tick: Option<u64>,
    response: Response,
}

const CLOCK: Outline = Outline {
    number: 0,
    model: 0,
    inputs: 0,
    outputs: 1,
    tick: Some(5),
    response: Response::Never,
};

const LAMP: Outline = Outline {
    number: 1,
    model: 1,
    inputs: 2,
    outputs: 0,
    tick: None,
    response: Response::Ticks(4),
};

impl Outline {
    fn of(member: &Member, response: Response) -> Self {
        let tick = match member.start.as_running().wait {
            Wait::Until(time) => Some(time.tick),
            Wait::Forever | Wait::Quiet => None,
        };
        Outline {
            number: member.number,
            model: member.model,
            inputs: member.inputs,
            outputs: member.outputs,
            tick,
            response,
        }
    }
}

fn outlines_of(alloc: Global, components: &Components) -> Result<Vec<Outline>, AllocError> {
    let mut outlines = Vec::new(alloc);
    for (member, response) in components.members.iter().zip(&components.responses) {
        outlines.push(Outline::of(member, *response))?;
    }
    Ok(outlines)
}

/// What the programs of a clock give: how many values are sent, the number that the internal one
/// leaves, and the hold then.
#[derive(Clone, Copy, PartialEq, Eq)]
struct Beat {
    sent: u64,
    number: Option<i64>,
    hold: Option<u64>,
}

/// The number in the first slot.
fn number_in(state: &State) -> Option<i64> {
    match state.variables.get(0) {
        Some(DatumView::Number(number)) => Some(number),
        _ => None,
    }
}

fn beat_of(bench: &mut Bench, clock: &Programs, state: &State) -> Result<Beat, RuleError>
    requires { TakesState clock.now state.now }
{
    let clock = Lent::of(clock);
    let mut sent = Sent::empty(bench.alloc, 0);
    clock.output(bench, state, &mut sent)?;
    let mut after = state.clone()?;
    let _goes = clock.internal(bench, &mut after)?;
    Ok(Beat {
        sent: sent.total(),
        number: number_in(&after),
        hold: clock.hold(bench, &after)?,
    })
}

/// The beat of the first component.
fn first_beat(bench: &mut Bench, components: &Components) -> Result<Option<Beat>, RuleError>
    requires { All (λ (x : Member). StandsAmong 1 components.now.models.items x)
        components.now.members.items }
{
    let Some(member) = components.members.first() else {
        return Ok(None);
    };
    let Some(clock) = components.models.get(member.model as usize) else {
        return Ok(None);
    };
    Ok(Some(beat_of(bench, clock, &member.start.as_running().state)?))
}

#[test]
fn components_of_a_model_share_its_programs(rt: HostRuntime) -> Result<(), Fail> {
    let mut bench = Bench::new(rt.alloc());
    let checked = checked(rt.alloc(), CLOCKS).expect(&rt, "a text");
    let tree = Tree::of(rt.alloc(), &checked)?;
    let components = components_of(&mut bench, &tree, 1)?;
    assert!(rt; components.models.len() == 2);
    let other = Outline { number: 2, ..CLOCK };
    let outlines = outlines_of(rt.alloc(), &components)?;
    assert!(rt; outlines.as_slice() == [CLOCK, LAMP, other].as_slice());
    let beat = first_beat(&mut bench, &components).expect(&rt, "no fault");
    let wanted = Beat {
        sent: 1,
        number: Some(4),
        hold: Some(6),
    };
    assert!(rt; beat == Some(wanted));
    Ok(())
}
