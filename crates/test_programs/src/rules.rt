//! Rules and holds, compared with their programs: those of the texts, and random ones.

ghost use Rattle.std.specs.Prelude.{◌≡◌, ◌<◌};
ghost use Rattle.dv_gen.specs.ModelCode.{IsCompilable};
ghost use Rattle.dv_syntax.specs.Trees.{atomic_of};

use crate::beside::Endings;
use crate::rule_texts::random_model;
use dv_syntax::Atomic;
use std::alloc::AllocError;
use std::marker::Brand;
use std::process::Abort;
use std::sync::ledger::{Blank, Ledger};
use std::test::Fail;
use test_samples::{Random, Runs, atomic_at, checked, compile, model_texts};

fn compare_text<R: Abort + AllocGlobal, L: Ledger>(
    rt: &R,
    text: &str,
    runs: &mut Runs<L>,
    endings: &mut Endings,
) -> Result<(), Fail> {
    let checked = checked(rt.alloc(), text).expect(rt, text);
    for index in 0..checked.file.models.len() {
        if let Some(model) = atomic_at(&checked, index) {
            compare_model(rt, model, runs, endings)?;
        }
    }
    Ok(())
}

fn compare_model<R: Abort + AllocGlobal, L: Ledger>(
    rt: &R,
    model: &Atomic,
    runs: &mut Runs<L>,
    endings: &mut Endings,
) -> Result<(), AllocError>
    requires { IsCompilable (atomic_of model.now) }
{
    let compiled = compile(rt.alloc(), model)?;
    endings.compare_model(rt, runs, &compiled)
}

fn compare_texts<R: Abort + AllocGlobal, L: Ledger>(rt: &R, blank: Blank) -> Result<Endings, Fail>
    requires name { blank.name ≡ L.name }
    requires parts { blank.parts ≡ L.parts }
    requires some { 0 < blank.parts }
{
    let mut runs = Runs::<L>::new(rt.alloc(), blank);
    let mut endings = Endings::none();
    for text in model_texts() {
        compare_text(rt, text, &mut runs, &mut endings)?;
    }
    Ok(endings)
}

fn compare_random<R: Abort + AllocGlobal, L: Ledger>(
    rt: &R,
    models: u32,
    blank: Blank,
) -> Result<Endings, Fail>
    requires name { blank.name ≡ L.name }
    requires parts { blank.parts ≡ L.parts }
    requires some { 0 < blank.parts }
{
    let mut runs = Runs::<L>::new(rt.alloc(), blank);
    let mut endings = Endings::none();
    let mut random = Random::new(1);
    for _ in 0..models {
        let text = random_model(rt.alloc(), &mut random)?;
        compare_text(rt, text.as_str(), &mut runs, &mut endings)?;
    }
    Ok(endings)
}

#[test]
fn programs_do_what_their_rules_do(rt: HostRuntime) -> Result<(), Fail> {
    let endings = compare_texts::<HostRuntime, Brand>(&rt, Blank::new(1))?;
    assert!(rt;
        endings.effects > 1_000 && endings.faults > 50,
        "{endings:?}"
    );
    Ok(())
}

#[test]
fn programs_of_random_rules_do_what_the_rules_do(rt: HostRuntime) -> Result<(), Fail> {
    let endings = compare_random::<HostRuntime, Brand>(&rt, 400, Blank::new(1))?;
    assert!(rt;
        endings.effects > 10_000 && endings.faults > 10_000,
        "{endings:?}"
    );
    Ok(())
}
