//! The values of inputs are numbers of the language.

ghost use Rattle.std.specs.Prelude.{◌≡◌, IsTrue};
ghost use Rattle.std.specs.List.{AllByRecursion};
ghost use Rattle.dv_bag.specs.Bag.{is_number};
ghost use Rattle.dv_local.specs.declared.share.Share.{Share as ShareOfCode};
ghost use Rattle.law_sound.specs.Jobs.{AllInputNumbers};

use dv_bag::{Input, Inputs};
use dv_local::Share;

/// Shows that the values of the inputs of shares are numbers of the language. It does nothing.
pub fn shares_have_numbers<A>(shares: &[Share<A>])
    ensures { AllByRecursion (λ (s : ShareOfCode A). AllInputNumbers s.inputs) shares.now }
{
    for share in shares {
        are_numbers(&share.inputs);
    }
}

// Shows that the values of inputs are numbers of the language.
fn are_numbers(inputs: &Inputs)
    ensures { AllInputNumbers inputs.now }
{
    for input in inputs.as_slice() {
        let _value = number_of(input);
    }
}

// The value of an input, which is a number of the language.
fn number_of(input: &Input) -> i64
    ensures value { result ≡ input.now.value }
    ensures number { IsTrue (is_number result) }
{
    input.value
}
