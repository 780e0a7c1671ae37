//! The phase after a rule.

ghost use Rattle.std.specs.Prelude.{◌≡◌};
ghost use Rattle.dv_devs.specs.Behaviour.{state_by_goto};
ghost use Rattle.dv_react.specs.Given.{change_to};

use dv_bag::State;

/// Puts a state in the phase of the last `goto` of a rule, if one ran. Returns whether one did.
#[inline]
pub fn go_to(state: &mut State, goto: Option<u32>) -> bool
    ensures change { change_to state.new result ≡ state_by_goto state.old goto }
    ensures variables { state.new.variables ≡ state.old.variables }
{
    match goto {
        None => false,
        Some(phase) => {
            state.phase = phase;
            true
        }
    }
}
