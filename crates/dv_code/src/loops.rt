//! The open loops as a stack, with the innermost on top.

ghost use Rattle.std.specs.Prelude.{◌≡◌, ◌<◌, length, Ok, Some};
ghost use Rattle.dv_bag.specs.declared.value.Value.TheVariants.{Number};
ghost use Rattle.dv_code.specs.Operations.{item_of};
ghost use Rattle.dv_code.specs.Turns.{AdvanceInnermost, items_in, turns_of};

use crate::open_loop::OpenLoop;
use crate::stack::Stack;
use dv_bag::Arrivals;

impl Stack<OpenLoop> {
    /// Moves the innermost loop to its next value and returns `true`, or ends it if there is none.
    #[inline(always)]
    pub(crate) fn advance(&mut self, arrivals: &Arrivals) -> bool
        requires { 0 < length self.old }
        ensures { AdvanceInnermost (turns_of arrivals.now self.old) result
            (turns_of arrivals.now self.new) }
    {
        let last = self.values.len() - 1;
        if self.values[last].next(arrivals) {
            return true;
        }
        let _ = self.values.pop();
        false
    }

    /// The value at which a loop is. The outermost loop is number 0.
    #[inline]
    pub(crate) fn item(&self, number: usize) -> i64
        requires { number < length self.now }
        ensures { item_of (items_in self.now) number ≡ Some (Ok (Number result)) }
    {
        self.values[number].item()
    }
}
