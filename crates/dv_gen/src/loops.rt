//! The loops around a statement.

ghost use Rattle.std.specs.Prelude.{◌≡◌, ◌≤◌, length};
ghost use Rattle.dv_code.specs.Limits.{deepest_loops};
ghost use Rattle.dv_gen.specs.Emission.{loops_of};
ghost use Rattle.dv_gen.specs.Resolution.{loop_of};

/// The variables of the loops around a statement, the innermost first.
#[derive(Clone, Copy)]
pub enum Loops<'a> {
    /// Outside of all loops.
    Outermost,
    /// In a loop.
    Within { variable: u32, outer: &'a Loops<'a> },
}

impl Loops<'_> {
    /// The number of loops.
    pub fn depth(&self) -> u16
        requires { length (loops_of self.now) ≤ deepest_loops }
        ensures { result ≡ length (loops_of self.now) }
    {
        match self {
            Loops::Outermost => 0,
            Loops::Within { outer, .. } => outer.depth() + 1,
        }
    }

    /// The number of the innermost loop with a variable, counted from the outermost.
    pub fn number(&self, variable: u32) -> Option<u16>
        requires { length (loops_of self.now) ≤ deepest_loops }
        ensures { result ≡ loop_of variable (loops_of self.now) }
    {
        match self {
            Loops::Outermost => None,
            Loops::Within {
                variable: own,
                outer,
            } => {
                if *own == variable {
                    Some(outer.depth())
                } else {
                    outer.number(variable)
                }
            }
        }
    }
}
