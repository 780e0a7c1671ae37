//! The lookahead of an atomic model.

ghost use Rattle.std.specs.Prelude.{◌≡◌};
ghost use Rattle.dv_time.specs.Time.{earlier};
ghost use Rattle.dv_bag.specs.Responses.{ticks_of};

/// The lookahead of an atomic model: a lower bound on the holds that begin when an external rule
/// goes to a phase. If the rule goes to none, the hold goes on.
#[derive(Clone, Copy, PartialEq, Eq)]
pub enum Response {
    /// No such hold ends before so many ticks.
    Ticks(u64),
    /// No such hold ends, or none begins.
    Never,
}

impl Response {
    /// The lesser of two bounds.
    pub fn sooner(self, other: Response) -> Response
        ensures { ticks_of result ≡ earlier (ticks_of self) (ticks_of other) }
    {
        match (self, other) {
            (Response::Never, other) => other,
            (this, Response::Never) => this,
            (Response::Ticks(this), Response::Ticks(other)) => Response::Ticks(this.min(other)),
        }
    }
}
