//! The bodies of loops around an address.

ghost use Rattle.std.specs.Prelude.{◌≡◌, ◌↔◌, ◌<◌, ◌≤◌, [], ◌∷◌, length, IsTrue, MatchOption};
ghost use Rattle.dv_code.specs.Valid.{LiesIn};
ghost use Rattle.dv_code.specs.Limits.{deepest_loops};
ghost use Rattle.dv_valid.specs.Nests.{bodies, meant_body};

/// The body of a loop.
#[derive(Clone, Copy)]
pub struct Body {
    /// The address of its first instruction.
    pub first: usize,
    /// The address after its last instruction.
    pub past: usize,
}

/// The bodies of loops around an address, the innermost first. Loops are at most three deep.
#[derive(Clone, Copy)]
pub enum Nest {
    /// No body.
    Outside,
    /// The body of one loop.
    One(Body),
    /// The bodies of two loops, the inner one first.
    Two(Body, Body),
    /// The bodies of three loops, the innermost first.
    Three(Body, Body, Body),
}

impl Body {
    /// Whether an address is in the body.
    fn contains(self, address: usize) -> bool
        ensures { IsTrue result ↔ ((self.first ≤ address) × (address < self.past)) }
    {
        self.first <= address && address < self.past
    }

    /// Whether two bodies are the same.
    pub fn is_same(self, other: Body) -> bool
        ensures { IsTrue result ↔ (meant_body self ≡ meant_body other) }
    {
        self.first == other.first && self.past == other.past
    }
}

impl Nest {
    /// How many bodies there are.
    pub fn depth(self) -> usize
        ensures depth { result ≡ length (bodies self) }
        ensures shallow { result ≤ deepest_loops }
    {
        match self {
            Nest::Outside => 0,
            Nest::One(_) => 1,
            Nest::Two(_, _) => 2,
            Nest::Three(_, _, _) => 3,
        }
    }

    /// The bodies with one more inside them, if that is not too deep.
    pub fn with_inner(self, body: Body) -> Option<Nest>
        ensures { MatchOption result (length (bodies self) ≡ deepest_loops)
            (λ nest. bodies nest ≡ meant_body body ∷ bodies self) }
    {
        match self {
            Nest::Outside => Some(Nest::One(body)),
            Nest::One(a) => Some(Nest::Two(body, a)),
            Nest::Two(a, b) => Some(Nest::Three(body, a, b)),
            Nest::Three(_, _, _) => None,
        }
    }

    /// The innermost body, and those around it, if there is one.
    pub fn innermost(self) -> Option<(Body, Nest)>
        ensures { MatchOption result (bodies self ≡ [])
            (λ split. bodies self ≡ meant_body split.0 ∷ bodies split.1) }
    {
        match self {
            Nest::Outside => None,
            Nest::One(a) => Some((a, Nest::Outside)),
            Nest::Two(a, b) => Some((a, Nest::One(b))),
            Nest::Three(a, b, c) => Some((a, Nest::Two(b, c))),
        }
    }

    /// Whether the bodies are the same.
    pub fn is_same(self, other: Nest) -> bool
        ensures { IsTrue result ↔ (bodies self ≡ bodies other) }
    {
        match (self, other) {
            (Nest::Outside, Nest::Outside) => true,
            (Nest::One(a), Nest::One(p)) => a.is_same(p),
            (Nest::Two(a, b), Nest::Two(p, q)) => a.is_same(p) && b.is_same(q),
            (Nest::Three(a, b, c), Nest::Three(p, q, r)) => {
                a.is_same(p) && b.is_same(q) && c.is_same(r)
            }
            _ => false,
        }
    }

    /// Whether an address is in the innermost body, each body in the next one, and all in a program
    /// of so many instructions.
    pub fn contains(self, address: usize, end: usize) -> bool
        ensures { IsTrue result ↔ LiesIn end address (bodies self) }
    {
        match self {
            Nest::Outside => address < end,
            Nest::One(a) => a.contains(address) && a.past < end,
            Nest::Two(a, b) => a.contains(address) && b.contains(a.past) && b.past < end,
            Nest::Three(a, b, c) => {
                a.contains(address) && b.contains(a.past) && c.contains(b.past) && c.past < end
            }
        }
    }
}
