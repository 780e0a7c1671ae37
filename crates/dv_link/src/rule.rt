//! The rule that a link's queue keeps, and what its users learn from it, for contracts alone.

ghost use Rattle.std.specs.Prelude.{◌≡◌, ⊤, true, false, [], ◌∷◌, ◌++◌};
ghost use Rattle.dv_link.specs.Views.{end_view};
ghost use Rattle.dv_link.specs.Carries.{AllTrue, Carries};

use crossbeam_queue::protocol::{Lesson, Outcome, Protocol, Split};
use dv_proc::Packet;
use dv_written::OfJob;
use std::collections::LinkedList;
use std::marker::{Brand, PhantomData};

/// What an end of a link knows, for contracts alone: no value of it is made.
pub struct EndView {
    /// The number of the link.
    pub link: u32,
    /// Whether the end may put packets.
    pub puts: bool,
    /// Whether the end may take packets.
    pub takes: bool,
    /// The packets that it put, in order.
    pub put: LinkedList<Packet>,
    /// The packets that it took, in order.
    pub taken: LinkedList<Packet>,
}

/// The rule of the links of a job: every packet is true.
pub struct Relay<N> {
    of: PhantomData<N>,
}

impl<N: OfJob> Protocol<Packet, EndView> for Relay<N> {
    ghost use Rattle.std.specs.Prelude.{true, []};
    ghost use Rattle.dv_link.specs.Views.{end_view};
    ghost use Rattle.dv_link.specs.Carries.{Carries};

    ghost holds = { Carries N.job };

    ghost first = { end_view 0 true true [] [] };
}

/// The number of a link, which the caller chooses.
pub trait OfLink {
    ghost use Rattle.std.specs.Prelude.{ℕ};

    ghost link: { ℕ };
}

impl OfLink for Brand {
    ghost link = { 0 };
}

/// The two ends of a link on which nothing was put.
pub struct Ends<L> {
    of: PhantomData<L>,
}

impl<L: OfLink> Split<EndView> for Ends<L> {
    ghost use Rattle.std.specs.Prelude.{true, false, []};
    ghost use Rattle.dv_link.specs.Views.{end_view};

    ghost left = { λ v. end_view L.link true false [] [] };

    ghost right = { λ v. end_view L.link false true [] [] };
}

/// A packet is put.
pub struct Puts;

impl Outcome<Packet, EndView> for Puts {
    ghost then = { λ v p w. w ≡ end_view v.link v.puts v.takes (v.put ++ p ∷ []) v.taken };
}

impl Lesson<Packet, EndView> for Puts {
    ghost fact = { λ v items. ⊤ };
}

/// A packet is taken, and all that were taken are true.
pub struct Takes<N> {
    of: PhantomData<N>,
}

impl<N: OfJob> Outcome<Packet, EndView> for Takes<N> {
    ghost then = { λ v p w. (w ≡ end_view v.link v.puts v.takes v.put (v.taken ++ p ∷ []))
        × AllTrue N.job v.link w.taken };
}

impl<N: OfJob> Lesson<Packet, EndView> for Takes<N> {
    ghost fact = { λ v items. AllTrue N.job v.link v.taken };
}
