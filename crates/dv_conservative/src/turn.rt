//! What a turn may do and must do.

ghost use Rattle.std.specs.Prelude.{◌≡◌, ℕ, Bool, List};
ghost use Rattle.dv_bag.specs.declared.state.State.{State};
ghost use Rattle.dv_conservative.specs.Process.{Packet, Share};
ghost use Rattle.dv_conservative.specs.Sound.{IsJob};
ghost use Rattle.dv_conservative.specs.Turn.{AllStayOn, IsTurnOf, MayTurn, Position, Turned, Waiting, turned};
ghost use Rattle.dv_conservative.specs.World.{IsRun, IsTurn, Job, Reply, StaysBeside, Step, World, new_world, position_in};
ghost use Rattle.dv_conservative.specs.World.{received_in, share_of};

/// A turn that is allowed is a step of the world, in every world that steps lead to: what it
/// promises is settled.
pub fn a_turn_is_a_step()
    ensures { (fits : ℕ → State → Bool) (job : Job) (capacity : ℕ) (steps : List (Step × Reply))
        (w v : World) (p : ℕ)
        → IsJob fits job → IsRun job steps (new_world capacity) w
        → MayTurn (share_of job p) (received_in w) (position_in w p) (position_in v p)
        → StaysBeside job p w v
        → IsTurn job p w v }
{}

/// After a turn that answers Waiting another one changes nothing, as long as nothing is received
/// and nothing is sent.
pub fn waiting_turns_change_nothing()
    ensures clock { (s : Share) (received : ℕ → List Packet) (before after later : Position)
        → IsTurnOf s received before after → turned s before after ≡ Waiting
        → MayTurn s received after later
        → later.clock ≡ after.clock }
    ensures links { (s : Share) (received : ℕ → List Packet) (before after later : Position)
        → IsTurnOf s received before after → turned s before after ≡ Waiting
        → MayTurn s received after later
        → AllStayOn s.outgoing after later }
{}
