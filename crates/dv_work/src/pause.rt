//! Whether a process is held back.

ghost use Rattle.std.specs.Prelude.{◌≡◌, ◌≢◌, ◌↔◌, false, true, IsTrue};
ghost use Rattle.dv_work.specs.declared.pause.Pause.TheVariants.{Over, Owing, Told};

/// Whether a process makes turns, or is held back because too much of what it posted is not
/// written yet.
#[derive(Clone, Copy)]
pub enum Pause {
    /// It makes turns.
    Over,
    /// It is held back, and makes one turn more once all packets that it prepared are put. A turn
    /// prepares nothing for a link for which a packet is left, so a receiver may know less than it
    /// could, and wait for the rest.
    Owing,
    /// It is held back, and makes no turn: it has prepared all that its receivers can know.
    Told,
}

impl Pause {
    /// Whether the process is held back.
    pub fn holds_back(self) -> bool
        ensures { IsTrue result ↔ (self ≢ Over) }
    {
        match self {
            Pause::Over => false,
            Pause::Owing | Pause::Told => true,
        }
    }

    /// The pause after a look whether the process is to be held back.
    pub fn renewed(self, is_held_back: bool) -> Pause
        ensures over { is_held_back ≡ false → result ≡ Over }
        ensures begins { is_held_back ≡ true → self ≡ Over → result ≡ Owing }
        ensures goes_on { is_held_back ≡ true → self ≢ Over → result ≡ self }
    {
        match self {
            _ if !is_held_back => Pause::Over,
            Pause::Over => Pause::Owing,
            Pause::Owing | Pause::Told => self,
        }
    }

    /// The pause after a turn.
    pub fn after_a_turn(self) -> Pause
        ensures over { self ≡ Over → result ≡ Over }
        ensures told { self ≢ Over → result ≡ Told }
    {
        match self {
            Pause::Over => Pause::Over,
            Pause::Owing | Pause::Told => Pause::Told,
        }
    }
}
