//! How many comparisons agree.

/// How many comparisons with the plain run agree, and how many do not.
#[derive(Drop)]
pub struct Tally {
    /// How many comparisons agree.
    pub agreeing: u32,
    /// How many comparisons do not agree.
    pub differing: u32,
}

impl Tally {
    /// Nothing counted yet.
    pub fn new() -> Self {
        Tally {
            agreeing: 0,
            differing: 0,
        }
    }

    /// Counts one comparison more.
    pub fn count(&mut self, agrees: bool) {
        if agrees {
            self.agreeing = self.agreeing.saturating_add(1);
        } else {
            self.differing = self.differing.saturating_add(1);
        }
    }

    /// Whether all that was counted agrees.
    pub fn do_all_agree(&self) -> bool {
        self.differing == 0
    }
}
