//! Laws of parts.

ghost use Rattle.std.specs.Prelude.{◌≡◌, false};
ghost use Rattle.dv_time.specs.Time.{is_before};
ghost use Rattle.dv_time.specs.declared.time.Time.{Time};
ghost use Rattle.dv_bag.specs.Part.{IsByTime, PartOf, before, joined, nothing, since};

/// A time cuts a part into two: what is before it and what is at it or later make up the whole, and
/// have nothing in common.
pub fn a_time_parts_a_part()
    ensures together { (c : Time) (p : PartOf) → IsByTime p → joined (before c p) (since c p) ≡ p }
    ensures none_since { (c : Time) (p : PartOf) → since c (before c p) ≡ nothing }
    ensures none_before { (c : Time) (p : PartOf) → before c (since c p) ≡ nothing }
    ensures sooner { (c d : Time) (p : PartOf) → is_before d c ≡ false
        → before c (before d p) ≡ before c p }
{}

/// A cut of joined parts is the cuts of both, joined.
pub fn cuts_of_joined_parts()
    ensures before { (c : Time) (p q : PartOf)
        → before c (joined p q) ≡ joined (before c p) (before c q) }
    ensures since { (c : Time) (p q : PartOf)
        → since c (joined p q) ≡ joined (since c p) (since c q) }
{}
