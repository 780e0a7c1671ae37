//! Laws of bags.

ghost use Rattle.std.specs.Prelude.{◌≡◌, ◌≢◌, ℕ, ◌+◌, ◌-◌, ◌^◌, ◌<◌, ◌↔◌, IsTrue, List, ℤ, []};
ghost use Rattle.dv_bag.specs.Bag.{Counts, IsBag, capped, count_of, size, total, union, with_copies, without_one};
ghost use Rattle.dv_bag.specs.Same.{same_bag, same_bags, same_variables};
ghost use Rattle.dv_bag.specs.declared.state.Datum.{Datum};

/// Bags under union are a commutative monoid.
pub fn bags_are_a_commutative_monoid()
    ensures bag { (a b : Counts) → IsBag a → IsBag b → IsBag (union a b) }
    ensures unit_left { (b : Counts) → IsBag b → union [] b ≡ b }
    ensures unit_right { (b : Counts) → union b [] ≡ b }
    ensures commutative { (a b : Counts) → IsBag a → IsBag b → union a b ≡ union b a }
    ensures associative { (a b c : Counts) → IsBag a → IsBag b → IsBag c
        → union (union a b) c ≡ union a (union b c) }
{}

/// A bag is a map from values to counts: bags with the same counts are equal, an edit changes only
/// the count of its value, and union adds counts.
pub fn bags_are_their_counts()
    ensures equal { (a b : Counts) → IsBag a → IsBag b → ((v : ℤ) → count_of v a ≡ count_of v b)
        → a ≡ b }
    ensures more { (v : ℤ) (n : ℕ) (b : Counts) → IsBag b
        → count_of v (with_copies v n b) ≡ capped (count_of v b + n) }
    ensures more_others { (w v : ℤ) (n : ℕ) (b : Counts) → w ≢ v
        → count_of w (with_copies v n b) ≡ count_of w b }
    ensures less { (v : ℤ) (b : Counts) → IsBag b
        → count_of v (without_one v b) ≡ count_of v b - 1 }
    ensures less_others { (w v : ℤ) (b : Counts) → IsBag b → w ≢ v
        → count_of w (without_one v b) ≡ count_of w b }
    ensures both { (v : ℤ) (a b : Counts) → IsBag a → IsBag b
        → count_of v (union a b) ≡ capped (count_of v a + count_of v b) }
{}

/// An edited bag is a bag.
pub fn edits_leave_bags()
    ensures more { (v : ℤ) (n : ℕ) (b : Counts) → IsBag b → IsBag (with_copies v n b) }
    ensures less { (v : ℤ) (b : Counts) → IsBag b → IsBag (without_one v b) }
{}

/// The order in which copies are inserted does not matter, and copies of one value are added up,
/// for any list of pairs.
pub fn copies_commute_and_join()
    ensures either { (v w : ℤ) (n m : ℕ) (b : Counts)
        → with_copies v n (with_copies w m b) ≡ with_copies w m (with_copies v n b) }
    ensures joined { (v : ℤ) (n m : ℕ) (b : Counts)
        → with_copies v n (with_copies v m b) ≡ with_copies v (n + m) b }
    ensures capped { (v : ℤ) (n : ℕ) (b : Counts) → with_copies v (capped n) b ≡ with_copies v n b }
{}

/// The size of a union is the sum of the sizes.
pub fn sizes_add()
    ensures size { (a b : Counts) → size (union a b) ≡ capped (size a + size b) }
    ensures total { (a b : Counts) → total a + total b < 2 ^ 64
        → total (union a b) ≡ total a + total b }
    ensures none { (b : Counts) → IsBag b → size b ≡ 0 → b ≡ [] }
{}

/// `==` on bags and on variables says whether they are equal.
pub fn equality_is_equality()
    ensures bag { (a b : Counts) → IsTrue (same_bag a b) ↔ (a ≡ b) }
    ensures bags { (a b : List Counts) → IsTrue (same_bags a b) ↔ (a ≡ b) }
    ensures variables { (v w : List Datum) → IsTrue (same_variables v w) ↔ (v ≡ w) }
{}
