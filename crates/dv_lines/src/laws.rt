//! Laws of the text of a part that grows. Each function states a law in its contract.

ghost use Rattle.std.specs.Prelude.{◌≡◌, ℕ, true, false, [], ◌∷◌, ◌++◌, List, map};
ghost use Rattle.std.specs.List.{All};
ghost use Rattle.dv_bag.specs.Part.{IsByTime, PartOf};
ghost use Rattle.dv_bag.specs.declared.entry.Entry.{Entry};
ghost use Rattle.dv_bag.specs.declared.entry.Outer.{Outer};
ghost use Rattle.dv_bag.specs.Bag.{Counts};
ghost use Rattle.dv_devs.specs.Network.{outer_from};
ghost use Rattle.dv_record.specs.Told.{lines_from};
ghost use Rattle.dv_text.specs.Texts.{ComponentNames, entry_text, names_at, outers_text, part_text, port_text};
ghost use Rattle.dv_time.specs.declared.time.Time.{Time};
ghost use Rattle.dv_time.specs.Time.{is_before, time_of};
ghost use Rattle.dv_tree.specs.Paths.{name_at};
ghost use Rattle.dv_lines.specs.Tables.{decorated, with_ends, words_at};
ghost use Rattle.dv_lines.specs.Words.{line_words, port_words};

/// One more entry adds its line to the text of a part, if nothing left the model at the time of the
/// entry or later.
pub fn a_line_is_appended()
    ensures { (all : List ComponentNames) (outputs : List (List ℕ)) → (p : PartOf) (e : Entry)
        → IsByTime p → IsByTime (record p { entries = p.entries ++ e ∷ [] })
        → All (λ (o : Outer). is_before o.time e.time ≡ true) p.outer
        → part_text all outputs (record p { entries = p.entries ++ e ∷ [] })
        ≡ part_text all outputs p ++ entry_text (names_at all e.component) e }
{}

/// What leaves at a time adds an output line to the text of a part, if no entry is later and
/// nothing left at that time or later.
pub fn what_leaves_is_appended()
    ensures { (all : List ComponentNames) (outputs : List (List ℕ))
        → (p : PartOf) (t : Time) (os : List Outer)
        → IsByTime p → IsByTime (record p { outer = p.outer ++ os })
        → All (λ (e : Entry). is_before t e.time ≡ false) p.entries
        → All (λ (o : Outer). is_before o.time t ≡ true) p.outer
        → All (λ (o : Outer). o.time ≡ t) os
        → part_text all outputs (record p { outer = p.outer ++ os })
        ≡ part_text all outputs p ++ outers_text outputs t os }
{}

/// A line made of the words for names is the line with these names. The same holds for a port of an
/// output line.
pub fn words_say_the_names()
    ensures entry { (all : List ComponentNames) (e : Entry)
        → line_words (words_at (map decorated all) e.component) e.time e.what e.sent
        ≡ entry_text (names_at all e.component) e }
    ensures port { (outputs : List (List ℕ)) (k : ℕ) (b : Counts)
        → port_words (with_ends (58 ∷ []) (name_at outputs k)) b ≡ port_text (name_at outputs k) b }
{}

/// The output lines of a time are those of the instant at that time in the run of a network.
pub fn what_leaves_is_of_the_instant()
    ensures { (limit n port : ℕ) (bags : List Counts)
        → lines_from (time_of limit n) port bags ≡ outer_from limit n port bags }
{}
