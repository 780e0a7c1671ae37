//! Laws of texts. Each function states a law or worked rows in its contract; its body does nothing.

ghost use Rattle.std.specs.Prelude.{◌≡◌, ◌+◌, ◌-◌, ◌<◌, ◌≤◌, ◌^◌, ℕ, IsTrue, List, [], ◌∷◌, ◌++◌, All, length};
ghost use Rattle.std.specs.Prelude.{codes, Some, None, Ok, Err, ℤ, pos, neg_ℤ};
ghost use Rattle.std.specs.Fmt.{decimal, signed_decimal};
ghost use Rattle.dv_bag.specs.Bag.{is_number};
ghost use Rattle.dv_bag.specs.Inputs.{IsByTime, start_of};
ghost use Rattle.dv_bag.specs.declared.inputs.Input.{Input};
ghost use Rattle.dv_time.specs.Limits.{greatest_limit, greatest_tick};
ghost use Rattle.dv_time.specs.Time.{IsOfRun, time_text};
ghost use Rattle.dv_time.specs.declared.time.Time.{Time};
ghost use Rattle.dv_inputs.specs.Lines.{fields_of, lines_of, without_return};
ghost use Rattle.dv_inputs.specs.Numbers.{tick_in, time_in, value_in};
ghost use Rattle.dv_inputs.specs.Reading.{reading_of};
ghost use Rattle.dv_inputs.specs.Rows.{feed, input, input_at, refusal, return_feed, two_lines, x_and_y};
ghost use Rattle.dv_inputs.specs.Spelled.{CanBeSaid, EndsField, HasNoFeed, IsBlank, IsField, text_of};
ghost use Rattle.dv_inputs.specs.declared.error.InputRefusalNumber.TheVariants.{I1, I2, I3, I4, I5};

/// Each input of a text is at one of the ports.
pub fn inputs_are_at_ports()
    ensures { (text : List ℕ) (ports : List (List ℕ)) (limit : ℕ) (inputs : List Input)
        → reading_of text ports limit ≡ Ok inputs → All (λ i. i.port < length ports) inputs }
{}

/// Each input of a text is at a time of the run: its microstep is within the limit.
pub fn inputs_are_within_the_limit()
    ensures { (text : List ℕ) (ports : List (List ℕ)) (limit : ℕ) (inputs : List Input)
        → reading_of text ports limit ≡ Ok inputs → All (λ i. IsOfRun limit i.time) inputs }
{}

/// A greater limit reads what a smaller one reads. So a text without microsteps is read the same
/// under every limit.
pub fn a_greater_limit_reads_the_same()
    ensures { (text : List ℕ) (ports : List (List ℕ)) (limit more : ℕ) (inputs : List Input)
        → limit ≤ more → reading_of text ports limit ≡ Ok inputs
        → reading_of text ports more ≡ Ok inputs }
{}

/// A line ends at its line feed, or with the text, and one carriage return before that is dropped.
pub fn lines_end_at_line_feeds()
    ensures line { (line rest : List ℕ) → HasNoFeed line
        → lines_of (line ++ 10 ∷ rest) ≡ line ∷ lines_of rest }
    ensures last { (line : List ℕ) → HasNoFeed line → 0 < length line
        → lines_of line ≡ line ∷ [] }
    ensures carriage_return { (line : List ℕ) → without_return (line ++ 13 ∷ []) ≡ line }
{}

/// The fields of a line are what is between blanks.
pub fn fields_stand_between_blanks()
    ensures blanks { (blanks rest : List ℕ) → IsBlank blanks
        → fields_of (blanks ++ rest) ≡ fields_of rest }
    ensures field { (field rest : List ℕ) → IsField field → EndsField rest
        → fields_of (field ++ rest) ≡ field ∷ fields_of rest }
{}

/// A tick without a microstep means its start, with any number of leading zeros.
pub fn a_tick_alone_says_its_start()
    ensures { (field : List ℕ) (tick : ℕ) → tick_in field ≡ Some tick
        → time_in field ≡ Some (start_of tick) }
{}

/// A tick, a time and a value are read as they are printed.
pub fn numbers_are_read_as_printed()
    ensures tick { (tick : ℕ) → tick ≤ greatest_tick → tick_in (decimal tick) ≡ Some tick }
    ensures time { (time : Time) → time.tick ≤ greatest_tick → time.micro ≤ greatest_limit
        → time_in (time_text time) ≡ Some time }
    ensures value { (value : ℤ) → IsTrue (is_number value)
        → value_in (signed_decimal value) ≡ Some value }
{}

/// A tick above the greatest is refused, and so is a time whose microstep is above the greatest
/// limit.
pub fn numbers_past_the_greatest_are_refused()
    ensures tick { (tick : ℕ) → greatest_tick < tick → tick < 2 ^ 64
        → tick_in (decimal tick) ≡ None }
    ensures microstep { (time : Time) → greatest_limit < time.micro → time.tick < 2 ^ 64
        → time.micro < 2 ^ 64 → time_in (time_text time) ≡ None }
{}

/// Inputs within a limit that are written as a text, one in a line, are read from it, all of them
/// and in order.
pub fn inputs_are_read_as_written()
    ensures { (ports : List (List ℕ)) (limit : ℕ) (inputs : List Input)
        → IsByTime inputs → All (CanBeSaid ports limit) inputs
        → reading_of (text_of ports inputs) ports limit ≡ Ok inputs }
{}

/// What lines mean.
pub fn rows_of_inputs()
    ensures once { reading_of (codes "5 x 10") x_and_y 20 ≡ Ok (input 5 0 (pos 10) ∷ []) }
    ensures copies { reading_of (two_lines (codes "5 y 10") feed (codes "5 y 10")) x_and_y 20
        ≡ Ok (input 5 1 (pos 10) ∷ input 5 1 (pos 10) ∷ []) }
    ensures carriage_return { reading_of
        (two_lines (codes "5 x 10") return_feed (codes "6 y 11")) x_and_y 20
        ≡ Ok (input 5 0 (pos 10) ∷ input 6 1 (pos 11) ∷ []) }
    ensures comment { reading_of (two_lines (codes "# 9 x 1") feed (codes "5 x 10")) x_and_y 20
        ≡ Ok (input 5 0 (pos 10) ∷ []) }
    ensures leading_zeros { reading_of (codes "005 x -0010") x_and_y 20
        ≡ Ok (input 5 0 (neg_ℤ (pos 10)) ∷ []) }
    ensures leading_zeros_of_a_microstep { reading_of (codes "005.007 x -0010") x_and_y 20
        ≡ Ok (input_at 5 7 0 (neg_ℤ (pos 10)) ∷ []) }
    ensures blanks { reading_of (codes "  5  x 10 ") x_and_y 20 ≡ Ok (input 5 0 (pos 10) ∷ []) }
    ensures limits { reading_of (codes "1000000000000000 x -9223372036854775808") x_and_y 20
        ≡ Ok (input greatest_tick 0 (neg_ℤ (pos (2 ^ 63))) ∷ []) }
    ensures limit_of_microsteps { reading_of (codes "5.1000 x 9223372036854775807") x_and_y 1000
        ≡ Ok (input_at 5 greatest_limit 0 (pos (2 ^ 63 - 1)) ∷ []) }
    ensures comment_of_any_bytes { reading_of (35 ∷ 255 ∷ 10 ∷ codes "5 x 10") x_and_y 20
        ≡ Ok (input 5 0 (pos 10) ∷ []) }
    ensures microsteps { reading_of (two_lines (codes "1 x 7") feed (codes "1.2 x 5")) x_and_y 20
        ≡ Ok (input 1 0 (pos 7) ∷ input_at 1 2 0 (pos 5) ∷ []) }
    ensures written_start { reading_of (two_lines (codes "5 x 1") feed (codes "5.0 y 2")) x_and_y 0
        ≡ Ok (input 5 0 (pos 1) ∷ input 5 1 (pos 2) ∷ []) }
{}

/// Which lines are refused, and why.
pub fn rows_of_refusals()
    ensures two_fields { reading_of (codes "5 x") x_and_y 20 ≡ Err (refusal I1 1) }
    ensures sign_before_a_blank { reading_of (codes " # 5 x") x_and_y 20 ≡ Err (refusal I1 1) }
    ensures unknown_port { reading_of (codes "5 z 10") x_and_y 20 ≡ Err (refusal I2 1) }
    ensures falling_tick { reading_of (two_lines (codes "5 x 1") feed (codes "4 x 1")) x_and_y 20
        ≡ Err (refusal I3 2) }
    ensures falling_tick_of_a_later_microstep { reading_of
        (two_lines (codes "5 x 1") feed (codes "4.7 x 1")) x_and_y 20
        ≡ Err (refusal I3 2) }
    ensures falling_microstep { reading_of
        (two_lines (codes "5.2 x 1") feed (codes "5.1 x 1")) x_and_y 20
        ≡ Err (refusal I3 2) }
    ensures back_to_the_start { reading_of
        (two_lines (codes "5.1 x 1") feed (codes "5 x 1")) x_and_y 20
        ≡ Err (refusal I3 2) }
    ensures any_bytes { reading_of (codes "5 x 1" ++ 255 ∷ []) x_and_y 20 ≡ Err (refusal I1 1) }
    ensures tick_past_the_greatest { reading_of (codes "1000000000000001 x 1") x_and_y 20
        ≡ Err (refusal I1 1) }
    ensures tick_past_64_bits { reading_of (codes "18446744073709551616 x 1") x_and_y 20
        ≡ Err (refusal I1 1) }
    ensures microstep_past_the_greatest { reading_of (codes "5.1001 z 1") x_and_y greatest_limit
        ≡ Err (refusal I1 1) }
    ensures no_microstep { reading_of (codes "5. x 1") x_and_y 20 ≡ Err (refusal I1 1) }
    ensures no_tick { reading_of (codes ".5 x 1") x_and_y 20 ≡ Err (refusal I1 1) }
    ensures two_dots { reading_of (codes "1.2.3 x 1") x_and_y 20 ≡ Err (refusal I1 1) }
    ensures value_past_the_greatest { reading_of (codes "5 x 9223372036854775808") x_and_y 20
        ≡ Err (refusal I4 1) }
    ensures second_return { reading_of (codes "5 x 1" ++ 13 ∷ 13 ∷ 10 ∷ []) x_and_y 20
        ≡ Err (refusal I4 1) }
    ensures plus { reading_of (codes "5 x +1") x_and_y 20 ≡ Err (refusal I4 1) }
    ensures past_the_limit { reading_of
        (two_lines (codes "1 x 7") feed (two_lines (codes "1.1 x 5") feed (codes "1.2 x 1")))
        x_and_y 1 ≡ Err (refusal I5 3) }
    ensures least_number { reading_of (two_lines (codes "5 x 1") feed (codes "4 z q")) x_and_y 20
        ≡ Err (refusal I2 2) }
    ensures last_number { reading_of (codes "5.2 x q") x_and_y 1 ≡ Err (refusal I4 1) }
{}
