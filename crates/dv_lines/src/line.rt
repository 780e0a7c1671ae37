//! The lines of a trace, as texts that are put into a room.

ghost use Rattle.std.specs.Prelude.{◌≡◌, ◌≤◌, ◌+◌, ◌++◌, ◌∷◌, [], codes, length, map, IfSome};
ghost use Rattle.dv_bag.specs.Words.{fault_word, kind_word};
ghost use Rattle.dv_bag.specs.declared.entry.What.TheVariants as what;
ghost use Rattle.dv_time.specs.Time.{time_text};
ghost use Rattle.dv_written.specs.Rooms.{IsPut};
ghost use Rattle.dv_lines.specs.Components.{words_found};
ghost use Rattle.dv_lines.specs.Tables.{rows_found, words_at};
ghost use Rattle.dv_lines.specs.Words.{IsWithin, line_words, no_words, phase_at, plain_words, row_words, sent_words, state_words, without, word_text};

use crate::pieces::{Word, bytes_of, put_byte, put_near_byte, put_path, put_word};
use crate::stamp::Stamp;
use crate::values::{put_near_variable, put_sent, put_values, put_variables, rest_of};
use crate::words::{Row, Words};
use dv_bag::{Bag, Fault, Kind, Sent, State};
use dv_written::{Text, put_bytes};

/// The words of a component, within the words of all components.
#[derive(Clone, Copy)]
pub struct ComponentWords<'w> {
    /// The words of all components.
    pub all: &'w Words,
    /// The number of the component. There may be no such component.
    pub component: u32,
}

impl<'w> ComponentWords<'w> {
    /// The words of a component. If there is no component of this number, it has an empty path and
    /// no names.
    #[inline(always)]
    pub fn of(all: &'w Words, component: u32) -> Self
        ensures { words_found result ≡ words_at (rows_found all.now) component }
    {
        ComponentWords { all, component }
    }
}

// Puts the front of a line: the time and the path of a component. Behind it there is room for 19
// bytes.
#[inline(always)]
fn put_front(to: &mut [u8], stamp: &Stamp, words: &Words, path: &Word) -> Option<usize>
    ensures size { length to.new ≡ length to.old }
    ensures room { IfSome result (λ end. end + 19 ≤ length to.new) }
    ensures text { IfSome result (λ end. IsPut to.old 0 to.new end
        (time_text stamp.now ++ word_text words.now.bytes path.now)) }
{
    let at = stamp.put_first(to)?;
    put_path(to, at, words.as_bytes(), path)
}

// The letter of a kind of transition.
#[inline(always)]
fn letter_of(kind: Kind) -> u8
    ensures { result ∷ [] ≡ kind_word kind }
{
    kind.word().as_bytes()[0]
}

// Puts the word of a phase without as many bytes at its end as another word has.
fn put_without(to: &mut [u8], at: usize, bytes: &[u8], phase: &Word, end: &Word) -> Option<usize>
    requires { at ≤ length to.old }
    ensures size { length to.new ≡ length to.old }
    ensures text { IfSome result (λ after. IsPut to.old at to.new after
        (without (word_text bytes.now end.now) (word_text bytes.now phase.now))) }
{
    let phase = bytes_of(bytes, phase);
    let alone = phase.len().saturating_sub(bytes_of(bytes, end).len());
    put_bytes(to, at, &phase[..alone])
}

// Puts a phase alone, or a blank if there is no such phase.
fn put_phase(to: &mut [u8], at: usize, words: &Words, row: &Row, phase: u32) -> Option<usize>
    requires at { at ≤ length to.old }
    requires within { IsWithin (length words.now.words) row.now }
    ensures size { length to.new ≡ length to.old }
    ensures text { IfSome result (λ end. IsPut to.old at to.new end
        (phase_at (row_words words.now.bytes words.now.words row.now).phases phase)) }
{
    let Some(word) = words.phases(row).get(phase as usize) else {
        return put_byte(to, at, b' ');
    };
    match words.variables(row).first() {
        Some(first) => put_without(to, at, words.as_bytes(), word, first),
        None => put_word(to, at, words.as_bytes(), word),
    }
}

// Puts a phase and the variables one by one.
#[inline(never)]
fn put_plain_state(
    to: &mut [u8],
    at: usize,
    words: &Words,
    row: &Row,
    state: &State,
) -> Option<usize>
    requires at { at ≤ length to.old }
    requires within { IsWithin (length words.now.words) row.now }
    ensures size { length to.new ≡ length to.old }
    ensures text { IfSome result (λ end. IsPut to.old at to.new end
        (plain_words (row_words words.now.bytes words.now.words row.now) state.now)) }
{
    let at = put_phase(to, at, words, row, state.phase)?;
    let values = state.variables.as_slice();
    put_variables(to, at, words.as_bytes(), words.variables(row), values)
}

// Puts a phase and the variables. The phase and the name of the first variable are put at once.
#[inline(always)]
fn put_state(to: &mut [u8], at: usize, words: &Words, row: &Row, state: &State) -> Option<usize>
    requires at { at + 18 ≤ length to.old }
    requires within { IsWithin (length words.now.words) row.now }
    ensures size { length to.new ≡ length to.old }
    ensures text { IfSome result (λ end. IsPut to.old at to.new end
        (state_words (row_words words.now.bytes words.now.words row.now) state.now)) }
{
    let values = state.variables.as_slice();
    if row.place.variables == 0 {
        return put_plain_state(to, at, words, row, state);
    }
    let (Some(lead), Some(first)) = (words.phases(row).get(state.phase as usize), values.first())
    else {
        return put_plain_state(to, at, words, row, state);
    };
    let at = put_near_variable(to, at, words.as_bytes(), lead, first)?;
    put_variables(
        to,
        at,
        words.as_bytes(),
        rest_of(words.variables(row)),
        rest_of(values),
    )
}

// Puts what was sent, and the end of the line.
#[inline(always)]
fn put_rest(to: &mut [u8], at: usize, words: &Words, row: &Row, sent: &Sent) -> Option<usize>
    requires at { at ≤ length to.old }
    requires within { IsWithin (length words.now.words) row.now }
    ensures size { length to.new ≡ length to.old }
    ensures text { IfSome result (λ end. IsPut to.old at to.new end
        (sent_words (row_words words.now.bytes words.now.words row.now).outputs sent.now
        ++ (10 ∷ []))) }
{
    let at = put_sent(to, at, words, row, sent)?;
    put_byte(to, at, b'\n')
}

/// The line of a transition, with the state after it and what the component sent.
#[derive(Drop)]
pub struct TransitionLine<'l> {
    /// The words of the component.
    pub words: ComponentWords<'l>,
    /// The time.
    pub stamp: &'l Stamp,
    /// The kind of transition.
    pub kind: Kind,
    /// The state after it.
    pub state: &'l State,
    /// What the component sent.
    pub sent: &'l Sent,
}

impl<'l> TransitionLine<'l> {
    // Puts the line of a component that the tree doesn't have.
    #[inline(never)]
    fn put_unknown(&self, to: &mut [u8]) -> Option<usize>
        ensures size { length to.new ≡ length to.old }
        ensures text { IfSome result (λ end. IsPut to.old 0 to.new end
            (line_words no_words self.now.stamp.now
            (what.Transition self.now.kind self.now.state.now) self.now.sent.now)) }
    {
        let at = self.stamp.put_first(to)?;
        let at = put_bytes(to, at, b"  ")?;
        let at = put_byte(to, at, letter_of(self.kind))?;
        put_bytes(to, at, b" \n")
    }
}

impl<'l> Text for TransitionLine<'l> {
    ghost use Rattle.dv_bag.specs.declared.entry.What.TheVariants as what;
    ghost use Rattle.dv_lines.specs.Components.{words_found};
    ghost use Rattle.dv_lines.specs.Words.{line_words};

    ghost bytes = { λ l. line_words (words_found l.words) l.stamp.now
        (what.Transition l.kind l.state.now) l.sent.now };

    #[inline(always)]
    fn put(&self, to: &mut [u8]) -> Option<usize> {
        let words = self.words.all;
        let Some(row) = words.row(self.words.component) else {
            return self.put_unknown(to);
        };
        let at = put_front(to, self.stamp, words, &row.path)?;
        put_near_byte(to, at, letter_of(self.kind));
        let at = put_state(to, at + 1, words, row, self.state)?;
        put_rest(to, at, words, row, self.sent)
    }
}

/// The line of a fault, with what the component sent.
#[derive(Drop)]
pub struct FaultLine<'l> {
    /// The time.
    pub stamp: &'l Stamp,
    /// The words of the component.
    pub words: ComponentWords<'l>,
    /// The fault.
    pub fault: Fault,
    /// What the component sent.
    pub sent: &'l Sent,
}

// Puts what a fault is called.
fn put_fault(to: &mut [u8], at: usize, fault: Fault) -> Option<usize>
    requires { at ≤ length to.old }
    ensures size { length to.new ≡ length to.old }
    ensures text { IfSome result (λ end. IsPut to.old at to.new end
        (codes "fault " ++ fault_word fault)) }
{
    let at = put_bytes(to, at, b"fault ")?;
    put_bytes(to, at, fault.word().as_bytes())
}

impl<'l> FaultLine<'l> {
    // Puts the line of a component that the tree doesn't have.
    fn put_unknown(&self, to: &mut [u8]) -> Option<usize>
        ensures size { length to.new ≡ length to.old }
        ensures text { IfSome result (λ end. IsPut to.old 0 to.new end
            (line_words no_words self.now.stamp.now
            (what.Fault self.now.fault) self.now.sent.now)) }
    {
        let at = self.stamp.put_first(to)?;
        let at = put_bytes(to, at, b"  ")?;
        let at = put_fault(to, at, self.fault)?;
        put_byte(to, at, b'\n')
    }
}

impl<'l> Text for FaultLine<'l> {
    ghost use Rattle.dv_bag.specs.declared.entry.What.TheVariants as what;
    ghost use Rattle.dv_lines.specs.Components.{words_found};
    ghost use Rattle.dv_lines.specs.Words.{line_words};

    ghost bytes = { λ l. line_words (words_found l.words) l.stamp.now
        (what.Fault l.fault) l.sent.now };

    fn put(&self, to: &mut [u8]) -> Option<usize> {
        let words = self.words.all;
        let Some(row) = words.row(self.words.component) else {
            return self.put_unknown(to);
        };
        let at = put_front(to, self.stamp, words, &row.path)?;
        let at = put_fault(to, at, self.fault)?;
        put_rest(to, at, words, row, self.sent)
    }
}

/// The front of an output line: the time and `out`.
#[derive(Drop)]
pub struct OutFront<'l> {
    /// The time.
    pub stamp: &'l Stamp,
}

impl<'l> Text for OutFront<'l> {
    ghost use Rattle.std.specs.Prelude.{◌++◌, codes};
    ghost use Rattle.dv_time.specs.Time.{time_text};

    ghost bytes = { λ l. time_text l.stamp.now ++ codes " out" };

    fn put(&self, to: &mut [u8]) -> Option<usize> {
        let at = self.stamp.put_first(to)?;
        put_bytes(to, at, b" out")
    }
}

/// A port of an output line with its values. A port without values has no text.
#[derive(Drop)]
pub struct OutPort<'l> {
    /// The bytes that the word is in.
    pub bytes: &'l [u8],
    /// The name of the port, as ` NAME:`.
    pub word: &'l Word,
    /// The values that left.
    pub values: &'l Bag,
}

impl<'l> Text for OutPort<'l> {
    ghost use Rattle.dv_lines.specs.Words.{port_words, word_text};

    ghost bytes = { λ l. port_words (word_text l.bytes.now l.word.now) l.values.now };

    fn put(&self, to: &mut [u8]) -> Option<usize> {
        if self.values.is_empty() {
            return Some(0);
        }
        let at = put_word(to, 0, self.bytes, self.word)?;
        put_values(to, at, self.values)
    }
}
