//! The numbers on the axis of ticks.

use crate::label::Label;
use crate::path::{down, go_to};
use crate::scale::{Area, PICTURE, WIDTH};
use dv_trace::Text;

/// The most numbers on the axis, beside one more.
const MOST: u64 = 10;

/// The width of a digit, at most.
const DIGIT: u64 = 80;

// How many steps there may be on the axis, so that numbers have room. The first number may be moved
// to the right by half of its width.
fn most_steps(area: Area) -> u64 {
    let digits = itoa::Buffer::new().format(area.behind).len() as u64;
    let room = digits
        .saturating_mul(DIGIT + DIGIT / 2)
        .saturating_add(DIGIT);
    WIDTH.checked_div(room).unwrap_or(0).clamp(1, MOST)
}

// The ticks from one number on the axis to the next: 1, 2 or 5, or one of these with zeros behind
// it.
fn step_of(area: Area) -> u64 {
    let most = most_steps(area);
    let mut power: u64 = 1;
    for _digit in 0..20 {
        for multiple in [1_u64, 2, 5] {
            let step = power.saturating_mul(multiple);
            if area.ticks().checked_div(step).unwrap_or(0) <= most {
                return step;
            }
        }
        power = power.saturating_mul(10);
    }
    u64::MAX
}

// A number on the axis, counted from 0. The first one is the least multiple of the step that is not
// before the first tick.
fn number_at(area: Area, index: u64) -> Option<u64> {
    let step = step_of(area).max(1);
    let steps = area.grid.first.div_ceil(step).saturating_add(index);
    let tick = steps.saturating_mul(step);
    if tick < area.behind { Some(tick) } else { None }
}

/// Adds lines that lead down from the numbers on the axis, of this height, to a path.
pub(crate) fn add_lines(text: &mut Text, area: Area, height: u64) {
    for index in 0..MOST + 1 {
        if let Some(tick) = number_at(area, index) {
            go_to(text, area.place_of(tick), 0);
            down(text, height);
        }
    }
}

/// Adds the numbers on the axis, at this depth. All of them are within the picture.
pub(crate) fn add_numbers(text: &mut Text, area: Area, depth: u64) {
    for index in 0..MOST + 1 {
        if let Some(tick) = number_at(area, index) {
            let mut digits = itoa::Buffer::new();
            let words = digits.format(tick);
            let half = (words.len() as u64).saturating_mul(DIGIT / 2);
            let label = Label {
                class: "tick",
                x: area.place_of(tick).max(half),
                y: depth,
                room: PICTURE,
            };
            label.add(text, words);
        }
    }
}
