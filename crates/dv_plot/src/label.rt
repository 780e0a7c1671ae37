//! Texts in the picture.

use crate::scale::{Extent, RIGHT};
use dv_trace::Text;

/// Where texts beside the area begin, from the left, and their room.
const BESIDE: u64 = RIGHT + 60;

const ROOM: u64 = 1_200;

/// A text, at a place from the left and from above.
#[derive(Clone, Copy)]
pub(crate) struct Label {
    /// The class, which gives its style.
    pub(crate) class: &'static str,
    pub(crate) x: u64,
    pub(crate) y: u64,
    /// How wide it may be.
    pub(crate) room: u64,
}

impl Label {
    /// Adds the text. No letter is wider than 120 tenths of a pixel, and most have at most 75. A
    /// text that may have no room is made as wide as most letters are, and smaller if that is wider
    /// than its room. The size is given, too, for programs that don't know `textLength`.
    pub(crate) fn add(self, text: &mut Text, words: &str) {
        let Label { class, x, y, room } = self;
        text.show(format_args!("<text class=\"{class}\" x=\"{x}\" y=\"{y}\""));
        let letters = words.chars().count() as u64;
        if letters.saturating_mul(120) > room {
            let length = letters.saturating_mul(75).min(room);
            let size = length
                .saturating_mul(8)
                .checked_div(letters.saturating_mul(5));
            let size = size.unwrap_or(120);
            text.show(format_args!(
                " textLength=\"{length}\" lengthAdjust=\"spacingAndGlyphs\" \
                 style=\"font-size:{size}px\""
            ));
        }
        text.show(format_args!(">{words}</text>\n"));
    }
}

/// Adds a text beside the area, at this depth.
pub(crate) fn add_beside(text: &mut Text, depth: u64, words: &str) {
    let label = Label {
        class: "beside",
        x: BESIDE,
        y: depth.saturating_add(40),
        room: ROOM,
    };
    label.add(text, words);
}

/// Adds the greatest value and the least one, beside their places. The values of a flag are words.
pub(crate) fn add_extent(text: &mut Text, extent: Extent, is_flag: bool) {
    add_value(text, extent, extent.greatest, is_flag);
    if extent.least < extent.greatest {
        add_value(text, extent, extent.least, is_flag);
    }
}

fn add_value(text: &mut Text, extent: Extent, value: i64, is_flag: bool) {
    let mut digits = itoa::Buffer::new();
    let words = match (is_flag, value) {
        (true, 0) => "false",
        (true, _) => "true",
        (false, _) => digits.format(value),
    };
    add_beside(text, extent.depth_of(value), words);
}
