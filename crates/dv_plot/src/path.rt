//! The pieces of paths. A place is in tenths of a pixel from the left, or from above.

use dv_trace::Text;

/// Begins a path that has a class.
pub(crate) fn begin_path(text: &mut Text, class: &str) {
    text.show(format_args!("<path class=\"{class}\" d=\""));
}

/// Goes to a place without a line.
pub(crate) fn go_to(text: &mut Text, x: u64, y: u64) {
    text.show(format_args!("M{x} {y}"));
}

/// Draws a line to a place from the left, at the same depth.
pub(crate) fn across(text: &mut Text, x: u64) {
    text.show(format_args!("H{x}"));
}

/// Draws a line to a depth, at the same place from the left.
pub(crate) fn down(text: &mut Text, y: u64) {
    text.show(format_args!("V{y}"));
}

/// Ends a path.
pub(crate) fn end_path(text: &mut Text) {
    text.add("\"/>\n");
}
