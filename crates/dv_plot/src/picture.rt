//! What a trace shows, and the picture of it.

use crate::axis::{add_lines, add_numbers};
use crate::grid::{Grid, Moment};
use crate::label::Label;
use crate::path::{begin_path, end_path};
use crate::scale::{Area, LEFT, PICTURE, RIGHT};
use crate::subject::Subject;
use dv_text::{WriteError, hand_over};
use dv_trace::{LineHead, LineLists, Reach, TakeLine, Text, TraceError, TraceReader};
use dv_tree::Tree;
use std::alloc::Global;
use std::io::Write;

/// Columns are made twice as wide at most so often.
const MOST_FOLDS: u32 = 64;

/// The room above the first panel and below each panel.
const GAP: u64 = 120;

/// The height of the name above a panel.
const NAME: u64 = 220;

/// The height of the axis with its numbers.
const AXIS: u64 = 260;

/// The style of all that is drawn. Bands have a color each, one after the other.
const STYLE: &str = "<style>path{fill:none}\
text{font-family:sans-serif;font-size:120px}\
.name{font-weight:bold}.tick{text-anchor:middle}\
.frame{stroke:#bbbbbb;stroke-width:6px}\
.curve{stroke:#1f4e9c;stroke-width:14px}\
.dots{stroke:#b03a2e;stroke-width:50px;stroke-linecap:round}\
.band{stroke-width:110px}\
.b0{stroke:#1f4e9c}.b1{stroke:#2e8b57}.b2{stroke:#b8860b}\
.b3{stroke:#7b3f98}.b4{stroke:#00838f}.b5{stroke:#8d5524}\
.fault{stroke:#c00000}</style>\n";

/// What a trace shows. It takes the lines of the trace, and is then ready to be written.
#[derive(Drop)]
pub struct Picture<'t> {
    pub(crate) tree: &'t Tree<'t>,
    pub(crate) reader: Box<TraceReader<'t>>,
    pub(crate) subjects: Vec<Subject>,
    pub(crate) grid: Grid,
    /// The tick behind the last one that is shown.
    pub(crate) behind: u64,
}

impl Picture<'_> {
    // Follows a line.
    fn follow(&mut self, head: LineHead, lists: &LineLists<'_>) {
        let (time, component, event) = match head {
            LineHead::Entry(entry) => (entry.time, Some(entry.component), Some(entry.event)),
            LineHead::Outside(time) => (time, None, None),
            LineHead::Empty | LineHead::Whole(_) | LineHead::Clock(_) | LineHead::Partial => return,
        };
        if time.tick >= self.behind {
            return;
        }
        self.widen(time.tick);
        let moment = Moment {
            tick: time.tick,
            grid: self.grid,
        };
        for subject in &mut self.subjects {
            if subject.component == component {
                subject.follow(moment, event, lists);
            }
        }
    }

    // Makes columns twice as wide until they reach as far as a tick.
    fn widen(&mut self, tick: u64) {
        for _fold in 0..MOST_FOLDS {
            if self.grid.reaches(tick) {
                break;
            }
            self.grid.width = self.grid.width.saturating_mul(2);
            fold_all(&mut self.subjects);
        }
    }

    /// Ends the trace, which reaches this far. One tick at least is shown.
    pub(crate) fn end(&mut self, reach: Reach) {
        let first = self.grid.first;
        self.behind = tick_behind(reach)
            .min(self.behind)
            .max(first.saturating_add(1));
        let end = Moment {
            tick: self.behind,
            grid: self.grid,
        };
        for subject in &mut self.subjects {
            subject.finish(end);
        }
    }

    /// Writes the picture as an SVG file.
    ///
    /// # Errors
    ///
    /// A write failed, or an allocation was refused. The writer holds a beginning of the picture,
    /// perhaps nothing.
    pub fn write<W: Write>(&self, alloc: Global, writer: &mut W) -> Result<(), WriteError> {
        let mut text = Text::new(alloc);
        self.add_to(&mut text);
        hand_over(writer, text.whole()?.as_bytes())
    }

    fn add_to(&self, text: &mut Text) {
        let area = Area {
            grid: self.grid,
            behind: self.behind,
        };
        self.add_start(text);
        let mut top = GAP;
        for subject in &self.subjects {
            self.add_panel(text, subject, area, top);
            top = top.saturating_add(step_below(subject));
        }
        add_numbers(text, area, top.saturating_add(60));
        text.add("</svg>\n");
    }

    fn add_start(&self, text: &mut Text) {
        let mut height = GAP.saturating_add(AXIS);
        for subject in &self.subjects {
            height = height.saturating_add(step_below(subject));
        }
        let (width, low) = (PICTURE / 10, height / 10);
        text.show(format_args!(
            "<svg xmlns=\"http://www.w3.org/2000/svg\" width=\"{width}\" height=\"{low}\" \
             viewBox=\"0 0 {PICTURE} {height}\">\n\
             {STYLE}<rect width=\"{PICTURE}\" height=\"{height}\" fill=\"#ffffff\"/>\n"
        ));
    }

    // Adds a panel: its name, a frame with lines that lead down from the numbers on the axis, and
    // what it shows.
    fn add_panel(&self, text: &mut Text, subject: &Subject, area: Area, top: u64) {
        let label = Label {
            class: "name",
            x: LEFT,
            y: top.saturating_add(130),
            room: PICTURE - LEFT,
        };
        label.add(text, subject.name.as_str());
        let (top, height) = (top.saturating_add(NAME), subject.height());
        text.show(format_args!("<g transform=\"translate(0 {top})\">\n"));
        begin_path(text, "frame");
        text.show(format_args!("M{LEFT} 0H{RIGHT}V{height}H{LEFT}Z"));
        add_lines(text, area, height);
        end_path(text);
        subject.add_to(text, self.tree, area);
        text.add("</g>\n");
    }
}

fn fold_all(subjects: &mut [Subject]) {
    for subject in subjects {
        subject.fold();
    }
}

// From the upper edge of a panel to that of the next one.
fn step_below(subject: &Subject) -> u64 {
    NAME.saturating_add(subject.height()).saturating_add(GAP)
}

/// The tick behind the last one of a trace.
pub(crate) fn tick_behind(reach: Reach) -> u64 {
    match reach {
        Reach::Whole(horizon) => horizon.saturating_add(1),
        Reach::Partial(Some(time)) | Reach::NoEnd(Some(time)) => time.tick,
        Reach::Partial(None) | Reach::NoEnd(None) => 0,
    }
}

impl TakeLine for Picture<'_> {
    type Error = TraceError;

    fn take_line<'a>(
        &mut self,
        line: &'a [u8],
        lists: &mut LineLists<'a>,
    ) -> Result<(), TraceError> {
        let head = self.reader.read_into(line, lists)?;
        self.follow(head, lists);
        Ok(())
    }
}
