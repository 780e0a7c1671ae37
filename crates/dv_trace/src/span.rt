//! The part of a trace that is asked for: some ticks, and some components.

use dv_tree::Tree;
use std::alloc::{AllocError, Global};

/// The part of a trace that is asked for.
#[derive(Clone, Copy)]
pub struct Excerpt<'a> {
    /// The first tick; without it, tick 0.
    pub from: Option<u64>,
    /// The last tick, which is included; without it, the last one of the trace.
    pub to: Option<u64>,
    /// The path of a component, or of a coupled model with all components in it, if not all
    /// components and the root are asked for.
    pub only: Option<&'a str>,
}

impl Excerpt<'_> {
    /// The ticks that are asked for.
    pub fn span(&self) -> Span {
        Span {
            from: self.from.unwrap_or(0),
            before: match self.to {
                Some(last) => last.saturating_add(1),
                None => u64::MAX,
            },
        }
    }
}

/// The ticks from `from` on, and before `before`.
#[derive(Clone, Copy)]
pub struct Span {
    /// The first tick.
    pub from: u64,
    /// The tick behind the last one.
    pub before: u64,
}

/// Where a tick is, seen from a span.
#[derive(Clone, Copy, PartialEq, Eq)]
pub enum Side {
    /// Before the first tick of the span.
    Before,
    /// In the span.
    Within,
    /// Behind its last tick.
    Behind,
}

impl Span {
    /// Where a tick is.
    pub fn side_of(self, tick: u64) -> Side {
        if tick < self.from {
            Side::Before
        } else if tick < self.before {
            Side::Within
        } else {
            Side::Behind
        }
    }

    /// The part of the span that is within the first `ticks` ticks.
    pub fn cut(self, ticks: u64) -> Span {
        Span {
            from: self.from,
            before: self.before.min(ticks),
        }
    }

    /// The number of ticks in the span.
    pub fn ticks(self) -> u64 {
        self.before.saturating_sub(self.from)
    }
}

/// The components that are asked for, and whether the root is. The components of a coupled model
/// follow one another, so these are all from one to another.
#[derive(Clone, Copy)]
pub struct Chosen {
    // The number of the first component, and the number behind that of the last one.
    first: usize,
    behind: usize,
    has_root: bool,
}

impl Chosen {
    /// The components with the path `only`, or with one that begins with it and a dot; without
    /// `only` all components and the root. `None` if no component has such a path.
    ///
    /// # Errors
    ///
    /// An allocation was refused.
    pub fn of(
        alloc: Global,
        tree: &Tree<'_>,
        only: Option<&str>,
    ) -> Result<Option<Self>, AllocError> {
        let Some(only) = only else {
            return Ok(Some(Chosen {
                first: 0,
                behind: tree.component_count(),
                has_root: true,
            }));
        };
        let mut chosen: Option<Chosen> = None;
        for component in 0..tree.component_count() {
            let path = tree.path_text(alloc, component)?;
            if is_within(path.as_str(), only) {
                chosen = Some(Chosen {
                    first: match chosen {
                        Some(before) => before.first,
                        None => component,
                    },
                    behind: component.saturating_add(1),
                    has_root: false,
                });
            }
        }
        Ok(chosen)
    }

    /// Whether a component is asked for.
    pub fn has(self, component: usize) -> bool {
        self.first <= component && component < self.behind
    }

    /// Whether one of the components from `first` on and before `behind` is asked for.
    pub fn has_some(self, first: usize, behind: usize) -> bool {
        first < self.behind && self.first < behind
    }

    /// Whether the root is asked for: its inputs and outputs.
    pub fn has_root(self) -> bool {
        self.has_root
    }
}

// Whether a path is `around`, or begins with it and a dot.
fn is_within(path: &str, around: &str) -> bool {
    match path.strip_prefix(around) {
        Some(rest) => rest.is_empty() || rest.starts_with('.'),
        None => false,
    }
}
