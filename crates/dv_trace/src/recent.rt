//! How the last lines began. Most lines have the time of the line before, and components mostly
//! come in the same order as at the instant before. So a line is compared with these first, which
//! is faster than to read a time and to look up a path.

use dv_time::Time;
use std::alloc::{AllocError, Global};

/// The last time, and the order in which components came.
#[derive(Drop)]
pub(crate) struct Recent {
    time: Option<Time>,
    // The text of the time, and a blank.
    stamp: String,
    // The last component.
    component: u32,
    // For each component the one that followed it last; at first the one with the next number.
    followers: Vec<u32>,
}

impl Recent {
    /// The state before the first line, for a model with this number of components.
    pub(crate) fn new(alloc: Global, components: usize) -> Result<Self, AllocError> {
        let mut followers = Vec::with_capacity(alloc, components)?;
        let mut next: u32 = 0;
        for _component in 0..components {
            next = next.saturating_add(1);
            followers.push(next)?;
        }
        Ok(Recent {
            time: None,
            stamp: String::new(alloc),
            component: 0,
            followers,
        })
    }

    /// The last time, and the rest of a line that begins with it and a blank. `None` if the line
    /// doesn't.
    pub(crate) fn split_time<'a>(&self, line: &'a str) -> Option<(Time, &'a str)> {
        let time = self.time?;
        let rest = line.strip_prefix(self.stamp.as_str())?;
        Some((time, rest))
    }

    /// Keeps the time of a line. `word` is its text.
    pub(crate) fn keep_time(&mut self, time: Time, word: &str) -> Result<(), AllocError> {
        self.time = None;
        self.stamp.clear();
        self.stamp.push_str(word)?;
        self.stamp.push(' ')?;
        self.time = Some(time);
        Ok(())
    }

    /// The component that is likely to come next.
    pub(crate) fn follower(&self) -> Option<u32> {
        self.followers.get(self.component as usize).copied()
    }

    /// Keeps the component of a line.
    pub(crate) fn keep_component(&mut self, component: u32) {
        if let Some(follower) = self.followers.get_mut(self.component as usize)
            && *follower != component
        {
            *follower = component;
        }
        self.component = component;
    }
}
