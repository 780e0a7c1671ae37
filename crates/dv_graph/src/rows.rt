//! The rows into which a long line of nodes is broken, so that a picture is not much wider than
//! high.

use crate::joined::JoinedLinks;
use std::alloc::{AllocError, Global};

/// The greatest number of columns in a row.
const ROW_LENGTH: u32 = 12;

/// The row of each part of the root.
#[derive(Drop)]
pub(crate) struct Rows<'n> {
    // The part of each node.
    parts: &'n [u32],
    // The least column of each part, as if there were one row.
    columns: Vec<u32>,
}

impl<'n> Rows<'n> {
    /// The rows of nodes whose parts are given. In a single row each node would come behind all
    /// nodes from which links lead to it, except where links form a cycle. A part is drawn in the
    /// row of its first node.
    ///
    /// # Errors
    ///
    /// Memory is refused.
    pub(crate) fn of(
        alloc: Global,
        parts: &'n [u32],
        links: &[JoinedLinks],
    ) -> Result<Self, AllocError> {
        let nodes = placed_nodes(alloc, parts.len(), links)?;
        let count = parts.iter().copied().max().unwrap_or(0).saturating_add(1);
        let mut columns = vec![in alloc; u32::MAX; count as usize]?;
        for (part, node) in parts.iter().zip(&nodes) {
            if let Some(least) = columns.get_mut(*part as usize) {
                *least = (*least).min(node.column);
            }
        }
        Ok(Rows { parts, columns })
    }

    /// Whether links lead from one row to another.
    pub(crate) fn are_between(&self, links: &JoinedLinks) -> bool {
        self.row_of(links.from) != self.row_of(links.to)
    }

    fn row_of(&self, node: u32) -> u32 {
        let part = self.parts.get(node as usize).copied().unwrap_or(0);
        self.columns.get(part as usize).copied().unwrap_or(0) / ROW_LENGTH
    }
}

// The nodes, `count` of them, each with its column.
fn placed_nodes(
    alloc: Global,
    count: usize,
    links: &[JoinedLinks],
) -> Result<Vec<PlacedNode>, AllocError> {
    let mut placing = Placing::new(alloc, count)?;
    placing.place_all(links)?;
    Ok(placing.nodes)
}

/// A node and its column.
#[derive(Clone, Copy)]
struct PlacedNode {
    // The column, or the least possible one while the node is not placed.
    column: u32,
    is_placed: bool,
    // How many links lead to it from nodes that are not placed.
    waiting: u32,
}

impl PlacedNode {
    // Notes that a node from which a link leads here is placed, so that this node is in `column` or
    // behind it. Answers whether this node can be placed now.
    fn is_ready_behind(&mut self, column: u32) -> bool {
        if self.is_placed {
            return false;
        }
        self.column = self.column.max(column);
        self.waiting = self.waiting.saturating_sub(1);
        self.waiting == 0
    }
}

/// Nodes that are being placed.
#[derive(Drop)]
struct Placing {
    nodes: Vec<PlacedNode>,
    // The nodes to which links lead, for each node.
    targets: Vec<Vec<u32>>,
    // The nodes that are not placed and wait for no other node.
    ready: Vec<usize>,
}

impl Placing {
    fn new(alloc: Global, count: usize) -> Result<Self, AllocError> {
        let node = PlacedNode {
            column: 0,
            is_placed: false,
            waiting: 0,
        };
        let mut placing = Placing {
            nodes: vec![in alloc; node; count]?,
            targets: Vec::new(alloc),
            ready: Vec::new(alloc),
        };
        placing.targets.resize_with(count, || Vec::new(alloc))?;
        Ok(placing)
    }

    fn place_all(&mut self, links: &[JoinedLinks]) -> Result<(), AllocError> {
        for link in links {
            self.add(link)?;
        }
        self.find_ready()?;
        for _node in 0..self.nodes.len() {
            if let Some(node) = self.next() {
                self.place(node)?;
            }
        }
        Ok(())
    }

    fn add(&mut self, link: &JoinedLinks) -> Result<(), AllocError> {
        if let Some(targets) = self.targets.get_mut(link.from as usize)
            && let Some(node) = self.nodes.get_mut(link.to as usize)
        {
            targets.push(link.to)?;
            node.waiting = node.waiting.saturating_add(1);
        }
        Ok(())
    }

    // Lists the nodes that wait for none. The first node comes last, since `next` takes the last
    // one.
    fn find_ready(&mut self) -> Result<(), AllocError> {
        for (index, node) in self.nodes.iter().enumerate().rev() {
            if node.waiting == 0 {
                self.ready.push(index)?;
            }
        }
        Ok(())
    }

    // The next node to place: one that waits for none, or the first one if links form a cycle.
    fn next(&mut self) -> Option<usize> {
        match self.ready.pop() {
            Some(node) => Some(node),
            None => self.nodes.iter().position(|node| !node.is_placed),
        }
    }

    // Places a node. The nodes to which links lead from it come behind it, unless they are placed
    // already.
    fn place(&mut self, index: usize) -> Result<(), AllocError> {
        if let Some(node) = self.nodes.get_mut(index)
            && let Some(targets) = self.targets.get(index)
        {
            node.is_placed = true;
            let behind = node.column.saturating_add(1);
            for target in targets {
                if let Some(node) = self.nodes.get_mut(*target as usize)
                    && node.is_ready_behind(behind)
                {
                    self.ready.push(*target as usize)?;
                }
            }
        }
        Ok(())
    }
}
