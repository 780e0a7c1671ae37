//! Shapes and sorts for lists of instructions.

use dv_bag::Discipline;
use dv_code::{ProgramSort, Shape, Slot, Tables};
use std::alloc::{AllocError, Global};
use std::sync::Arc;

/// A bag of at most 4 values.
const BAG: Slot = Slot::Holding {
    discipline: Discipline::Bag,
    capacity: 4,
};

/// A queue of at most 4 values.
const QUEUE: Slot = Slot::Holding {
    discipline: Discipline::Queue,
    capacity: 4,
};

/// For an atomic model with a bag and a queue, no input port, one output port and one phase.
///
/// # Errors
///
/// No memory for the shape.
pub fn shape_of_collections(alloc: Global, sort: ProgramSort) -> Result<Shape, AllocError> {
    let slots = Vec::from_array(alloc, [BAG, QUEUE])?;
    let tables = Arc::new(alloc, Tables::new(slots, 0, 1, 1))?;
    Ok(Shape::new(tables, sort))
}

/// For an atomic model with a slot of each sort, one port each way and two phases.
///
/// # Errors
///
/// No memory for the tables.
pub fn tables_of_each_slot(alloc: Global) -> Result<Arc<Tables>, AllocError> {
    let slots = vec![in alloc;
        Slot::Ranged { low: -20, high: 50 },
        Slot::Flagged,
        BAG,
        QUEUE,
    ]?;
    Ok(Arc::new(alloc, Tables::new(slots, 1, 1, 2))?)
}
