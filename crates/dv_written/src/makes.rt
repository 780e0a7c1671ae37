//! How records are made.

ghost use Rattle.std.specs.Prelude.{◌≡◌, IfOk};
ghost use Rattle.dv_bag.specs.Part.{nothing};
ghost use Rattle.dv_record.specs.Told.{no_text};

use dv_record::{BlankRecord, Record};
use std::alloc::{AllocError, Global};

/// Makes a record for each process. Nothing was told to a new record, and it has no text.
pub trait MakesRecord<R: Record> {
    /// A new record.
    ///
    /// # Errors
    ///
    /// No memory for it.
    fn make(&self, alloc: Global) -> Result<R, AllocError>
        ensures told { IfOk result (λ r. R.told r ≡ nothing) }
        ensures settled { IfOk result (λ r. R.settled r ≡ nothing) }
        ensures handed { IfOk result (λ r. R.handed r ≡ no_text) };
}

/// Makes records that need nothing but an allocator.
#[derive(Clone, Copy)]
pub struct Blanks;

impl<R: BlankRecord> MakesRecord<R> for Blanks {
    fn make(&self, alloc: Global) -> Result<R, AllocError> {
        Ok(R::blank(alloc))
    }
}
