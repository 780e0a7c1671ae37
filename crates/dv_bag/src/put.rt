//! An insertion into a list.

ghost use Rattle.std.specs.Prelude.{◌≡◌, ◌≤◌, OnErr, OnOk, insert};
ghost use Rattle.smallvec.specs.SmallVec.{small_vec_len};

use smallvec::SmallVec;
use std::alloc::{AllocError, Global};
use std::default::MadeWith;

/// Inserts an element at an index, which usually is the end.
///
/// # Errors
///
/// No memory for it. The list is as before.
#[inline]
pub(crate) fn put<T: MadeWith<Global> + Drop, const N: usize>(
    list: &mut SmallVec<T, N>,
    index: usize,
    element: T,
) -> Result<(), AllocError>
    requires { index ≤ small_vec_len list.old }
    ensures ok { OnOk result (list.new.items ≡ insert list.old.items index element) }
    ensures err { OnErr result (list.new ≡ list.old) }
{
    if index == list.len() {
        Ok(list.push(element)?)
    } else {
        Ok(list.insert(index, element)?)
    }
}
