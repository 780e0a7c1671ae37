//! The validator: whether a list of instructions is a program that the stack machine can run.
//!
//! `validate` returns the list as a `Valid` of `dv_code` exactly if it is valid for its shape and
//! sort. One pass from the last address to the first finds the mark of each address: the types on
//! the stack there, and the bodies of loops around it. A second pass tests that each instruction
//! agrees with the marks of the addresses to which it leads.
//!
//! It is for programs from elsewhere. Those of the compiler (`dv_gen`) are valid by proof, so no
//! run uses the validator; only the tests `test_lists` and `test_programs` do. It does not say why
//! a list is refused.
#![tactic(auto)]

/// Which instructions agree with the marks of a program.
mod agreement;
/// What a shape has, and what programs of its sort may do.
mod known;
/// The marks of a program.
mod marks;
/// The bodies of loops around an address.
mod nest;
/// Stacks of types by number.
mod stacks;
/// The validator.
pub mod validator;

pub use validator::validate;
