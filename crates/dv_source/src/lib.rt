//! What a model text says, in its own order: the trees that are read from tokens.
//!
//! A `SourceFile` has the models of a text, and each model its items as they stand. `dv_syntax` has
//! the trees of what an item says, and in `specs/Written.antt` a source without memory.
//!
//! `dv_parser` makes sources, and `dv_expand` makes of each the `File` that it stands for. The
//! checks and all that is above them know files alone.
#![tactic(auto)]

/// The trees.
pub mod tree;

pub use tree::{
    SourceAtomic, SourceCoupled, SourceCoupledItem, SourceFile, SourceItem, SourceModel,
};
