//! Laws of trees. Each function states a law in its contract; its body does nothing.

ghost use Rattle.std.specs.Prelude.{◌≡◌, ℕ};
ghost use Rattle.dv_syntax.specs.Trees.{For, If, IfElse, Statements, block_of, expression_of, statement_before};

use crate::tree::{Block, Expr, Name, Stmt};

/// The tree of a statement with blocks has the trees of its condition and of its blocks.
pub fn trees_keep_blocks()
    ensures alone { (offset : ℕ) (condition : Expr) (block : Block) (rest : Statements) →
        statement_before (Stmt.If offset condition block) rest
        ≡ If offset (expression_of condition) (block_of block) rest }
    ensures with_else { (offset : ℕ) (condition : Expr) (block other : Block) (rest : Statements) →
        statement_before (Stmt.IfElse offset condition block other) rest
        ≡ IfElse offset (expression_of condition) (block_of block) (block_of other) rest }
    ensures repeated { (offset : ℕ) (variable bag : Name) (block : Block) (rest : Statements) →
        statement_before (Stmt.For offset variable bag block) rest
        ≡ For offset variable bag (block_of block) rest }
{}
