//! The listing of a text.

ghost use Rattle.std.specs.Prelude.{OnErr, OnOk};
ghost use Rattle.std.specs.Io.KnownBytes.{Appends};
ghost use Rattle.std.specs.List.{All};
ghost use Rattle.dv_gen.specs.ModelCode.{IsCompilableModel};
ghost use Rattle.dv_syntax.specs.Trees.{ModelTree, file_of};
ghost use Rattle.dv_text.specs.Writing.{StopsShort};
ghost use Rattle.dv_listing.specs.Listing.{listing_text};

use crate::lines::push_model;
use dv_syntax::Model;
use dv_text::{WriteError, hand_over, hand_over_if_long};
use dv_tree::Tree;
use std::alloc::Global;
use std::io::Write;

/// Writes the listing of a text: the programs of each of its atomic models, in the order of the
/// text. Only the programs of one model are in memory at a time. A write that failed is not tried
/// again.
///
/// # Errors
///
/// `WriteError::Write` if a write failed or wrote nothing, `WriteError::Memory` if memory was
/// refused. A beginning of the listing has then been written, but not all of it.
pub fn write_listing<W: Write>(alloc: Global, tree: &Tree, writer: &mut W) -> Result<(), WriteError>
    requires { All (λ (m : ModelTree). IsCompilableModel m) (file_of tree.now.file).models }
    ensures ok { OnOk result (Appends (W.contents writer.old) (W.contents writer.new)
        (listing_text tree.now.names (file_of tree.now.file))) }
    ensures err { OnErr result (StopsShort (W.contents writer.old) (W.contents writer.new)
        (listing_text tree.now.names (file_of tree.now.file))) }
{
    let mut text = String::new(alloc);
    let mut is_first = true;
    for model in &tree.file().models {
        if let Model::Atomic(atomic) = model {
            push_model(alloc, &mut text, tree, is_first, atomic)?;
            is_first = false;
            hand_over_if_long(&mut text, writer)?;
        }
    }
    hand_over(writer, text.as_bytes())
}
