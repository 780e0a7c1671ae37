//! Laws of the links of a text. Each function is the law in its contract.

ghost use Rattle.std.specs.Prelude.{map};
ghost use Rattle.dv_flat.specs.Links.{direct_links, entry_links, exit_links};
ghost use Rattle.dv_share.specs.Links.{RiseByPort, RiseBySource};
ghost use Rattle.dv_syntax.specs.Trees.{FileTree};
ghost use Rattle.law_sound.specs.Members.{direct_of, entry_of, exit_of};

/// The links of a text are sorted by the ports that they lead from.
pub fn links_rise()
    ensures direct { (f : FileTree) → RiseBySource (map direct_of (direct_links f)) }
    ensures entrances { (f : FileTree) → RiseByPort (map entry_of (entry_links f)) }
    ensures exits { (f : FileTree) → RiseBySource (map exit_of (exit_links f)) }
{}
