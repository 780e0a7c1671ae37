//! What was received on a link, kept for contracts alone. It takes no memory, and its methods do
//! nothing at run time.

ghost use Rattle.std.specs.Prelude.{◌≡◌, ◌++◌, ◌∷◌, [], List};
ghost use Rattle.std.specs.Borrow.{ftrue};
ghost use Rattle.dv_conservative.specs.Process.{Packet as PacketAsMeant};
ghost use Rattle.dv_proc.specs.Packets.{meant_packet};

use crate::packet::Packet;
use std::marker::Model;

/// The packets received on a link, in their order. Clauses read them as `packets`; at run time
/// there is nothing.
#[derive(Drop)]
pub struct PacketHistory {
    pub ghost packets: { List PacketAsMeant },
}

impl Model for PacketHistory {
    ghost also_owns = { λ _. ftrue };
}

// It owns nothing.
unsafe impl Send for PacketHistory {}

impl PacketHistory {
    /// No packets.
    pub fn new() -> PacketHistory
        ensures { result.packets ≡ [] }
    {
        PacketHistory {}
    }

    /// The packets, and one more after them.
    pub fn and_one(&self, packet: &Packet) -> PacketHistory
        ensures { result.packets ≡ self.now.packets ++ meant_packet packet.now ∷ [] }
    {
        PacketHistory {}
    }
}
