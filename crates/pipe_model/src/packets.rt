// What a packet is to the node that it reaches.
ghost use Rattle.std.specs.Prelude.{◌≡◌};
ghost use Rattle.pipe_model.specs.Got.{carries, is_beacon, key_of};
ghost use Rattle.pipe_model.specs.Recalls.{is_recall};

use pipe_base::{Key, Packet, PacketKind, Service};

/// Whether packets of this kind carry a message of the service.
pub fn carries(service: Service, kind: PacketKind) -> bool
    ensures { result ≡ carries service kind }
{
    match service {
        Service::BestEffort => matches!(kind, PacketKind::Plain),
        Service::Reliable => matches!(kind, PacketKind::Prepare),
    }
}

/// Whether packets of this kind take a message back.
pub fn is_recall(kind: PacketKind) -> bool
    ensures { result ≡ is_recall kind }
{
    matches!(kind, PacketKind::Recall)
}

/// Whether packets of this kind carry their two barriers alone, and go no further.
pub fn is_beacon(kind: PacketKind) -> bool
    ensures { result ≡ is_beacon kind }
{
    matches!(kind, PacketKind::Beacon)
}

/// Where the message of a packet stands in the total order.
pub fn key_of(packet: &Packet) -> Key
    ensures { result ≡ key_of packet.now }
{
    Key {
        ts: packet.ts,
        src: packet.src,
    }
}
