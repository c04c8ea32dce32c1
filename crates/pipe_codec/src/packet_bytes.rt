// Packets that are written as bytes.
ghost use Rattle.std.specs.Prelude.{◌≡◌, ◌+◌, ◌≤◌, ◌++◌, length, drop};
ghost use Rattle.pipe_codec.specs.Packet.{packet_bytes, packet_code, IsSendable};

use crate::packet::HEADER;
use crate::place::{put, six_bytes};
use pipe_base::{Packet, PacketKind};

fn code_of(kind: PacketKind) -> u8
    ensures { result ≡ packet_code kind }
{
    match kind {
        PacketKind::Beacon => 0,
        PacketKind::Plain => 1,
        PacketKind::Prepare => 2,
        PacketKind::Ack => 3,
        PacketKind::Recall => 4,
        PacketKind::RecallAck => 5,
    }
}

/// Writes the packet to the front of `out` and answers how many bytes that takes. Takes no memory.
pub fn encode(p: &Packet, out: &mut [u8]) -> usize
    requires packet { IsSendable p.now }
    requires room { 26 + length p.now.body ≤ length out.old }
    ensures len { result ≡ length (packet_bytes p.now) }
    ensures bytes { out.new ≡ packet_bytes p.now ++ drop result out.old }
{
    let body = p.body.bytes();
    put(0, &[1, code_of(p.kind)], out);
    put(2, &p.src.0.to_be_bytes(), out);
    put(4, &p.dst.0.to_be_bytes(), out);
    put(6, &six_bytes(p.ts.0), out);
    put(12, &six_bytes(p.be.0), out);
    put(18, &six_bytes(p.commit.0), out);
    put(24, &(body.len() as u16).to_be_bytes(), out);
    put(HEADER, body, out);
    HEADER + body.len()
}
