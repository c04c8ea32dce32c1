// A packet after another word of the line.
ghost use Rattle.std.specs.Prelude.{◌≡◌, ◌++◌, [], ◌∷◌, OnOk};
ghost use Rattle.pipe_text_trace.specs.Line.{next_words};
ghost use Rattle.pipe_text_trace.specs.Packet.{barrier_words, carried_words, kind_word, message_words, packet_words};

use crate::word::{Appended, print_body, print_name, print_number, print_word};
use pipe_base::{Packet, PacketKind};
use pipe_topo::NodeNames;

fn kind_word(kind: PacketKind) -> &'static [u8]
    ensures { result.now ≡ kind_word kind }
{
    match kind {
        PacketKind::Beacon => b"beacon",
        PacketKind::Plain => b"plain",
        PacketKind::Prepare => b"prepare",
        PacketKind::Ack => b"ack",
        PacketKind::Recall => b"recall",
        PacketKind::RecallAck => b"recallack",
    }
}

fn print_barriers(out: &mut Vec<u8>, packet: &Packet) -> Appended
    ensures { OnOk result (out.new.items ≡ out.old.items ++ next_words (barrier_words packet.now [])) }
{
    print_number(out, packet.be.0)?;
    print_number(out, packet.commit.0)
}

fn print_message(out: &mut Vec<u8>, names: &NodeNames, packet: &Packet) -> Appended
    ensures { OnOk result (out.new.items ≡ out.old.items ++ next_words (message_words names.now packet.now [])) }
{
    print_name(out, names, packet.src.0)?;
    print_name(out, names, packet.dst.0)?;
    print_number(out, packet.ts.0)?;
    print_barriers(out, packet)
}

fn print_carried(out: &mut Vec<u8>, names: &NodeNames, packet: &Packet) -> Appended
    ensures { OnOk result (out.new.items ≡ out.old.items
        ++ next_words (carried_words names.now packet.now.kind packet.now)) }
{
    match packet.kind {
        PacketKind::Beacon => print_barriers(out, packet),
        PacketKind::Plain | PacketKind::Prepare => {
            print_message(out, names, packet)?;
            print_body(out, packet.body.bytes())
        }
        PacketKind::Ack | PacketKind::Recall | PacketKind::RecallAck => {
            print_message(out, names, packet)
        }
    }
}

/// Appends the words of a packet.
pub fn print_packet(out: &mut Vec<u8>, names: &NodeNames, packet: &Packet) -> Appended
    ensures { OnOk result (out.new.items ≡ out.old.items ++ next_words (packet_words names.now packet.now)) }
{
    print_word(out, kind_word(packet.kind))?;
    print_carried(out, names, packet)
}
