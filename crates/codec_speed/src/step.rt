// The steps that are timed. Each round changes the timestamp and looks at a byte or a field that came out.
ghost use Rattle.std.specs.Prelude.{◌≡◌, ◌+◌, ◌≤◌, length};
ghost use Rattle.pipe_codec.specs.Packet.{IsSendable};

use pipe_base::{Packet, PacketKind, Ts};
use pipe_codec::{decode, encode};

/// A plain copy of the bytes.
pub fn copied(count: u32, bytes: &mut [u8], out: &mut [u8]) -> u64
    requires same { length bytes.old ≡ length out.old }
    requires header { 26 ≤ length bytes.old }
{
    let mut sum = 0u64;
    'rounds: for round in 0..count {
        bytes[11] = (round % 256) as u8;
        out.copy_from_slice(bytes);
        sum = sum.wrapping_add(u64::from(out[round as usize % out.len()]));
    }
    sum
}

pub fn encoded(count: u32, packet: &mut Packet, out: &mut [u8]) -> u64
    requires packet { IsSendable packet.old }
    requires plain { packet.old.kind ≡ PacketKind.Plain }
    requires room { 26 + length packet.old.body ≤ length out.old }
{
    let mut sum = 0u64;
    'rounds: for round in 0..count {
        packet.ts = Ts(u64::from(round));
        let size = encode(packet, out);
        sum = sum.wrapping_add(size as u64);
        sum = sum.wrapping_add(u64::from(out[round as usize % out.len()]));
    }
    sum
}

pub fn decoded(count: u32, bytes: &mut [u8]) -> u64
    requires { 26 ≤ length bytes.old }
{
    let mut sum = 0u64;
    'rounds: for round in 0..count {
        bytes[11] = (round % 256) as u8;
        if let Ok(packet) = decode(bytes) {
            sum = sum.wrapping_add(packet.ts.0);
            sum = sum.wrapping_add(packet.body.len() as u64);
        }
    }
    sum
}
