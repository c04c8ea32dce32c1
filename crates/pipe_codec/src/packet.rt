// Packets that are read from bytes.
ghost use Rattle.std.specs.Prelude.{◌≡◌, ◌≤◌, length, slice_get, MatchResult, IfOk, IsOkAnd, Some};
ghost use Rattle.std.specs.Result.{result_err};
ghost use Rattle.pipe_base.specs.Limits.{most_body};
ghost use Rattle.pipe_base.specs.declared.packet.Packet.{Packet as AnyPacket};
ghost use Rattle.pipe_codec.specs.Packet.{fields_fit, fits_kind, packet_bytes, packet_fault, packet_fields, packet_kinds, packet_seen, HasKind, IsPacket};

use crate::Bad;
use crate::place::{six_at, two_at};
use pipe_base::{BODY_LIMIT, Body, HostId, LAST_STAMP, NoMemory, Packet, PacketKind, Ts};
use std::alloc::Global;

/// The bytes before the body.
pub const HEADER: usize = 26;

/// A packet whose body lies in the bytes that it was read from.
#[derive(Clone, Copy, Debug, PartialEq, Eq)]
pub struct PacketRef<'a> {
    pub kind: PacketKind,
    pub src: HostId,
    pub dst: HostId,
    pub ts: Ts,
    pub be: Ts,
    pub commit: Ts,
    pub body: &'a [u8],
}

fn kind_at(code: u8) -> Option<PacketKind>
    ensures { result ≡ slice_get packet_kinds code }
{
    match code {
        0 => Some(PacketKind::Beacon),
        1 => Some(PacketKind::Plain),
        2 => Some(PacketKind::Prepare),
        3 => Some(PacketKind::Ack),
        4 => Some(PacketKind::Recall),
        5 => Some(PacketKind::RecallAck),
        _ => None,
    }
}

#[tactic(auto, unfolding(crate::specs::Packet::packet_fault), using(crate::proofs::PacketLaws::kind_codes))]
fn read_kind(bytes: &[u8]) -> Result<PacketKind, Bad>
    ensures { MatchResult result (λ kind. HasKind kind bytes.now) (λ bad. packet_fault bytes.now ≡ Some bad) }
{
    if bytes.len() < HEADER {
        return Err(Bad::Short);
    }
    if bytes[0] != 1 {
        return Err(Bad::Version);
    }
    match kind_at(bytes[1]) {
        Some(kind) => Ok(kind),
        None => Err(Bad::Kind),
    }
}

fn read_fields(kind: PacketKind, bytes: &[u8]) -> PacketRef<'_>
    requires { 26 ≤ length bytes.now }
    ensures { packet_seen result ≡ packet_fields kind bytes.now }
{
    let (_, body) = bytes.split_at(HEADER);
    PacketRef {
        kind,
        src: HostId(two_at(2, bytes)),
        dst: HostId(two_at(4, bytes)),
        ts: Ts(six_at(6, bytes)),
        be: Ts(six_at(12, bytes)),
        commit: Ts(six_at(18, bytes)),
        body,
    }
}

// A beacon names no hosts and no time, and messages alone have bodies.
fn fits_kind(p: &PacketRef<'_>, body: usize) -> bool
    ensures { result ≡ fits_kind p.now.kind p.now.src.0 p.now.dst.0 p.now.ts.0 body }
{
    match p.kind {
        PacketKind::Beacon => p.src.0 == 0 && p.dst.0 == 0 && p.ts.0 == 0 && body == 0,
        PacketKind::Plain | PacketKind::Prepare => true,
        PacketKind::Ack | PacketKind::Recall | PacketKind::RecallAck => body == 0,
    }
}

fn fields_fit(p: &PacketRef<'_>, body: usize) -> bool
    ensures { result ≡ fields_fit p.now.kind p.now.src.0 p.now.dst.0 p.now.ts.0 body }
{
    p.ts.0 <= LAST_STAMP && body <= BODY_LIMIT && fits_kind(p, body)
}

/// The packet that the bytes spell, or the first of their faults. Takes no memory.
pub fn decode(bytes: &[u8]) -> Result<PacketRef<'_>, Bad>
    // The refusal is the first fault, and bytes without a fault are not refused.
    ensures fault { result_err result ≡ packet_fault bytes.now }
    // What is read is spelled so.
    ensures value { IfOk result (λ p. IsPacket (packet_seen p) × (packet_bytes (packet_seen p) ≡ bytes.now)) }
    // What is spelled so is read.
    ensures again { (p : AnyPacket) → IsPacket p → packet_bytes p ≡ bytes.now
        → IsOkAnd result (λ found. packet_seen found ≡ p) }
{
    let kind = read_kind(bytes)?;
    let packet = read_fields(kind, bytes);
    let body = usize::from(two_at(24, bytes));
    if !fields_fit(&packet, body) {
        return Err(Bad::Field);
    }
    if packet.body.len() != body {
        return Err(Bad::Length);
    }
    Ok(packet)
}

/// The packet with a body of its own.
pub fn own(alloc: Global, p: &PacketRef<'_>) -> Result<Packet, NoMemory>
    requires { length p.now.body.now ≤ most_body }
    ensures { IfOk result (λ owned. owned ≡ packet_seen p.now) }
{
    let Ok(body) = Body::new(alloc, p.body) else {
        return Err(NoMemory);
    };
    Ok(Packet {
        kind: p.kind,
        src: p.src,
        dst: p.dst,
        ts: p.ts,
        be: p.be,
        commit: p.commit,
        body,
    })
}
