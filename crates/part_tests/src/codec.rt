// What no clause says: the bytes of the layout, worked out by hand, and that calls which take memory succeed where there
// is enough.

ghost use Rattle.std.specs.Prelude.{◌≡◌};
ghost use Rattle.pipe_codec.specs.Packet.{IsSendable};

use pipe_base::{Body, BodyFault, Control, HostId, NoMemory, Packet, PacketKind, Ts};
use pipe_codec::*;
use std::alloc::{AllocError, Global};

/// A plain packet of host 0 to host 1 with timestamp and barrier 10, commit barrier 11 and the body `hi`.
const PLAIN: [u8; 28] = [
    1, 1, 0, 0, 0, 1, 0, 0, 0, 0, 0, 10, 0, 0, 0, 0, 0, 10, 0, 0, 0, 0, 0, 11, 0, 2, 104, 105,
];

fn plain(body: Body) -> Packet
    ensures packet { IsSendable result }
    ensures body { result.body ≡ body }
{
    Packet {
        kind: PacketKind::Plain,
        src: HostId(0),
        dst: HostId(1),
        ts: Ts(10),
        be: Ts(10),
        commit: Ts(11),
        body,
    }
}

// Edits of the first bytes of a header without a body, how many bytes there are, and the first fault.
type Case = (&'static [(usize, u8)], usize, Option<Bad>);

const LAST: &[(usize, u8)] = &[
    (1, 1),
    (6, 255),
    (7, 255),
    (8, 255),
    (9, 255),
    (10, 255),
    (11, 255),
];

static FAULTS: [Case; 13] = [
    (&[], 26, None),
    (&[(0, 9), (1, 6)], 25, Some(Bad::Short)),
    (&[(0, 9), (1, 6)], 26, Some(Bad::Version)),
    (&[(1, 6), (11, 1)], 26, Some(Bad::Kind)),
    (&[(25, 1)], 26, Some(Bad::Field)),
    (&[(3, 1)], 26, Some(Bad::Field)),
    (&[(11, 1)], 26, Some(Bad::Field)),
    (&[(1, 3), (25, 1)], 27, Some(Bad::Field)),
    (&[(1, 2), (24, 4), (25, 1)], 27, Some(Bad::Field)),
    (LAST, 26, Some(Bad::Field)),
    (&[(1, 1), (25, 2)], 27, Some(Bad::Length)),
    (&[], 27, Some(Bad::Length)),
    (&[(1, 5), (3, 1), (11, 1)], 26, None),
];

fn edited(edits: &[(usize, u8)]) -> [u8; 28] {
    let mut bytes = [0u8; 28];
    bytes[0] = 1;
    for (at, byte) in edits {
        if *at < 28 {
            bytes[*at] = *byte;
        }
    }
    bytes
}

#[test]
fn the_first_fault_of_a_packet_is_told(rt: HostRuntime) {
    for (edits, len, fault) in &FAULTS {
        let bytes = edited(edits);
        assert!(rt; *len <= 28);
        assert!(rt; decode(&bytes[..*len]).err() == *fault, "{edits:?}");
    }
}

fn is_written(packet: &Packet) -> bool
    requires { IsSendable packet.now }
{
    let mut wanted = [7u8; 30];
    wanted[..28].copy_from_slice(&PLAIN);
    let mut out = [7u8; 30];
    packet.body.bytes().len() <= 4 && encode(packet, &mut out) == 28 && out == wanted
}

fn is_read(alloc: Global, packet: &Packet) -> Result<bool, NoMemory> {
    let Ok(read) = decode(&PLAIN) else {
        return Ok(false);
    };
    Ok(
        read.kind == packet.kind
            && read.src == packet.src
            && read.dst == packet.dst
            && read.ts == packet.ts
            && read.be == packet.be
            && read.commit == packet.commit
            && own(alloc, &read)?.body.bytes() == packet.body.bytes(),
    )
}

fn is_read_back(alloc: Global) -> Result<bool, NoMemory> {
    match Body::new(alloc, b"hi") {
        Ok(body) => {
            let packet = plain(body);
            Ok(is_written(&packet) && is_read(alloc, &packet)?)
        }
        Err(_) => Err(NoMemory),
    }
}

// The longest body, and one that is longer.
fn is_longest_read_back(alloc: Global) -> Result<bool, NoMemory> {
    let bytes = vec![in alloc; 7u8; 1025]?;
    let mut out = [0u8; 1050];
    match Body::new(alloc, &bytes[..1024]) {
        Ok(body) => {
            let packet = plain(body);
            Ok(
                packet.body.bytes().len() <= 1024
                    && encode(&packet, &mut out) == 1050
                    && has_body(alloc, &out, &bytes[..1024])?
                    && Body::new(alloc, &bytes).err() == Some(BodyFault::TooLong { len: 1025 }),
            )
        }
        Err(_) => Ok(false),
    }
}

fn has_body(alloc: Global, bytes: &[u8], body: &[u8]) -> Result<bool, NoMemory> {
    match decode(bytes) {
        Ok(read) => Ok(own(alloc, &read)?.body.bytes() == body),
        Err(_) => Ok(false),
    }
}

#[test]
fn packets_are_written_and_read_back(rt: HostRuntime) -> Result<(), NoMemory> {
    assert!(rt; is_read_back(rt.alloc())?);
    assert!(rt; is_longest_read_back(rt.alloc())?);
    Ok(())
}

// A control message as bytes, and its value as it is shown.
static CONTROLS: [(&[u8], &str); 6] = [
    (
        &[1, 16, 255, 255, 0, 8, 0, 4, 0, 0, 0, 0, 0, 9],
        "Addressed { to: Controller, control: Down { link: LinkId(4), value: Ts(9) } }",
    ),
    (
        &[1, 17, 0, 5, 0, 2, 0, 4],
        "Addressed { to: Node(NodeId(5)), control: Freeze { link: LinkId(4) } }",
    ),
    (
        &[
            1, 18, 0, 1, 0, 16, 0, 2, 1, 2, 3, 4, 5, 6, 0, 3, 0, 0, 0, 0, 0, 20,
        ],
        "Addressed { to: Node(NodeId(1)), control: Notice { list: SharedList { block: Some([Announced { host: HostId(2), time: Ts(1108152157446) }, Announced { host: HostId(3), time: Ts(20) }]) } } }",
    ),
    (
        &[1, 19, 255, 255, 0, 4, 0, 1, 1, 2],
        "Addressed { to: Controller, control: Done { host: HostId(1), count: 258 } }",
    ),
    (
        &[1, 20, 0, 6, 0, 4, 0, 0, 1, 2],
        "Addressed { to: Node(NodeId(6)), control: DropLinks { links: SharedList { block: Some([LinkId(0), LinkId(258)]) } } }",
    ),
    (
        &[1, 21, 255, 255, 0, 4, 0, 6, 0, 2],
        "Addressed { to: Controller, control: Gone { node: NodeId(6), count: 2 } }",
    ),
];

fn is_control(alloc: Global, bytes: &[u8], shown: &str) -> Result<bool, AllocError> {
    let Ok(message) = decode_control(alloc, bytes) else {
        return Ok(false);
    };
    let mut out = [7u8; 24];
    let len = control_len(&message);
    let text = format!(in alloc; "{message:?}")?;
    Ok(
        text.as_str() == shown
            && len <= 24
            && encode_control(&message, &mut out) == len
            && &out[..len] == bytes,
    )
}

#[test]
fn control_messages_are_read_and_written_back(rt: HostRuntime) -> Result<(), AllocError> {
    for (bytes, shown) in &CONTROLS {
        assert!(rt; is_control(rt.alloc(), bytes, shown)?, "{shown}");
    }
    Ok(())
}

static ZEROS: [u8; 2176] = [0; 2176];

/// Whether a header with this behind it is read as a list of so many entries.
fn has_entries(
    alloc: Global,
    head: &[u8],
    tail: &[u8],
    entries: usize,
) -> Result<bool, AllocError> {
    let mut bytes = Vec::from_slice(alloc, head)?;
    bytes.extend_from_slice(tail)?;
    match decode_control(alloc, &bytes) {
        Ok(message) => Ok(listed(&message.control) == entries),
        Err(_) => Ok(false),
    }
}

fn listed(control: &Control) -> usize {
    match control {
        Control::Notice { list } => list.len(),
        Control::DropLinks { links } => links.len(),
        _ => 0,
    }
}

#[test]
fn the_longest_lists_are_read(rt: HostRuntime) -> Result<(), AllocError> {
    assert!(rt; has_entries(rt.alloc(), &[1, 18, 0, 1, 2, 0], &ZEROS[..512], 64)?);
    assert!(rt; has_entries(rt.alloc(), &[1, 20, 0, 6, 8, 128], &ZEROS, 1088)?);
    Ok(())
}

static CONTROL_FAULTS: [(&[u8], Bad); 12] = [
    (&[9, 15, 0, 0, 0], Bad::Short),
    (&[9, 15, 0, 0, 0, 0], Bad::Version),
    (&[1, 15, 0, 0, 0, 0], Bad::Kind),
    (&[1, 22, 0, 0, 0, 0], Bad::Kind),
    (&[1, 16, 0, 0, 0, 7], Bad::Field),
    (&[1, 18, 0, 0, 0, 0], Bad::Field),
    (&[1, 18, 0, 0, 0, 12], Bad::Field),
    (&[1, 18, 0, 0, 2, 8], Bad::Field),
    (&[1, 20, 0, 0, 0, 3, 0, 0, 0], Bad::Field),
    (&[1, 20, 0, 0, 8, 130], Bad::Field),
    (&[1, 17, 0, 0, 0, 2, 0], Bad::Length),
    (&[1, 19, 0, 0, 0, 4, 0, 0, 0, 0, 0], Bad::Length),
];

#[test]
fn the_first_fault_of_a_control_message_is_told(rt: HostRuntime) {
    for (bytes, bad) in &CONTROL_FAULTS {
        let fault = decode_control(rt.alloc(), bytes).err();
        assert!(rt; fault == Some(ControlFault::Bad(*bad)), "{bytes:?}");
    }
}
