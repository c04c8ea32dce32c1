//! Repeats one step over packets, for `bench/codec` to time: `copy`, `encode` or `decode`, so many times, with a body of
//! so many bytes. It prints a sum over what the steps gave.
#![tactic(auto)]

mod step;

use crate::step::{copied, decoded, encoded};
use anyhow::{Result, bail, ensure};
use pipe_base::{Body, HostId, Packet, PacketKind, Ts};
use pipe_codec::encode;
use std::env;

/// The most bytes of a packet.
const ROOM: usize = 1050;

fn main(rt: HostRuntime) -> Result<()> {
    let mut words = env::args(&rt)?.skip(1);
    let (Some(step), Some(count), Some(len)) = (words.next(), words.next(), words.next()) else {
        bail!("usage: copy|encode|decode COUNT LENGTH");
    };
    let count = count.as_str().parse::<u32>()?;
    let len = len.as_str().parse::<usize>()?;
    ensure!(len <= 1024, "a body has at most 1024 bytes");
    let bytes = vec![in rt.alloc(); 7u8; len]?;
    let Ok(body) = Body::new(rt.alloc(), &bytes) else {
        bail!("no memory");
    };
    let mut packet = Packet {
        kind: PacketKind::Plain,
        src: HostId(0),
        dst: HostId(1),
        ts: Ts(10),
        be: Ts(10),
        commit: Ts(11),
        body,
    };
    let mut spelled = [0u8; ROOM];
    let mut out = [0u8; ROOM];
    encode(&packet, &mut spelled);
    let size = 26 + len;
    let sum = match step.as_str() {
        "copy" => copied(count, &mut spelled[..size], &mut out[..size]),
        "encode" => encoded(count, &mut packet, &mut out),
        "decode" => decoded(count, &mut spelled[..size]),
        _ => bail!("no such step"),
    };
    println!(rt; "{sum}")?;
    Ok(())
}
