// What a step puts: packets on their ways, and beacons.
ghost use Rattle.std.specs.Prelude.{◌≡◌, ◌+◌, ◌++◌, ◌<◌, ◌^◌, [], ◌∷◌, map, OnErr, OnOk};
ghost use Rattle.pipe_base.specs.Packets.{beacon};
ghost use Rattle.pipe_base.specs.Ways.{picked, PutsAlone, with_beacons, with_ways};

use crate::{Body, HostId, LinkId, NoMemory, Packet, PacketKind, PutList, Router, Step, Ts};
use std::alloc::Global;

impl Step {
    /// Puts a packet on its way, or counts it where it has none.
    pub fn put_on_way<R: Router>(&mut self, routes: &R, packet: Packet) -> Result<(), NoMemory>
        requires room { self.old.unrouted + 1 < 2 ^ 32 }
        ensures ok { OnOk result (self.new ≡ with_ways (picked (R.links routes.now)) (packet ∷ []) self.old) }
        ensures err { OnErr result (self.new ≡ self.old) }
    {
        match routes.pick(packet.src, packet.dst) {
            Some(link) => {
                if self.put.is_empty() {
                    self.put.reserve(1)?;
                }
                self.put.push((link, packet))?;
            }
            None => self.unrouted += 1,
        }
        Ok(())
    }

    /// Puts a beacon with these barriers on each of the links.
    pub fn put_beacons(
        &mut self,
        alloc: Global,
        links: &[LinkId],
        be: Ts,
        commit: Ts,
    ) -> Result<(), NoMemory>
        ensures ok { OnOk result (self.new ≡ with_beacons links.now (record { be = be.0; commit = commit.0 }) self.old) }
        ensures err { OnErr result (PutsAlone self.old self.new) }
    {
        add_beacons(alloc, &mut self.put, links, be, commit)
    }
}

/// Appends a beacon with these barriers for each of the links.
pub(crate) fn add_beacons(
    alloc: Global,
    puts: &mut PutList,
    links: &[LinkId],
    be: Ts,
    commit: Ts,
) -> Result<(), NoMemory>
    ensures { OnOk result (puts.new ≡ puts.old ++ map (λ l. (l, beacon (record { be = be.0; commit = commit.0 }))) links.now) }
{
    puts.reserve(links.len())?;
    'links: for link in links {
        puts.push((*link, one_beacon(alloc, be, commit)))?;
    }
    Ok(())
}

/// A beacon with these barriers.
pub(crate) fn one_beacon(alloc: Global, be: Ts, commit: Ts) -> Packet
    ensures { result ≡ beacon (record { be = be.0; commit = commit.0 }) }
{
    Packet {
        kind: PacketKind::Beacon,
        src: HostId(0),
        dst: HostId(0),
        ts: Ts(0),
        be,
        commit,
        body: Body::empty(alloc),
    }
}
