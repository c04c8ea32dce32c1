// Where a packet goes next.
ghost use Rattle.std.specs.Prelude.{List, ◌≡◌};
ghost use Rattle.pipe_base.specs.declared.name.LinkId.{LinkId};
ghost use Rattle.pipe_base.specs.Ways.{picked};

use crate::{HostId, LinkId};

/// What knows the ways out of one node.
pub trait Router {
    /// For each receiver the links that a packet may take. Equal ways take turns.
    ghost links: { Self → List (List LinkId) };

    /// None where no link is listed for the receiver, or it has no list. Takes no memory.
    fn pick(&self, src: HostId, dst: HostId) -> Option<LinkId>
        ensures { result ≡ picked (links self.now) src.0 dst.0 };
}
