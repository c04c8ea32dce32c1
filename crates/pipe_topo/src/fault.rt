// Why a plan is no topology.

use pipe_base::NoMemory;

/// What a plan has too many of.
#[derive(Clone, Copy, Debug, PartialEq, Eq)]
pub enum What {
    Hosts,
    Switches,
    Cables,
}

/// The first fault of a plan, in this order.
#[derive(Clone, Copy, Debug, PartialEq, Eq)]
pub enum TopoFault {
    NoHost,
    TooMany { what: What, count: u32 },
    /// The cable joins two hosts, or two switches of one level.
    Level { cable: u16 },
    /// The cable joins what an earlier one joins.
    DoubleCable { cable: u16 },
    /// The switch has no cable to a host or a lower switch.
    Idle { switch: u16 },
    /// One host does not reach the other; or a host does not reach itself.
    Apart { a: u16, b: u16 },
    NoMemory,
}

impl From<NoMemory> for TopoFault {
    ghost use Rattle.std.specs.Prelude.{◌≡◌};
    ghost use Rattle.pipe_topo.specs.declared.fault.TopoFault.TheVariants.{NoMemory};

    ghost from_gives = { λ _ e. e ≡ NoMemory };

    fn from(_: NoMemory) -> Self {
        TopoFault::NoMemory
    }
}
