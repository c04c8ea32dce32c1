// What every plan's graph has. Each law is a function that does nothing and ensures it.
ghost use Rattle.std.specs.Prelude.{◌≡◌, ℕ, ◌<◌, ◌≤◌, length, None};
ghost use Rattle.pipe_base.specs.declared.name.Ts.{Ts};
ghost use Rattle.pipe_graph.specs.Graph.{IsGraph};
ghost use Rattle.pipe_graph.specs.Reach.{JoinsAllHosts};
ghost use Rattle.pipe_graph.specs.Mirror.{IsMirrored};
ghost use Rattle.pipe_topo.specs.Fault.{fault_of};
ghost use Rattle.pipe_topo.specs.Fed.{HasIns};
ghost use Rattle.pipe_topo.specs.Plan.{IsPlan, IsSmall, graph_of};
ghost use Rattle.pipe_topo.specs.Star.{star_plan};
ghost use Rattle.pipe_topo.specs.declared.plan.Plan.{Plan};
ghost use Rattle.pipe_base.specs.Limits.{most_hosts};

/// A plan without a fault joins any two hosts both ways, and each host with itself.
pub fn no_fault_joins_all()
    ensures { (plan : Plan) → IsPlan plan → fault_of plan ≡ None → JoinsAllHosts (graph_of plan) }
{}

/// A plan without a fault has a host, and each node of its graph has an in-link.
pub fn no_fault_has_ins()
    ensures some { (plan : Plan) → IsPlan plan → fault_of plan ≡ None → 0 < plan.hosts }
    ensures ins { (plan : Plan) → IsPlan plan → fault_of plan ≡ None → HasIns (graph_of plan) }
{}

/// A plan without a fault is within the limits.
pub fn no_fault_is_small()
    ensures { (plan : Plan) → fault_of plan ≡ None → IsSmall plan.hosts (length plan.levels) (length plan.cables) }
{}

/// The graph of a plan joins its nodes alone, and for each link it has one that goes the other way.
pub fn plans_are_mirrored()
    ensures graph { (plan : Plan) → IsPlan plan → IsGraph (graph_of plan) }
    ensures mirrored { (plan : Plan) → IsPlan plan → IsMirrored (graph_of plan) }
{}

/// The plan of a star of 1 to 64 hosts has no fault.
pub fn stars_have_no_fault()
    ensures { (hosts : ℕ) (patience : Ts) → 1 ≤ hosts → hosts ≤ most_hosts
        → fault_of (star_plan hosts patience) ≡ None }
{}
