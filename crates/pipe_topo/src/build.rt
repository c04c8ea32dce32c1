// From a plan to a topology, or to the first fault of the plan.
ghost use Rattle.std.specs.Prelude.{◌≡◌, ◌≢◌, ◌<◌, ◌^◌, length, None, Some, IfErr, IfOk};
ghost use Rattle.pipe_graph.specs.Reach.{JoinsAllHosts};
ghost use Rattle.pipe_topo.specs.Fault.{fault_of};
ghost use Rattle.pipe_topo.specs.Plan.{HasEnds, IsPlan, graph_of};

use crate::apart::apart_fault;
use crate::shape::shape_fault;
use crate::tables::wiring_of;
use crate::{Plan, TopoFault, Topology};
use std::alloc::Global;

impl Topology {
    /// Refuses a plan with its first fault.
    pub fn build(alloc: Global, plan: &Plan) -> Result<Topology, TopoFault>
        requires ends { HasEnds plan.now.hosts (length plan.now.levels) plan.now.cables }
        requires countable_levels { length plan.now.levels < 2 ^ 32 }
        requires countable_cables { length plan.now.cables < 2 ^ 32 }
        ensures value { IfOk result (λ topology. topology ≡ graph_of plan.now) }
        ensures faultless { IfOk result (λ topology. fault_of plan.now ≡ None) }
        ensures small { IfOk result (λ topology. IsPlan plan.now) }
        ensures joined { IfOk result JoinsAllHosts }
        ensures fault { IfErr result (λ fault. fault ≢ TopoFault.NoMemory → fault_of plan.now ≡ Some fault) }
    {
        let levels = plan.levels.as_slice();
        if let Some(fault) = shape_fault(plan.hosts, levels, plan.cables.as_slice()) {
            return Err(fault);
        }
        let wiring = wiring_of(alloc, plan)?;
        match apart_fault(alloc, &wiring)? {
            Some(fault) => Err(fault),
            None => Ok(Topology { wiring }),
        }
    }
}
