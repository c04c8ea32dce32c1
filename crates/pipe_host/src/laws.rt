// Laws of a host under any calls.
ghost use Rattle.std.specs.Prelude.{ℕ, List};
ghost use Rattle.pipe_base.specs.declared.message.Service.{Service};
ghost use Rattle.pipe_graph.specs.Graph.{Graph};
ghost use Rattle.pipe_host.specs.Host.{Stands};
ghost use Rattle.pipe_host.specs.declared.host.Host.{Host};
ghost use Rattle.pipe_model.specs.declared.record.Record.{Record};
ghost use Rattle.pipe_model.specs.Logged.{log};
ghost use Rattle.pipe_model.specs.Order.{IsCausal, IsRising};

/// Whatever calls a host gets, and whatever they hand it: in the records of its own for which it stands, each of its
/// logs rises strictly by timestamp and sender, and each of its stamps is above all that it logged before.
pub fn logs_of_any_calls_are_ordered()
    ensures ordered { (graph : Graph) (node : ℕ) (own : List Record) (host : Host) → Stands graph node own host
        → (service : Service) → IsRising (log service own) }
    ensures causal { (graph : Graph) (node : ℕ) (own : List Record) (host : Host) → Stands graph node own host
        → IsCausal own }
{}
