//! What a run names is of its network: the hosts, links and nodes in packets, control messages and records.
#![tactic(auto)]

ghost use Rattle.std.specs.Prelude.{ℕ, ◌<◌, List};
ghost use Rattle.pipe_graph.specs.Graph.{Graph, IsGraph};
ghost use Rattle.pipe_model.specs.declared.record.Record.{Record};
ghost use Rattle.pipe_model.specs.NeverLate.{AreOfGraph};
ghost use Rattle.pipe_model.specs.Run.{IsHistory};
ghost use Rattle.pipe_model_names.specs.Names.{AreNamesOf};

/// In every run of events of the network, whatever is named is of the network: the hosts, links and nodes in each record, in
/// each packet and control message that waits or was received, and in what the controller announced and dropped.
pub fn names_are_of_the_network()
    ensures { (graph : Graph) (past : List Record) → IsGraph graph → 0 < graph.hosts → IsHistory graph past
        → AreOfGraph graph past → AreNamesOf graph past }
{}
