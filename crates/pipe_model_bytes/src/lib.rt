//! Every packet and control message of a run has a spelling as bytes.
#![tactic(auto)]

ghost use Rattle.std.specs.Prelude.{ℕ, ◌<◌, List};
ghost use Rattle.pipe_graph.specs.Graph.{Graph};
ghost use Rattle.pipe_model.specs.declared.record.Record.{Record};
ghost use Rattle.pipe_model.specs.NeverLate.{AreOfGraph};
ghost use Rattle.pipe_model.specs.Run.{IsHistory};
ghost use Rattle.pipe_model_bytes.specs.Bodies.{AreBodiesShort};
ghost use Rattle.pipe_model_bytes.specs.Spelled.{AreControlsSpelled, ArePacketsSpelled};
ghost use Rattle.pipe_topo.specs.Tables.{IsNetwork};

/// In every run of events of a network within the limits, whose bodies are short, each packet that waits or was received has a
/// spelling as bytes.
pub fn every_packet_has_a_spelling()
    ensures { (graph : Graph) (switches : ℕ) (past : List Record) → IsNetwork graph switches → 0 < graph.hosts
        → IsHistory graph past → AreOfGraph graph past → AreBodiesShort past → ArePacketsSpelled graph past }
{}

/// In every run of events of a network within the limits, each control message that waits or was received has a spelling as
/// bytes.
pub fn every_control_message_has_a_spelling()
    ensures { (graph : Graph) (switches : ℕ) (past : List Record) → IsNetwork graph switches → 0 < graph.hosts
        → IsHistory graph past → AreOfGraph graph past → AreControlsSpelled past }
{}
