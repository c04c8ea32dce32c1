//! Bounds of every run: its numbers are within the clock, its lists within the network, and recalls go to receivers.
#![tactic(auto)]

ghost use Rattle.std.specs.Prelude.{List};
ghost use Rattle.pipe_graph.specs.Graph.{Graph};
ghost use Rattle.pipe_model.specs.declared.record.Record.{Record};
ghost use Rattle.pipe_model.specs.NeverLate.{AreOfGraph};
ghost use Rattle.pipe_model.specs.Run.{IsHistory};
ghost use Rattle.pipe_model_bounds.specs.DroppedOnce.{AreDroppedOnce};
ghost use Rattle.pipe_model_bounds.specs.Numbers.{AreNumbersWithin};
ghost use Rattle.pipe_model_bounds.specs.RecallListed.{AreRecallsListed};
ghost use Rattle.pipe_model_bounds.specs.Sizes.{AreListsSized};

/// Recalls list their receivers: in every run, each recall that waits or was received belongs to a scattering of its sender
/// which is recalled and lists its receiver.
pub fn recalls_list_their_receiver()
    ensures { (graph : Graph) (past : List Record) → IsHistory graph past → AreRecallsListed graph past }
{}

/// Numbers are within the clock: in every run of events of the network, each stamp is at most the top of the network, and each
/// barrier, next timestamp, promise, mark, time of an announced host and number that is told is at most one above it: in packets
/// and control messages that wait or were received, in records, and in what nodes and the controller know.
pub fn numbers_are_within_the_clock()
    ensures { (graph : Graph) (past : List Record) → IsHistory graph past → AreOfGraph graph past → AreNumbersWithin graph past }
{}

/// Links are dropped once: in every run, no link stands twice among those that the controller dropped, nor among those that a
/// node knows as dropped.
pub fn links_are_dropped_once()
    ensures { (graph : Graph) (past : List Record) → IsHistory graph past → AreDroppedOnce graph past }
{}

/// Lists and counts fit the network: in every run, no list of a control message that waits or was received, of a record, of a
/// node or of the controller has more entries than the network has hosts or links, none that is told is empty, and no count is
/// above theirs.
pub fn lists_and_counts_fit()
    ensures { (graph : Graph) (past : List Record) → IsHistory graph past → AreListsSized graph past }
{}
