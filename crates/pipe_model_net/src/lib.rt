//! Laws of every run, between the nodes: what is logged and what travels was sent, what an acknowledgement, a recall and its
//! answer tell, the events determine all that happens, what bounds the barriers on a link, what the controller is told of links
//! that are down, and that best effort is never late where links keep order.
#![tactic(auto)]

ghost use Rattle.std.specs.Prelude.{◌≡◌, ℕ, All, List, map, reverse, true};
ghost use Rattle.pipe_base.specs.declared.packet.Plane.{Plane};
ghost use Rattle.pipe_graph.specs.Graph.{Graph, tail_of};
ghost use Rattle.pipe_base.specs.Scattering.{Scattering};
ghost use Rattle.pipe_base.specs.Settled.{is_recall_acked};
ghost use Rattle.pipe_model.specs.declared.event.Event.{Event};
ghost use Rattle.pipe_model.specs.declared.record.Record.{Record};
ghost use Rattle.pipe_model.specs.Acknowledged.{AreAcksTrue};
ghost use Rattle.pipe_model.specs.Acting.{own};
ghost use Rattle.pipe_model.specs.AllOrNone.{key_from};
ghost use Rattle.pipe_model.specs.DownsTold.{AreDownsTrue};
ghost use Rattle.pipe_model.specs.Event.{IsOfGraph};
ghost use Rattle.pipe_model.specs.MessagesSent.{AreMessagesSent};
ghost use Rattle.pipe_model.specs.NeverLate.{AreLinksOrdered, AreOfGraph, IsNeverLate, IsOfOldest};
ghost use Rattle.pipe_model.specs.OnLink.{AreFieldsPromised, AreSomeOf, NeverFalls, put_along};
ghost use Rattle.pipe_model.specs.Order.{IsGenuine};
ghost use Rattle.pipe_model.specs.PreparedHeld.{ArePreparedHeld};
ghost use Rattle.pipe_model.specs.Recalled.{AreRecallAcksTrue, AreRecallsTrue};
ghost use Rattle.pipe_model.specs.Recalls.{got_recall};
ghost use Rattle.pipe_model.specs.Run.{IsHistory, IsNodeHistory, IsRun, event_of};
ghost use Rattle.pipe_model.specs.Sender.{sender_calls};
ghost use Rattle.pipe_model.specs.Waiting.{waiting_on};

/// Genuineness: in every run, what is logged was sent before to that host and with that body.
pub fn every_run_is_genuine()
    ensures { (graph : Graph) (past : List Record) → IsHistory graph past → IsGenuine graph past }
{}

/// Packets have their scattering: in every run, each message that waits or was received belongs to an accepted send of its
/// sender, which lists its receiver with its body.
pub fn every_message_was_sent()
    ensures { (graph : Graph) (past : List Record) → IsHistory graph past → AreMessagesSent graph past }
{}

/// In every run, each acknowledgement that waits or was received means that the host that sent it held the message.
pub fn acknowledgements_are_true()
    ensures { (graph : Graph) (past : List Record) → IsHistory graph past → AreAcksTrue graph past }
{}

/// In every run, where a reliable scattering is prepared, each of its receivers held it.
pub fn prepared_scatterings_are_held()
    ensures { (graph : Graph) (past : List Record) → IsHistory graph past → ArePreparedHeld graph past }
{}

/// In every run, each recall that waits or was received means that its sender recalled the scattering.
pub fn recalls_are_true()
    ensures { (graph : Graph) (past : List Record) → IsHistory graph past → AreRecallsTrue graph past }
{}

/// In every run, each answer to a recall that waits or was received means that the host that sent it got the recall.
pub fn recall_acknowledgements_are_true()
    ensures { (graph : Graph) (past : List Record) → IsHistory graph past → AreRecallAcksTrue graph past }
{}

/// In every run, where a host counts a receiver's answer to a recall of a scattering, the receiver got the recall.
pub fn acknowledged_recalls_were_got()
    ensures { (graph : Graph) (past : List Record) → IsHistory graph past → (host other : ℕ) (s : Scattering)
        → is_recall_acked (sender_calls graph host (own graph host past)) s other ≡ true
        → got_recall graph other (key_from host s) (own graph other past) ≡ true }
{}

/// The events determine a run: two runs of the same events over the same graph are equal, record by record.
pub fn events_determine_a_run()
    ensures { (graph : Graph) (one other : List Record) → IsHistory graph one → IsHistory graph other
        → map event_of one ≡ map event_of other → one ≡ other }
{}

/// What waits on a link was put on it by its tail, in the same order.
pub fn packets_wait_in_order()
    ensures { (graph : Graph) (past : List Record) → IsHistory graph past → (link : ℕ)
        → AreSomeOf (waiting_on link past) (put_along link (own graph (tail_of graph link) past)) }
{}

/// Whatever a node is handed, the fields of a plane that it puts on a link never fall.
pub fn fields_never_fall()
    ensures { (plane : Plane) (graph : Graph) (node link : ℕ) (own : List Record) → IsNodeHistory graph node own
        → NeverFalls plane (put_along link own) }
{}

/// Each field that waits on a link or was received on it is at most what the tail of the link promises now, in each plane: on
/// commit a host its promise, a half its commit barrier.
pub fn fields_are_promised()
    ensures { (plane : Plane) (graph : Graph) (past : List Record) → IsHistory graph past → (link : ℕ)
        → AreFieldsPromised plane graph link past }
{}

/// In every run, each report of a link that is down which waits among the control messages was put by the head of the link, and
/// tells the link's mark.
pub fn downs_tell_marks()
    ensures { (graph : Graph) (past : List Record) → IsHistory graph past → AreDownsTrue graph past }
{}

/// In every run of events of the network in which each take names the oldest packet of its link, no best-effort message is
/// late. Packets may be lost anywhere, copies may stay, links may go down or be cut, and nodes may crash.
pub fn ordered_links_are_never_late()
    ensures { (graph : Graph) (past : List Record) → IsHistory graph past → AreOfGraph graph past → AreLinksOrdered past
        → IsNeverLate past }
{}

/// The same by the list of events of a run.
pub fn ordered_events_are_never_late()
    ensures { (graph : Graph) (events : List Event) (trace : List Record) → IsRun graph events trace
        → All (IsOfGraph graph) events → All IsOfOldest events
        → IsNeverLate (reverse trace) }
{}
