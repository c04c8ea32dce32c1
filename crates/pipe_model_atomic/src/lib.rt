//! All or none, over every run: a reliable scattering that the commit barriers of all its correct receivers have passed is in
//! all their logs or in none, and no reliable message is late of itself. It rests on a few sentences that hold at every moment.
#![tactic(auto)]

ghost use Rattle.std.specs.Prelude.{◌≡◌, ◌≤◌, ◌↔◌, ℕ, false, List, ◌∷◌, ◌++◌, Some, reverse};
ghost use Rattle.pipe_base.specs.declared.name.Ts.{Ts};
ghost use Rattle.pipe_base.specs.declared.packet.Plane.TheVariants.{Commit};
ghost use Rattle.pipe_base.specs.Failed.{is_announced, time_of};
ghost use Rattle.pipe_graph.specs.Graph.{Graph, IsGraph};
ghost use Rattle.pipe_graph.specs.Path.{IsPath};
ghost use Rattle.pipe_graph.specs.Reach.{JoinsAllHosts};
ghost use Rattle.pipe_model.specs.declared.record.Record.{Record};
ghost use Rattle.pipe_model.specs.Acting.{own};
ghost use Rattle.pipe_model.specs.AllOrNone.{IsAllOrNone};
ghost use Rattle.pipe_base.specs.Limits.{most_items};
ghost use Rattle.pipe_model.specs.declared.event.Event.{Event};
ghost use Rattle.pipe_model.specs.Controller.{announced, is_live, view};
ghost use Rattle.pipe_model.specs.Correct.{announced_in};
ghost use Rattle.pipe_model.specs.Items.{items_of};
ghost use Rattle.pipe_model.specs.OrderedRun.{IsOrderedRun};
ghost use Rattle.pipe_model.specs.LateMessage.{IsNoneLateOfItself};
ghost use Rattle.pipe_model.specs.Moments.{barrier_at, noted_hosts};
ghost use Rattle.pipe_model.specs.NeverLate.{AreOfGraph};
ghost use Rattle.pipe_model.specs.NodePromise.{node_promise};
ghost use Rattle.pipe_model.specs.Run.{IsHistory, IsRun};
ghost use Rattle.pipe_model_atomic.specs.NotedOrCutOff.{AreReportedPaths, IsCutOff};
ghost use Rattle.pipe_model_atomic.specs.Present.{IsPresent};
ghost use Rattle.pipe_model_atomic.specs.Sentences.{Sentences};
ghost use Rattle.pipe_model_atomic.specs.UnsettledAbove.{AreUnsettledAbove};

/// In every run of a network whose hosts are joined, the sentences hold at every moment.
pub fn sentences_hold()
    ensures { (graph : Graph) (past : List Record) → JoinsAllHosts graph → IsHistory graph past → Sentences graph past }
{}

/// Along a path of links that count, the commit barrier at the end is at most what the start promises.
pub fn promises_bound_barriers()
    ensures { (graph : Graph) (past : List Record) → Sentences graph past → (start end : ℕ) (path : List ℕ)
        → IsPath graph (is_live graph past) start end path
        → barrier_at Commit graph end (own graph end past) ≤ node_promise Commit graph start (own graph start past) }
{}

/// A report bounds the commit barriers of all hosts that a path over its link leads to.
pub fn reports_bound_barriers()
    ensures { (graph : Graph) (past : List Record) → IsHistory graph past → Sentences graph past
        → (start end link : ℕ) (value : Ts) (before after : List ℕ)
        → IsPath graph (is_live graph past) start end (before ++ link ∷ after)
        → (view graph past).reports link ≡ Some value
        → barrier_at Commit graph end (own graph end past) ≤ value.0 }
{}

/// The commit barrier of a present host that has not noted a host that was announced as failed is at most the time of that
/// host.
pub fn times_bound_barriers()
    ensures { (graph : Graph) (past : List Record) → IsHistory graph past → Sentences graph past
        → (host other : ℕ) (time : Ts)
        → time_of host (announced graph past) ≡ Some time → IsPresent graph past other
        → is_announced host (noted_hosts (own graph other past)) ≡ false
        → barrier_at Commit graph other (own graph other past) ≤ time.0 }
{}

/// A host is cut off from another from a time on exactly where each path by links that count has a link with a report of at most
/// this time.
pub fn cut_off_hosts_have_reported_paths()
    ensures { (graph : Graph) (past : List Record) (host other : ℕ) (time : Ts) → IsGraph graph
        → IsCutOff graph past host time other ↔ AreReportedPaths graph past host time other }
{}

/// While a scattering of a host that was not announced as failed is unsettled, no commit barrier of a host that takes part is
/// above its timestamp.
pub fn unsettled_scatterings_hold_back()
    ensures { (graph : Graph) (past : List Record) → Sentences graph past → AreUnsettledAbove graph past }
{}

/// All or none: in every run of a network whose hosts are joined, a reliable scattering that the commit barriers of all its
/// correct receivers have passed is in all their logs, or in none.
pub fn every_run_is_all_or_none()
    ensures { (graph : Graph) (past : List Record) → JoinsAllHosts graph → IsHistory graph past
        → IsAllOrNone graph past }
{}

/// In every run of events of such a network no reliable message is late of itself: one that comes late at a correct host was
/// held there before, or was taken back there, or its sender is noted there as failed by then.
pub fn no_reliable_message_is_late_of_itself()
    ensures { (graph : Graph) (past : List Record) → JoinsAllHosts graph → IsHistory graph past → AreOfGraph graph past
        → IsNoneLateOfItself graph past }
{}

/// In every run the hosts that decisions recorded as announced are those that the controller knows as announced: so who is
/// correct can be read off the records.
pub fn announced_hosts_are_recorded()
    ensures { (graph : Graph) (past : List Record) → IsHistory graph past → announced_in past ≡ announced graph past }
{}

/// The promises of the channel, in one place: every run of events of a network whose hosts are joined keeps them all.
pub fn every_run_keeps_its_promises()
    ensures { (graph : Graph) (events : List Event) (trace : List Record) → JoinsAllHosts graph
        → AreOfGraph graph (reverse trace) → items_of trace ≤ most_items → IsRun graph events trace
        → IsOrderedRun graph events trace }
{}
