//! Laws of one node, whatever packets it is handed: its logs rise, it stamps above all that it logged, each link in use
//! bounds its barrier, the mark of a link that went down is its commit register from then on, and its promise never falls.
//! In a run each node's own records are such records, so the laws hold of every run.
#![tactic(auto)]

ghost use Rattle.std.specs.Prelude.{◌≡◌, ◌≢◌, ◌<◌, ◌≤◌, ◌∷◌, ℕ, All, AllPairs, List, Some, false, length, true};
ghost use Rattle.pipe_base.specs.declared.message.Key.{Key};
ghost use Rattle.pipe_base.specs.declared.message.Service.{Service};
ghost use Rattle.pipe_base.specs.declared.message.Service.TheVariants.{Reliable};
ghost use Rattle.pipe_base.specs.declared.name.Ts.{Ts};
ghost use Rattle.pipe_base.specs.declared.packet.Plane.{Plane};
ghost use Rattle.pipe_base.specs.declared.packet.Plane.TheVariants.{Commit};
ghost use Rattle.pipe_base.specs.Barrier.{register};
ghost use Rattle.pipe_base.specs.Failed.{is_void};
ghost use Rattle.pipe_graph.specs.Graph.{Graph, ins_of};
ghost use Rattle.pipe_base.specs.Limits.{most_unsettled};
ghost use Rattle.pipe_base.specs.Messages.{has_key};
ghost use Rattle.pipe_base.specs.Moment.{has_link, is_used};
ghost use Rattle.pipe_base.specs.Scattering.{AreRising, Scattering, begun};
ghost use Rattle.pipe_base.specs.Settled.{is_settled, unsettled};
ghost use Rattle.pipe_model.specs.declared.record.Record.{Record};
ghost use Rattle.pipe_model.specs.AllOrNone.{has_logged};
ghost use Rattle.pipe_model.specs.Clock.{next, promise};
ghost use Rattle.pipe_model.specs.Fate.{held};
ghost use Rattle.pipe_model.specs.Logged.{log};
ghost use Rattle.pipe_model.specs.Marks.{mark, marks};
ghost use Rattle.pipe_model.specs.Moments.{barrier_at, moments_of, noted_hosts};
ghost use Rattle.pipe_model.specs.Order.{IsRising, IsCausal, AreLogsOrdered, AreStampsCausal};
ghost use Rattle.pipe_model.specs.Recalls.{got_recall, recalled_in_time};
ghost use Rattle.pipe_model.specs.Run.{IsHistory, IsNodeHistory, IsNodeStep};
ghost use Rattle.pipe_model.specs.Sender.{accepted_stamp, sender_calls};

/// Whatever one node is handed, each of its logs rises strictly by timestamp and sender.
pub fn logs_of_a_node_rise()
    ensures { (graph : Graph) (node : ℕ) (own : List Record) → IsNodeHistory graph node own → (service : Service)
        → IsRising (log service own) }
{}

/// Whatever one node is handed, each of its stamps is above all that it logged before.
pub fn stamps_of_a_node_are_causal()
    ensures { (graph : Graph) (node : ℕ) (own : List Record) → IsNodeHistory graph node own → IsCausal own }
{}

/// Log order: in every run, each log of each host rises strictly by timestamp and sender.
pub fn logs_of_a_run_are_ordered()
    ensures { (graph : Graph) (past : List Record) → IsHistory graph past → AreLogsOrdered graph past }
{}

/// Causality: in every run, hosts stamp above all that they logged.
pub fn stamps_of_a_run_are_causal()
    ensures { (graph : Graph) (past : List Record) → IsHistory graph past → AreStampsCausal graph past }
{}

/// While an in-link of a node is in use in a plane, the node's barrier of that plane is at most what was received on the link.
pub fn use_bounds_barrier()
    ensures { (plane : Plane) (graph : Graph) (node : ℕ) (own : List Record) (link : ℕ)
        → has_link link (ins_of graph node) ≡ true
        → is_used plane (moments_of graph node own) link ≡ true
        → barrier_at plane graph node own ≤ register plane (moments_of graph node own) link }
{}

/// Whatever one node is handed, where a link is marked with a value its commit register is that value, now and, as marks stay,
/// later; and no link is marked twice.
pub fn marks_are_frozen()
    ensures frozen { (graph : Graph) (node : ℕ) (own : List Record) (link : ℕ) (value : Ts)
        → IsNodeHistory graph node own
        → mark own link ≡ Some value → register Commit (moments_of graph node own) link ≡ value.0 }
    ensures stay { (own : List Record) (r : Record) (link : ℕ) (value : Ts) → mark own link ≡ Some value
        → mark (r ∷ own) link ≡ Some value }
    ensures once { (graph : Graph) (node : ℕ) (own : List Record) → IsNodeHistory graph node own
        → AllPairs (λ a b. a.0.0 ≢ b.0.0) (marks own) }
{}

/// The promise never falls, whatever one node is handed. It is at most the next timestamp, and no scattering below it is
/// unsettled.
pub fn promises_rise()
    ensures rises { (graph : Graph) (node : ℕ) (own : List Record) (r : Record) → IsNodeHistory graph node (r ∷ own)
        → promise graph node own ≤ promise graph node (r ∷ own) }
    ensures within { (graph : Graph) (node : ℕ) (own : List Record) → promise graph node own ≤ next graph node own }
    ensures bounds { (graph : Graph) (node : ℕ) (own : List Record)
        → All (λ s. promise graph node own ≤ s.ts.0) (unsettled (sender_calls graph node own)) }
{}

/// What is settled stays settled.
pub fn settled_scatterings_stay()
    ensures { (graph : Graph) (node : ℕ) (own : List Record) (r : Record) (s : Scattering)
        → is_settled (sender_calls graph node own) s ≡ true
        → is_settled (sender_calls graph node (r ∷ own)) s ≡ true }
{}

/// A host begins its reliable scatterings in rising order, all below its next timestamp.
pub fn scatterings_rise()
    ensures rise { (graph : Graph) (node : ℕ) (own : List Record) → IsNodeHistory graph node own
        → AreRising (begun (sender_calls graph node own)) }
    ensures below { (graph : Graph) (node : ℕ) (own : List Record)
        → All (λ s. s.ts.0 < next graph node own) (begun (sender_calls graph node own)) }
{}

/// Whatever one node is handed, no more of its reliable scatterings are unsettled than the window has.
pub fn windows_hold()
    ensures { (graph : Graph) (node : ℕ) (own : List Record) → IsNodeHistory graph node own
        → length (unsettled (sender_calls graph node own)) ≤ most_unsettled }
{}

/// Whatever one node is handed, a reliable message that it held, and that its commit barrier has passed, is in its log, unless
/// the message was taken back or its sender is noted as failed by then.
pub fn passed_messages_are_logged()
    ensures { (graph : Graph) (node : ℕ) (own : List Record) (key : Key) → IsNodeHistory graph node own
        → has_key key (held Reliable graph node own) ≡ true
        → got_recall graph node key own ≡ false → is_void (noted_hosts own) key ≡ false
        → key.ts.0 < barrier_at Commit graph node own → has_logged key own ≡ true }
{}

/// Whatever one node is handed, a message that it was told to take back before its commit barrier was above the timestamp is
/// never in its log. What it was told to take back, with the barrier not above the timestamp now, it was told so in time.
pub fn recalled_messages_are_not_logged()
    ensures never { (graph : Graph) (node : ℕ) (own : List Record) (key : Key) → IsNodeHistory graph node own
        → recalled_in_time graph node key own ≡ true → has_logged key own ≡ false }
    ensures in_time { (graph : Graph) (node : ℕ) (own : List Record) (key : Key) → got_recall graph node key own ≡ true
        → barrier_at Commit graph node own ≤ key.ts.0 → recalled_in_time graph node key own ≡ true }
{}

/// Whatever one node is handed, a stamp stands only in a record that was not refused. So a scattering begins wherever there is
/// one.
pub fn stamps_are_accepted()
    ensures { (graph : Graph) (node : ℕ) (own : List Record) (r : Record) → IsNodeStep graph node own r
        → accepted_stamp r.step ≡ r.step.stamped }
{}
