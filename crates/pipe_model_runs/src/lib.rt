//! Laws of runs as a whole: a list of events has exactly one run, hosts agree on the order of what they log, and what
//! a host logs is what it received and its barrier passed.
#![tactic(auto)]

ghost use Rattle.std.specs.Prelude.{◌≡◌, ◌<◌, ◌≤◌, ◌++◌, ◌↔◌, ℕ, All, AllPairs, Contains, List, false};
ghost use Rattle.pipe_base.specs.declared.message.Entry.{Entry};
ghost use Rattle.pipe_base.specs.declared.message.Service.{Service};
ghost use Rattle.pipe_base.specs.declared.message.Service.TheVariants.{BestEffort, Reliable};
ghost use Rattle.pipe_base.specs.declared.packet.Plane.{Plane};
ghost use Rattle.pipe_base.specs.declared.packet.Plane.TheVariants as plane;
ghost use Rattle.pipe_base.specs.Failed.{is_void};
ghost use Rattle.pipe_graph.specs.Graph.{Graph};
ghost use Rattle.pipe_model.specs.declared.event.Event.{Event};
ghost use Rattle.pipe_model.specs.declared.record.Record.{Record};
ghost use Rattle.pipe_model.specs.Acting.{own};
ghost use Rattle.pipe_model.specs.AllOrNone.{IsAllOrNone};
ghost use Rattle.pipe_model.specs.Fate.{plane_of};
ghost use Rattle.pipe_model.specs.Logged.{log};
ghost use Rattle.pipe_model.specs.Moments.{barrier_at, noted_hosts};
ghost use Rattle.pipe_model.specs.OneRun.{record_after, run_of};
ghost use Rattle.pipe_model.specs.Order.{AreStampsCausal};
ghost use Rattle.pipe_model.specs.Recalls.{got_recall};
ghost use Rattle.pipe_model.specs.Run.{IsHistory, IsNodeHistory, IsRun, IsStep};
ghost use Rattle.pipe_model_runs.specs.Agreement.{DoHostsAgree};
ghost use Rattle.pipe_model_runs.specs.Holding.{WasHeld};
ghost use Rattle.pipe_model_runs.specs.RecordOrder.{IsAllOrNoneInOrder, IsCausalInOrder, scatterings};
ghost use Rattle.pipe_model_runs.specs.StampOrder.{DoStampsRise};

/// One record of an event follows a history: `record_after` is as the rules have it, and any that is so is equal to it.
pub fn one_record_follows()
    ensures event { (graph : Graph) (past : List Record) (event : Event)
        → (record_after graph past event).event ≡ event }
    ensures follows { (graph : Graph) (past : List Record) (event : Event)
        → IsStep graph past (record_after graph past event) }
    ensures only { (graph : Graph) (past : List Record) (event : Event) (r : Record) → IsHistory graph past
        → IsStep graph past r → r.event ≡ event → r ≡ record_after graph past event }
{}

/// There is exactly one run of a list of events: `run_of` is one, and any is equal to it.
pub fn there_is_one_run()
    ensures exists { (graph : Graph) (events : List Event) → IsRun graph events (run_of graph events) }
    ensures only { (graph : Graph) (events : List Event) (trace : List Record) → IsRun graph events trace
        → trace ≡ run_of graph events }
{}

/// Agreement: in every run, what two hosts both logged of a service they logged in the same order. Messages count as
/// the same where timestamp and sender are, so as those of one scattering.
pub fn hosts_agree_on_order()
    ensures { (graph : Graph) (past : List Record) → IsHistory graph past → DoHostsAgree graph past }
{}

/// The barriers of a node never fall, whatever it is handed; so in every run.
pub fn barriers_never_fall()
    ensures node { (plane : Plane) (graph : Graph) (node : ℕ) (before more : List Record)
        → barrier_at plane graph node before ≤ barrier_at plane graph node (more ++ before) }
    ensures run { (plane : Plane) (graph : Graph) (node : ℕ) (past more : List Record)
        → barrier_at plane graph node (own graph node past)
        ≤ barrier_at plane graph node (own graph node (more ++ past)) }
{}

/// The stamps of a node rise strictly, over both services, whatever it is handed; so in every run no two scatterings of
/// a host have one timestamp.
pub fn stamps_rise()
    ensures node { (graph : Graph) (node : ℕ) (own : List Record) → IsNodeHistory graph node own
        → DoStampsRise own }
    ensures run { (graph : Graph) (past : List Record) → IsHistory graph past
        → (node : ℕ) → DoStampsRise (own graph node past) }
{}

/// What a host has logged of a service, whatever it is handed, it received by then as a packet addressed to it, and
/// held; and its barrier has passed it.
pub fn what_is_logged_was_received()
    ensures received { (service : Service) (graph : Graph) (node : ℕ) (own : List Record)
        → IsNodeHistory graph node own
        → All (λ e. WasHeld service graph node e own) (log service own) }
    ensures passed { (service : Service) (graph : Graph) (node : ℕ) (own : List Record) → IsNodeHistory graph node own
        → All (λ e. e.key.ts.0 < barrier_at (plane_of service) graph node own) (log service own) }
{}

/// Whatever a host is handed, a message that it received and held, and that its barrier has passed, is in its log with
/// its body: of best effort always, and a reliable one unless it was taken back or is void by then, as its sender is
/// noted as failed from a time on that is not above it.
pub fn what_passed_is_logged()
    ensures best_effort { (graph : Graph) (node : ℕ) (own : List Record) (entry : Entry)
        → IsNodeHistory graph node own
        → WasHeld BestEffort graph node entry own
        → entry.key.ts.0 < barrier_at plane.BestEffort graph node own → Contains (log BestEffort own) entry }
    ensures reliable { (graph : Graph) (node : ℕ) (own : List Record) (entry : Entry)
        → IsNodeHistory graph node own
        → WasHeld Reliable graph node entry own
        → got_recall graph node entry.key own ≡ false → is_void (noted_hosts own) entry.key ≡ false
        → entry.key.ts.0 < barrier_at plane.Commit graph node own → Contains (log Reliable own) entry }
{}

/// Of any list of records, all or none and causality say the same host by host and in the order of the records, in
/// which the scatterings are listed by rising numbers.
pub fn order_of_records_says_the_same()
    ensures in_order { (graph : Graph) (past : List Record)
        → AllPairs (λ a b. a.number < b.number) (scatterings graph past) }
    ensures all_or_none { (graph : Graph) (past : List Record)
        → IsAllOrNone graph past ↔ IsAllOrNoneInOrder graph past }
    ensures causality { (graph : Graph) (past : List Record)
        → AreStampsCausal graph past ↔ IsCausalInOrder graph past }
{}
