// What holds of those that must go. Each law is a function that does nothing and ensures it. Sets of hosts and links are
// tests on their numbers.
ghost use Rattle.std.specs.Prelude.{◌≡◌, ◌⊎◌, ◌↔◌, ℕ, ◌<◌, ◌++◌, ◌∷◌, Bool, List, Option, None, Some, length, true, false};
ghost use Rattle.pipe_base.specs.declared.name.Ts.{Ts};
ghost use Rattle.pipe_graph.specs.Graph.{Graph, IsGraph, head_of};
ghost use Rattle.pipe_graph.specs.Path.{IsPath};
ghost use Rattle.pipe_graph.specs.Reach.{feeds, reaches};
ghost use Rattle.pipe_graph.specs.Cut.{IsCut, is_cut};
ghost use Rattle.pipe_graph.specs.Doomed.{GoesNext, are_partners, doomed, goes_next, is_left};
ghost use Rattle.pipe_graph.specs.FailureTime.{IsFailureTime, IsFedReport, failure_time};
ghost use Rattle.pipe_graph.specs.Reported.{unreported};
ghost use Rattle.pipe_graph.specs.Useless.{IsUseless, is_useless};

/// A doomed host stays doomed.
pub fn doomed_hosts_stay_doomed()
    ensures { (graph : Graph) (by members before : ℕ → Bool) (host : ℕ) → before host ≡ true
        → doomed graph by members before host ≡ true }
{}

/// A host that was not doomed before and is now, is a member.
pub fn only_members_are_doomed()
    ensures { (graph : Graph) (by members before : ℕ → Bool) (host : ℕ) → doomed graph by members before host ≡ true
        → before host ≡ false → (host < graph.hosts) × (members host ≡ true) }
{}

/// Any two members that are not doomed reach each other, and each itself.
pub fn kept_hosts_reach_each_other()
    ensures { (graph : Graph) (by members before : ℕ → Bool) (a b : ℕ)
        → is_left graph members (doomed graph by members before) a ≡ true
        → is_left graph members (doomed graph by members before) b ≡ true → reaches graph by a b ≡ true }
{}

/// Where any two members that are not doomed are partners, nobody more is doomed.
pub fn partners_are_kept()
    ensures { (graph : Graph) (by members before : ℕ → Bool)
        → ((a b : ℕ) → is_left graph members before a ≡ true → is_left graph members before b ≡ true
        → are_partners graph by a b ≡ true) → (host : ℕ) → doomed graph by members before host ≡ before host }
{}

/// Where a host is left, exactly one goes next: the one of the fewest partners, of the fewest reached, of the greatest
/// number.
pub fn one_host_goes_next()
    ensures some { (graph : Graph) (by left : ℕ → Bool) (a : ℕ) → a < graph.hosts → left a ≡ true → (host : ℕ)
        × (host < graph.hosts) × (goes_next graph by left host ≡ true) }
    ensures alone { (graph : Graph) (by left : ℕ → Bool) (a b : ℕ) → a < graph.hosts → b < graph.hosts
        → goes_next graph by left a ≡ true → goes_next graph by left b ≡ true → a ≡ b }
    ensures words { (graph : Graph) (by left : ℕ → Bool) (host : ℕ) → host < graph.hosts
        → (goes_next graph by left host ≡ true) ↔ GoesNext graph by left host }
{}

/// A host reaches no kept host by the live links without reports exactly where each path by live links to a kept host
/// has a reported link.
pub fn cut_hosts_have_reported_paths()
    ensures { (graph : Graph) (live : ℕ → Bool) (reports : ℕ → Option Ts) (kept : ℕ → Bool) (host : ℕ) → IsGraph graph
        → (is_cut graph (unreported live reports) kept host ≡ true) ↔ IsCut graph live reports kept host }
{}

/// A host that is cut feeds, by the set, none of its links that leads to a kept host.
pub fn cut_hosts_feed_no_kept_host()
    ensures { (graph : Graph) (by kept : ℕ → Bool) (host link : ℕ) → IsGraph graph → is_cut graph by kept host ≡ true
        → link < length graph.links → by link ≡ true → head_of graph link < graph.hosts
        → kept (head_of graph link) ≡ true → feeds graph by host link ≡ false }
{}

/// The failure time is the greatest value that was reported of a live link that the host feeds by live links, and there
/// is none exactly where it feeds no such link.
pub fn failure_time_is_greatest_report()
    ensures some { (graph : Graph) (live : ℕ → Bool) (reports : ℕ → Option Ts) (host : ℕ) (time : Ts)
        → (failure_time graph live reports host ≡ Some time) ↔ IsFailureTime graph live reports host time }
    ensures none { (graph : Graph) (live : ℕ → Bool) (reports : ℕ → Option Ts) (host : ℕ)
        → (failure_time graph live reports host ≡ None) ↔ ((link : ℕ) (value : Ts)
        → ¬ IsFedReport graph live reports host link value) }
{}

/// A link is useless exactly where it is of the set and no kept host feeds it by the set.
pub fn useless_links_are_fed_by_no_kept_host()
    ensures { (graph : Graph) (by kept : ℕ → Bool) (link : ℕ)
        → (is_useless graph by kept link ≡ true) ↔ IsUseless graph by kept link }
{}

/// No link of a path by the set from a kept host is useless.
pub fn paths_of_kept_hosts_are_of_use()
    ensures { (graph : Graph) (by kept : ℕ → Bool) (host end link : ℕ) (before after : List ℕ) → IsGraph graph
        → host < graph.hosts → kept host ≡ true → IsPath graph by host end (before ++ link ∷ after)
        → is_useless graph by kept link ≡ false }
{}
