// Shortest paths and routes.
ghost use Rattle.std.specs.Prelude.{◌≡◌, ℕ, ◌<◌, Bool, List, length, Contains};
ghost use Rattle.pipe_graph.specs.Graph.{Graph, IsGraph, link_id};
ghost use Rattle.pipe_graph.specs.ShortestRoute.{BeginsShortest, firsts_by_host, firsts_of, route_by};
ghost use Rattle.pipe_base.specs.Ways.{picked};

/// A link that is listed for a receiver begins a shortest path to it.
pub fn firsts_begin_shortest()
    ensures { (graph : Graph) (by : ℕ → Bool) (node dst link : ℕ)
        → Contains (firsts_of graph by node dst) (link_id link) → BeginsShortest graph by node dst link }
{}

/// A link that begins a shortest path to a receiver is listed for it.
pub fn shortest_are_firsts()
    ensures { (graph : Graph) (by : ℕ → Bool) (node dst link : ℕ) → IsGraph graph
        → BeginsShortest graph by node dst link → Contains (firsts_of graph by node dst) (link_id link) }
{}

/// A router with the lists by host answers the route.
pub fn lists_give_routes()
    ensures { (graph : Graph) (by : ℕ → Bool) (node src dst : ℕ)
        → picked (firsts_by_host graph by node) src dst ≡ route_by graph by node src dst }
{}

/// Sets that agree on the links of the graph give the same lists and routes.
pub fn agreeing_sets_route_alike()
    ensures lists { (graph : Graph) (s t : ℕ → Bool) (node : ℕ) → ((l : ℕ) → l < length graph.links → s l ≡ t l)
        → firsts_by_host graph s node ≡ firsts_by_host graph t node }
    ensures routes { (graph : Graph) (s t : ℕ → Bool) (node src dst : ℕ)
        → ((l : ℕ) → l < length graph.links → s l ≡ t l)
        → route_by graph s node src dst ≡ route_by graph t node src dst }
{}
