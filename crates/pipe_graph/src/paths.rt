// Paths joined, split, carried over and turned round.
ghost use Rattle.std.specs.Prelude.{◌≡◌, ℕ, ◌<◌, ◌≤◌, ◌++◌, ◌∷◌, [], Bool, true, List, length};
ghost use Rattle.pipe_graph.specs.Graph.{Graph, head_of, is_half, tail_of};
ghost use Rattle.pipe_graph.specs.Path.{IsPath, Leads, every_link};
ghost use Rattle.pipe_graph.specs.Mirror.{IsMirrored, mirror_of};

/// Paths can be joined at a half.
pub fn paths_join()
    ensures { (graph : Graph) (by : ℕ → Bool) (start half end : ℕ) (front back : List ℕ) → is_half graph half ≡ true
        → IsPath graph by start half front → IsPath graph by half end back → IsPath graph by start end (front ++ back) }
{}

/// A path can be split at a link: up to it there is a path, and from its head the others, if any, lead on. They begin
/// at a half then.
pub fn paths_split()
    ensures { (graph : Graph) (by : ℕ → Bool) (start end link : ℕ) (before after : List ℕ)
        → IsPath graph by start end (before ++ link ∷ after)
        → IsPath graph by start (head_of graph link) (before ++ link ∷ [])
        × Leads graph by (head_of graph link) end after }
{}

/// A path by a set is one by each set that has its links.
pub fn larger_sets_have_paths()
    ensures { (graph : Graph) (small large : ℕ → Bool) (start end : ℕ) (path : List ℕ)
        → ((l : ℕ) → l < length graph.links → small l ≡ true → large l ≡ true) → IsPath graph small start end path
        → IsPath graph large start end path }
{}

/// In a mirrored graph a path by all links turns round.
pub fn paths_turn()
    ensures { (graph : Graph) → IsMirrored graph → (start end : ℕ) (path : List ℕ)
        → IsPath graph every_link start end path → (back : List ℕ)
        × IsPath graph every_link (mirror_of graph.hosts end) (mirror_of graph.hosts start) back }
{}

/// Let each link of a set carry a bound from what its tail sends to what its head knows, and each half send what it
/// knows. Then a path by the set carries the bound from its start to its end.
pub fn paths_carry()
    ensures { (graph : Graph) (by : ℕ → Bool) (known sent : ℕ → ℕ)
        → ((n : ℕ) → is_half graph n ≡ true → sent n ≡ known n)
        → ((l : ℕ) → l < length graph.links → by l ≡ true → known (head_of graph l) ≤ sent (tail_of graph l))
        → (start end : ℕ) (path : List ℕ) → IsPath graph by start end path → known end ≤ sent start }
{}
