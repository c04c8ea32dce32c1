// Reaching and feeding, and paths.
ghost use Rattle.std.specs.Prelude.{◌≡◌, ℕ, ◌<◌, ◌++◌, ◌∷◌, Bool, true, List};
ghost use Rattle.pipe_graph.specs.Graph.{Graph, IsGraph};
ghost use Rattle.pipe_graph.specs.Path.{IsPath, every_link};
ghost use Rattle.pipe_graph.specs.Reach.{feeds, reaches};
ghost use Rattle.pipe_graph.specs.Mirror.{IsMirrored};

/// What reaches has a path.
pub fn reach_has_path()
    ensures { (graph : Graph) (by : ℕ → Bool) (start end : ℕ) → reaches graph by start end ≡ true → (path : List ℕ)
        × IsPath graph by start end path }
{}

/// What has a path reaches.
pub fn path_is_reach()
    ensures { (graph : Graph) (by : ℕ → Bool) (start end : ℕ) (path : List ℕ) → IsGraph graph
        → IsPath graph by start end path → reaches graph by start end ≡ true }
{}

/// The start of a path feeds each link of the path.
pub fn paths_are_fed()
    ensures { (graph : Graph) (by : ℕ → Bool) (start end link : ℕ) (before after : List ℕ) → IsGraph graph
        → IsPath graph by start end (before ++ link ∷ after) → feeds graph by start link ≡ true }
{}

/// In a mirrored graph hosts reach each other by all links, or neither reaches the other.
pub fn reach_turns()
    ensures { (graph : Graph) → IsGraph graph → IsMirrored graph → (a b : ℕ) → a < graph.hosts → b < graph.hosts
        → reaches graph every_link a b ≡ true → reaches graph every_link b a ≡ true }
{}
