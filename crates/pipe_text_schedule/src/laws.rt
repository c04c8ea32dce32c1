// What every schedule has that is read. The law is a function that does nothing and ensures it.
ghost use Rattle.std.specs.Prelude.{ℕ, List, All, IfOk};
ghost use Rattle.pipe_graph.specs.Graph.{Graph};
ghost use Rattle.pipe_model.specs.Event.{IsOfGraph};
ghost use Rattle.pipe_text_schedule.specs.Schedule.{schedule_of};

/// Each event of a schedule is one of the network.
pub fn schedules_can_happen()
    ensures { (graph : Graph) (names : List (List ℕ)) (first : ℕ) (lines : List (List ℕ))
        → IfOk (schedule_of graph names first lines) (All (IsOfGraph graph)) }
{}
