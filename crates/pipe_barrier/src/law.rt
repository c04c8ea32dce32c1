// The law of the barrier.
ghost use Rattle.std.specs.Prelude.{List};
ghost use Rattle.pipe_base.specs.declared.name.LinkId.{LinkId};
ghost use Rattle.pipe_base.specs.declared.packet.Plane.{Plane};
ghost use Rattle.pipe_base.specs.Moment.{Moment};
ghost use Rattle.pipe_base.specs.Barrier.{IsGreatestOrZero, IsPassed, barrier};

/// The barrier of a node is the greatest bound that was passed at some moment, or 0 where none was.
pub fn barrier_is_greatest_passed()
    ensures { (plane : Plane) (ins : List LinkId) (past : List Moment)
        → IsGreatestOrZero (IsPassed plane ins past) (barrier plane ins past) }
{}
