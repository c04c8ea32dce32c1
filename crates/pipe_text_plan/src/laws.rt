// What every plan has that is read. Each law is a function that does nothing and ensures it.
ghost use Rattle.std.specs.Prelude.{◌≡◌, None, IfOk};
ghost use Rattle.pipe_topo.specs.Fault.{fault_of};
ghost use Rattle.pipe_topo.specs.Plan.{IsPlan};
ghost use Rattle.pipe_text_plan.specs.Described.{described_by};
ghost use Rattle.pipe_text_plan.specs.Division.{Division};
ghost use Rattle.pipe_text_plan.specs.HasNames.{HasNodeNames, IsInRange};

/// What a topology part describes is a plan within the limits, and has no fault.
pub fn described_plans_have_no_fault()
    ensures { (division : Division)
        → IfOk (described_by division) (λ described. IsPlan described.plan × (fault_of described.plan ≡ None)) }
{}

/// Each of its nodes has a name: as many names are given as there are hosts and switches, each by the grammar and all
/// different. Levels and patience are in their ranges.
pub fn described_plans_have_names()
    ensures names { (division : Division) → IfOk (described_by division) (λ described. HasNodeNames described.names described.plan) }
    ensures range { (division : Division) → IfOk (described_by division) (λ described. IsInRange described.plan) }
{}
