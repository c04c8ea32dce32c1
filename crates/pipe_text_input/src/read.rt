// The bytes of an input as a network and its events.
ghost use Rattle.std.specs.Prelude.{◌≡◌, ◌≢◌, ◌+◌, ◌≤◌, length, IfOk, IfErr, Some, Err};
ghost use Rattle.pipe_base.specs.Limits.{most_bytes};
ghost use Rattle.pipe_text_plan.specs.Described.{described_by};
ghost use Rattle.pipe_text_plan.specs.Input.{IsInput};
ghost use Rattle.pipe_text_plan.specs.Views.{division_view};
ghost use Rattle.pipe_text_input.specs.Content.{content_of, divided, planned};
ghost use Rattle.pipe_text_input.specs.Read.{IsRead};

use crate::{Input, InputFault};
use pipe_text_plan::{Parts, PlanError, PlanFault, PlanInput, lines_above, parts_of, read_plan};
use pipe_text_schedule::{ScheduleFault, read_schedule};
use std::alloc::Global;

// The most lines of a schedule that are not skipped.
const EVENT_LIMIT: u32 = 200000;

/// Reads an input: a topology part and a schedule.
pub fn read_input(alloc: Global, bytes: &[u8]) -> Result<Input, InputFault>
    requires { length bytes.now ≤ most_bytes }
    ensures ok { IfOk result (IsRead (content_of bytes.now)) }
    ensures fault { IfErr result (λ fault. fault ≢ InputFault.NoMemory → content_of bytes.now ≡ Err fault) }
{
    let Some(parts) = parts_of(bytes) else {
        return Err(InputFault::Plan(PlanFault::NoMark));
    };
    read_parts(alloc, &parts)
}

fn read_parts(alloc: Global, parts: &Parts<'_>) -> Result<Input, InputFault>
    requires { parts.now.line + length parts.now.rest.now ≤ most_bytes + 2 }
    ensures ok { IfOk result (IsRead (divided (Some (division_view parts.now)))) }
    ensures fault { IfErr result
        (λ fault. fault ≢ InputFault.NoMemory → divided (Some (division_view parts.now)) ≡ Err fault) }
{
    if let Some(count) = lines_above(parts.rest, EVENT_LIMIT) {
        return Err(InputFault::TooManyEvents { count });
    }
    match read_plan(alloc, parts) {
        Ok(input) => read_events(alloc, parts, input),
        Err(PlanError::Plan(fault)) => Err(InputFault::Plan(fault)),
        Err(PlanError::NoMemory) => Err(InputFault::NoMemory),
    }
}

// Reads the schedule of a network that was read.
fn read_events(alloc: Global, parts: &Parts<'_>, input: PlanInput) -> Result<Input, InputFault>
    requires part { parts.now.line + length parts.now.rest.now ≤ most_bytes + 2 }
    requires input { IsInput (described_by (division_view parts.now)) input }
    ensures ok { IfOk result (IsRead (planned (division_view parts.now) (described_by (division_view parts.now)))) }
    ensures fault { IfErr result (λ fault. fault ≢ InputFault.NoMemory
        → planned (division_view parts.now) (described_by (division_view parts.now)) ≡ Err fault) }
{
    let PlanInput {
        names,
        plan,
        topology,
    } = input;
    match read_schedule(alloc, &names, &topology, parts.rest, parts.line) {
        Ok(events) => Ok(Input {
            names,
            plan,
            topology,
            events,
        }),
        Err(ScheduleFault::Line { line, kind }) => Err(InputFault::Line { line, kind }),
        Err(ScheduleFault::NoMemory) => Err(InputFault::NoMemory),
    }
}
