// That copies succeed with ample memory.

use pipe_base::{KeptStep, NoMemory, NodeId, Outcome, Ts};
use pipe_model::{Event, Record, Took};

fn is_copied(record: &Record) -> Result<bool, NoMemory> {
    let copy = record.try_clone()?;
    Ok(
        matches!(
            copy.event,
            Event::Tick {
                node: NodeId(3),
                now: Ts(40)
            }
        ) && matches!(copy.took, Took::Nothing),
    )
}

#[test]
fn records_are_copied(rt: HostRuntime) -> Result<(), NoMemory> {
    let record = Record {
        event: Event::Tick {
            node: NodeId(3),
            now: Ts(40),
        },
        took: Took::Nothing,
        step: KeptStep::quiet(Outcome::Ok),
    };
    assert!(rt; is_copied(&record)?);
    Ok(())
}
