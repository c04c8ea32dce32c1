// What becomes of the message that a packet brings, and how it is held and let go.
ghost use Rattle.std.specs.Prelude.{◌≡◌, Some, OnErr, OnOk};
ghost use Rattle.pipe_base.specs.Messages.{Messages};
ghost use Rattle.pipe_model.specs.Fate.{with_held};
ghost use Rattle.pipe_host.specs.Buffers.{IsNew};

use pipe_base::{Fate, NoMemory, Packet};
use pipe_model::key_of;
use pipe_reorder::Reorder;

/// Holds the message of a packet whose fate is held.
pub fn hold(held: &mut Reorder, fate: Option<Fate>, packet: &Packet) -> Result<(), NoMemory>
    ensures ok { OnOk result (held.new ≡ record held.old { messages = with_held fate (Some packet.now) held.old.messages }) }
    ensures err { OnErr result (held.new ≡ held.old) }
{
    match fate {
        Some(Fate::Held) => held.hold(key_of(packet), packet.body.try_clone()?),
        _ => Ok(()),
    }
}

/// Holds no more what `hold` holds for this packet.
pub fn let_go(held: &mut Reorder, fate: Option<Fate>, packet: &Packet)
    ensures { (messages : Messages) → IsNew fate (Some packet.now) messages
        → held.old.messages ≡ with_held fate (Some packet.now) messages
        → held.new ≡ record held.old { messages = messages } }
{
    match fate {
        Some(Fate::Held) => held.unhold(key_of(packet)),
        _ => {}
    }
}
