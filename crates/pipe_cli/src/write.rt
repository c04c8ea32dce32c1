// The text, written whole.
ghost use Rattle.std.specs.Prelude.{◌≡◌, ◌<◌, ℕ, length, take, OnOk, OnErr};
ghost use Rattle.std.specs.Io.KnownBytes.{Appends};
ghost use Rattle.pipe_outside.specs.Outside.{Rose};
ghost use Rattle.pipe_cli.specs.Write.{EndsAtFault};

use pipe_outside::{Failed, Sink};

/// Writes all, or the part from the beginning that the calls before a failed one took.
pub fn write_all<K: Sink>(sink: &mut K, text: &[u8]) -> Result<(), Failed>
    ensures written { OnOk result (Appends (K.written sink.old) (K.written sink.new) text.now) }
    ensures steady { OnOk result (K.faults sink.new ≡ K.faults sink.old) }
    ensures part { OnErr result ((n : ℕ) × (n < length text.now)
        × Appends (K.written sink.old) (K.written sink.new) (take n text.now)) }
    ensures failed { OnErr result (Rose (K.faults sink.old) (K.faults sink.new)) }
    ensures last { OnErr result (EndsAtFault K.written K.faults sink.old sink.new) }
{
    let mut at = 0;
    'writing: while at < text.len() {
        let Ok(count) = sink.write(&text[at..]) else {
            return Err(Failed);
        };
        at += count;
    }
    Ok(())
}
