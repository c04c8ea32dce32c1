// The input, read to its end.
ghost use Rattle.std.specs.Prelude.{◌≡◌, IfOk, OnOk, Result};
ghost use Rattle.pipe_outside.specs.Outside.{Rose};
ghost use Rattle.pipe_cli.specs.Read.{WasRead};

use pipe_outside::Source;
use std::alloc::Global;

/// The most bytes that an input has.
pub const INPUT_LIMIT: usize = 67_108_864;

const BUFFER: usize = 65_536;

/// Why the input was not read.
#[derive(Clone, Copy, Debug, PartialEq, Eq)]
pub enum ReadStop {
    Failed,
    NoMemory,
}

/// Reads to the end, or one byte beyond the limit.
pub fn read_all<S: Source>(alloc: Global, source: &mut S) -> Result<Vec<u8>, ReadStop>
    ensures read { IfOk result (λ bytes. WasRead (S.left source.old) (S.left source.new) bytes.items) }
    ensures steady { OnOk result (S.faults source.new ≡ S.faults source.old) }
    ensures failed { result ≡ Err ReadStop.Failed → Rose (S.faults source.old) (S.faults source.new) }
    ensures kept { result ≡ Err ReadStop.NoMemory → S.faults source.new ≡ S.faults source.old }
{
    let mut bytes = Vec::new(alloc);
    let mut buffer = [0; BUFFER];
    'reading: while bytes.len() <= INPUT_LIMIT {
        let allowed = BUFFER.min(INPUT_LIMIT + 1 - bytes.len());
        let Ok(count) = source.read(&mut buffer[..allowed]) else {
            return Err(ReadStop::Failed);
        };
        if count == 0 {
            return Ok(bytes);
        }
        if bytes.extend_from_slice(&buffer[..count]).is_err() {
            return Err(ReadStop::NoMemory);
        }
    }
    Ok(bytes)
}
