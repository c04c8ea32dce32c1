// The lines of a log.
ghost use Rattle.std.specs.Prelude.{◌≡◌, ◌++◌, OnOk};
ghost use Rattle.pipe_text.specs.Log.{service_word, body_text, log_head, log_line};

use crate::print_hex;
use itoa::Buffer;
use pipe_base::{NoMemory, Service, Ts};

/// The word of a service in all texts.
pub fn service_word(service: Service) -> &'static [u8]
    ensures { result.now ≡ service_word service }
{
    match service {
        Service::BestEffort => b"best",
        Service::Reliable => b"reliable",
    }
}

/// Appends a body where it is a word of its own: an empty one is `-`. After want of memory a part of it may stand there.
pub fn print_body(out: &mut Vec<u8>, body: &[u8]) -> Result<(), NoMemory>
    ensures { OnOk result (out.new.items ≡ out.old.items ++ body_text body.now) }
{
    if body.is_empty() {
        out.push(b'-')?;
        return Ok(());
    }
    print_hex(out, body)
}

/// Appends `log HOST SERVICE COUNT`. After want of memory a part of the line may stand there.
pub fn print_log_head(
    out: &mut Vec<u8>,
    host: &[u8],
    service: Service,
    count: usize,
) -> Result<(), NoMemory>
    ensures { OnOk result (out.new.items ≡ out.old.items ++ log_head host.now service count) }
{
    out.extend_from_slice(b"log ")?;
    out.extend_from_slice(host)?;
    out.push(b' ')?;
    out.extend_from_slice(service_word(service))?;
    out.push(b' ')?;
    out.extend_from_slice(Buffer::new().format(count).as_bytes())?;
    out.push(b'\n')?;
    Ok(())
}

/// Appends `TS HOST BODY`, where HOST is the sender. After want of memory a part of the line may stand there.
pub fn print_log_line(out: &mut Vec<u8>, ts: Ts, host: &[u8], body: &[u8]) -> Result<(), NoMemory>
    ensures { OnOk result (out.new.items ≡ out.old.items ++ log_line ts.0 host.now body.now) }
{
    out.extend_from_slice(Buffer::new().format(ts.0).as_bytes())?;
    out.push(b' ')?;
    out.extend_from_slice(host)?;
    out.push(b' ')?;
    print_body(out, body)?;
    out.push(b'\n')?;
    Ok(())
}
