// Bodies as lower-case hexadecimal digits, two a byte.
ghost use Rattle.std.specs.Prelude.{◌≡◌, ◌++◌, ◌∷◌, ◌<◌, length, IfOk, OnOk, IfNone, IfSome};
ghost use Rattle.std.specs.Option.{option_map};
ghost use Rattle.pipe_text.specs.Body.{hex_value, byte_of, byte_onto, bytes_of, body_of, hex_digit, hex_text};

use pipe_base::{BODY_LIMIT, Body, BodyFault, NoMemory};
use std::alloc::Global;

fn hex_value(digit: u8) -> Option<u8>
    ensures { result ≡ hex_value digit }
{
    match digit {
        b'0'..=b'9' => Some(digit - b'0'),
        b'a'..=b'f' => Some(digit - b'a' + 10),
        _ => None,
    }
}

fn byte_of(high: u8, low: u8) -> Option<u8>
    ensures { result ≡ byte_of (hex_value high) (hex_value low) }
{
    Some(hex_value(high)? * 16 + hex_value(low)?)
}

// The byte of a first digit and the next one, and the digits after them.
fn first_byte(high: u8, tail: &[u8]) -> Option<(u8, &[u8])>
    ensures none { IfNone result (bytes_of (high ∷ tail.now) ≡ None) }
    ensures some { IfSome result (λ p. bytes_of (high ∷ tail.now) ≡ byte_onto (Some p.0) (bytes_of p.1.now)) }
    ensures shorter { IfSome result (λ p. length p.1.now < length tail.now) }
{
    let (low, after) = tail.split_first()?;
    Some((byte_of(high, *low)?, after))
}

fn bytes_of(alloc: Global, word: &[u8]) -> Result<Option<Vec<u8>>, NoMemory>
    ensures { IfOk result (λ found. option_map (λ bytes. bytes.items) found ≡ bytes_of word.now) }
{
    let mut bytes = Vec::with_capacity(alloc, BODY_LIMIT.min(word.len() / 2))?;
    let mut rest = word;
    'pairs: while let Some((high, tail)) = rest.split_first() {
        let Some((byte, after)) = first_byte(*high, tail) else {
            return Ok(None);
        };
        bytes.push(byte)?;
        rest = after;
    }
    Ok(Some(bytes))
}

/// The body that a word spells. None where it spells none, or one of more than `BODY_LIMIT` bytes.
pub fn read_body(alloc: Global, word: &[u8]) -> Result<Option<Body>, NoMemory>
    ensures { IfOk result (λ body. body ≡ body_of word.now) }
{
    let Some(bytes) = bytes_of(alloc, word)? else {
        return Ok(None);
    };
    match Body::from_vec(bytes) {
        Ok(body) => Ok(Some(body)),
        Err(BodyFault::TooLong { .. }) => Ok(None),
        Err(BodyFault::NoMemory) => Err(NoMemory),
    }
}

fn hex_digit(value: u8) -> u8
    requires { value < 16 }
    ensures { result ≡ hex_digit value }
{
    if value < 10 {
        b'0' + value
    } else {
        b'a' + (value - 10)
    }
}

/// Appends two digits a byte. After want of memory a part of them may stand there.
pub fn print_hex(out: &mut Vec<u8>, bytes: &[u8]) -> Result<(), NoMemory>
    ensures { OnOk result (out.new.items ≡ out.old.items ++ hex_text bytes.now) }
{
    for byte in bytes {
        out.push(hex_digit(*byte / 16))?;
        out.push(hex_digit(*byte % 16))?;
    }
    Ok(())
}
