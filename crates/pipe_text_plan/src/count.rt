// How many lines of a text are read.
ghost use Rattle.std.specs.Prelude.{◌≡◌, ◌==◌, ◌≤◌, ◌<◌, ◌^◌, length, count_by, IfSome, IfNone};
ghost use Rattle.pipe_text_plan.specs.Counted.{is_read, lines_read};

use crate::word::first_word;
use pipe_text::next_line;

// The most bytes that are counted in one byte: a multiple of what the machine takes at once.
const BLOCK: usize = 192;

/// The number of lines that are not skipped: those with a word, and whose first word does not begin with `#`.
pub fn lines_read(text: &[u8]) -> u32
    requires { length text.now < 2 ^ 31 }
    ensures { result ≡ lines_read text.now }
{
    let mut count = 0;
    let mut rest = text;
    'lines: while !rest.is_empty() {
        let (line, after) = next_line(rest);
        if is_read(line) {
            count += 1;
        }
        rest = after;
    }
    count
}

/// The number of lines that are not skipped, where it is above `most`. Mostly the line feeds alone tell that it is not.
pub fn lines_above(text: &[u8], most: u32) -> Option<u32>
    requires { length text.now < 2 ^ 31 }
    ensures some { IfSome result (λ count. (count ≡ lines_read text.now) × (most < count)) }
    ensures none { IfNone result (lines_read text.now ≤ most) }
{
    if line_feeds(text) < most {
        return None;
    }
    let count = lines_read(text);
    if count > most { Some(count) } else { None }
}

fn line_feeds(text: &[u8]) -> u32
    requires { length text.now < 2 ^ 31 }
    ensures { result ≡ count_by (λ byte. byte == 10) text.now }
{
    let mut count = 0;
    let mut rest = text;
    'counting: while rest.len() > BLOCK {
        let (block, after) = rest.split_at(BLOCK);
        count += u32::from(feeds_in_block(block));
        rest = after;
    }
    count + u32::from(feeds_in_block(rest))
}

// The count is a byte, so that the machine counts at many bytes at once.
fn feeds_in_block(block: &[u8]) -> u8
    requires { length block.now ≤ 192 }
    ensures { result ≡ count_by (λ byte. byte == 10) block.now }
{
    let mut count = 0;
    for byte in block {
        count += u8::from(*byte == b'\n');
    }
    count
}

fn is_read(line: &[u8]) -> bool
    ensures { result ≡ is_read line.now }
{
    match first_word(line) {
        Some(word) => word.first() != Some(&b'#'),
        None => false,
    }
}
