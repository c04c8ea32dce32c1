// The words of a line.
ghost use Rattle.std.specs.Prelude.{◌≡◌, map, IfOk, OnOk};
ghost use Rattle.pipe_text.specs.Words.{words_of, is_blank, is_skipped};

use pipe_base::NoMemory;
use std::alloc::Global;

fn is_blank(byte: u8) -> bool
    ensures { result ≡ is_blank byte }
{
    byte == b' ' || byte == b'\t'
}

/// The words of a line, which blanks separate.
pub fn words_of(alloc: Global, line: &[u8]) -> Result<Vec<&[u8]>, NoMemory>
    ensures { IfOk result (λ words. map (λ word. word.now) words.items ≡ words_of line.now) }
{
    Ok(
        line.split(|byte| is_blank(*byte))
            .filter(|word| !word.is_empty())
            .collect(alloc)?,
    )
}

/// Puts the words of a line in the place of those of another, so that line after line takes no memory of its own.
pub fn read_words<'a>(words: &mut Vec<&'a [u8]>, line: &'a [u8]) -> Result<(), NoMemory>
    ensures { OnOk result (map (λ word. word.now) words.new.items ≡ words_of line.now) }
{
    words.clear();
    words.extend(
        line.split(|byte| is_blank(*byte))
            .filter(|word| !word.is_empty()),
    )?;
    Ok(())
}

/// A line without words, or whose first word begins with `#`.
pub fn is_skipped(words: &[&[u8]]) -> bool
    ensures { result ≡ is_skipped (map (λ word. word.now) words.now) }
{
    match words {
        [] => true,
        [first, ..] => first.first() == Some(&b'#'),
    }
}
