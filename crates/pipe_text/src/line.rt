// The lines of a text.
ghost use Rattle.std.specs.Prelude.{◌≡◌, ◌==◌, ◌∷◌, [], ◌++◌, ◌<◌, ◌≤◌, All, length, map, position, IfOk, IfNone, IfSome, OnOk};
ghost use Rattle.std.specs.Str.Lines.{lines, strip_carriage_return};
ghost use Rattle.pipe_text.specs.Words.{IsLineRead, word_before};

use crate::word::read_words;
use pipe_base::NoMemory;

/// The first line of a text that is not empty, and the text after it. A line ends with a line feed, or with a carriage
/// return and a line feed, or at the end of the text.
pub fn next_line(text: &[u8]) -> (&[u8], &[u8])
    requires { 0 < length text.now }
    ensures lines { lines text.now ≡ result.0.now ∷ lines result.1.now }
    ensures shorter { length result.1.now < length text.now }
{
    let Some(at) = line_feed(text) else {
        return (text, &[]);
    };
    let (line, _) = text.split_at(at);
    let (_, rest) = text.split_at(at + 1);
    (without_return(line), rest)
}

/// Puts the words of the first line of a text that is not empty in the place of others, and answers the text after that
/// line. A line without odd bytes is read in one pass.
pub fn read_line_words<'a>(words: &mut Vec<&'a [u8]>, text: &'a [u8]) -> Result<&'a [u8], NoMemory>
    requires { 0 < length text.now }
    ensures { IfOk result (λ rest. IsLineRead text.now rest.now (map (λ word. word.now) words.new.items)) }
{
    words.clear();
    if let Some(rest) = read_plain_line(words, text)? {
        return Ok(rest);
    }
    let (line, rest) = next_line(text);
    read_words(words, line)?;
    Ok(rest)
}

// Appends the words of the first line, if spaces alone separate them and a line feed ends it; else perhaps some of them.
fn read_plain_line<'a>(
    words: &mut Vec<&'a [u8]>,
    text: &'a [u8],
) -> Result<Option<&'a [u8]>, NoMemory>
    requires { words.old.items ≡ [] }
    ensures { IfOk result (λ found. IfSome found
        (λ rest. IsLineRead text.now rest.now (map (λ word. word.now) words.new.items))) }
{
    let mut rest = text;
    'words: while let Some((word, stop, after)) = cut_word(rest) {
        add_word(words, word)?;
        match stop {
            b'\n' => return Ok(Some(after)),
            b' ' => rest = after,
            _ => return Ok(None),
        }
    }
    Ok(None)
}

// Appends a word, unless it is empty.
fn add_word<'a>(words: &mut Vec<&'a [u8]>, word: &'a [u8]) -> Result<(), NoMemory>
    ensures { OnOk result (map (λ word. word.now) words.new.items ≡ map (λ word. word.now) words.old.items
        ++ word_before word.now []) }
{
    if !word.is_empty() {
        words.push(word)?;
    }
    Ok(())
}

/// The bytes above the space, the first byte that is not, and what comes after it. None where all bytes are above the space.
pub fn cut_word(text: &[u8]) -> Option<(&[u8], u8, &[u8])>
    ensures some { IfSome result
        (λ cut. (text.now ≡ cut.0.now ++ cut.1 ∷ cut.2.now) × All (λ byte. 32 < byte) cut.0.now) }
    ensures stop { IfSome result (λ cut. cut.1 ≤ 32) }
    ensures none { IfNone result (All (λ byte. 32 < byte) text.now) }
{
    let at = text.iter().position(|byte| *byte <= b' ')?;
    let (word, rest) = text.split_at(at);
    let (stop, rest) = rest.split_first()?;
    Some((word, *stop, rest))
}

// Where the first line feed is.
fn line_feed(text: &[u8]) -> Option<usize>
    ensures { result ≡ position (λ byte. byte == 10) text.now }
{
    text.iter().position(|byte| *byte == b'\n')
}

// The line without the one carriage return at its end, if it has one.
fn without_return(line: &[u8]) -> &[u8]
    ensures { result.now ≡ strip_carriage_return line.now }
{
    match line.split_last() {
        Some((b'\r', front)) => front,
        _ => line,
    }
}
