// The first word of a line, found without memory.
ghost use Rattle.std.specs.Prelude.{◌≡◌, not, length, position, slice_get};
ghost use Rattle.std.specs.Option.{option_copied};
ghost use Rattle.pipe_text.specs.Words.{is_blank, words_of};

fn is_blank(byte: u8) -> bool
    ensures { result ≡ is_blank byte }
{
    byte == b' ' || byte == b'\t'
}

// None where the line has no word.
pub fn first_word(line: &[u8]) -> Option<&[u8]>
    ensures { option_copied result ≡ slice_get (words_of line.now) 0 }
{
    let Some(start) = word_start(line) else {
        return None;
    };
    let (_, words) = line.split_at(start);
    match word_end(words) {
        Some(end) => Some(words.split_at(end).0),
        None => Some(words),
    }
}

fn word_start(line: &[u8]) -> Option<usize>
    ensures { result ≡ position (λ byte. not (is_blank byte)) line.now }
{
    line.iter().position(|byte| !is_blank(*byte))
}

fn word_end(words: &[u8]) -> Option<usize>
    ensures { result ≡ position is_blank words.now }
{
    words.iter().position(|byte| is_blank(*byte))
}
