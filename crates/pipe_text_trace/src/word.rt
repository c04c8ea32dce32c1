// Words of a line. Each function appends to what stands there, and after want of memory a part may stand there.
ghost use Rattle.std.specs.Prelude.{◌≡◌, ◌++◌, [], ◌∷◌, codes, OnOk};
ghost use Rattle.pipe_text.specs.Log.{body_text};
ghost use Rattle.pipe_text.specs.Name.{name_of};
ghost use Rattle.pipe_text_trace.specs.Line.{next_words};

use itoa::{Buffer, Integer};
use pipe_base::NoMemory;
use pipe_topo::NodeNames;

/// What a function answers that appends.
pub type Appended = Result<(), NoMemory>;

/// The first word of a line.
pub fn print_first_word(out: &mut Vec<u8>, word: &[u8]) -> Appended
    ensures { OnOk result (out.new.items ≡ out.old.items ++ word.now) }
{
    out.extend_from_slice(word)?;
    Ok(())
}

/// A word after another one.
pub fn print_word(out: &mut Vec<u8>, word: &[u8]) -> Appended
    ensures { OnOk result (out.new.items ≡ out.old.items ++ next_words (word.now ∷ [])) }
{
    out.push(b' ')?;
    out.extend_from_slice(word)?;
    Ok(())
}

/// A number after another word.
pub fn print_number<N: Integer>(out: &mut Vec<u8>, number: N) -> Appended
    ensures { OnOk result (out.new.items ≡ out.old.items ++ next_words (N.text number ∷ [])) }
{
    print_word(out, Buffer::new().format(number).as_bytes())
}

/// The name of a host or of a node after another word.
pub fn print_name(out: &mut Vec<u8>, names: &NodeNames, number: u16) -> Appended
    ensures { OnOk result (out.new.items ≡ out.old.items ++ next_words (name_of names.now number ∷ [])) }
{
    print_word(out, names.name(number))
}

/// A body after another word: an empty one is `-`.
pub fn print_body(out: &mut Vec<u8>, body: &[u8]) -> Appended
    ensures { OnOk result (out.new.items ≡ out.old.items ++ next_words (body_text body.now ∷ [])) }
{
    out.push(b' ')?;
    pipe_text::print_body(out, body)
}

/// The end of a line.
pub fn print_line_end(out: &mut Vec<u8>) -> Appended
    ensures { OnOk result (out.new.items ≡ out.old.items ++ codes "\n") }
{
    out.push(b'\n')?;
    Ok(())
}
