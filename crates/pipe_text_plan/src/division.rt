// The two parts of an input: the topology, and what comes after it.
ghost use Rattle.std.specs.Prelude.{◌≡◌, ◌+◌, ◌<◌, ◌≤◌, ◌^◌, length, option_map, IfSome};
ghost use Rattle.pipe_text.specs.Words.{words_of};
ghost use Rattle.pipe_text_plan.specs.Pieces.{pieces};
ghost use Rattle.pipe_text_plan.specs.Division.{is_mark, is_star, marked, division_of};
ghost use Rattle.pipe_text_plan.specs.Views.{division_view};

use crate::piece::split_piece;
use crate::word::first_word;
use pipe_text::next_line;

/// An input in two parts.
#[derive(Clone, Copy)]
pub struct Parts<'a> {
    /// The topology is the line of a star.
    pub star: bool,
    /// That line without its end, or what is before the mark.
    pub topology: &'a [u8],
    /// What comes after the line or the mark.
    pub rest: &'a [u8],
    /// The number of the first line of the rest, counted from 1.
    pub line: u32,
}

/// None where there is neither the line of a star nor a mark.
pub fn parts_of(input: &[u8]) -> Option<Parts<'_>>
    requires { length input.now < 2 ^ 31 }
    ensures division { option_map division_view result ≡ division_of input.now }
    ensures within { IfSome result (λ parts. parts.line + length parts.rest.now ≤ length input.now + 2) }
{
    if input.is_empty() {
        return None;
    }
    let (line, _) = next_line(input);
    if is_star(line) {
        let (_, rest) = split_piece(input);
        return Some(Parts {
            star: true,
            topology: line,
            rest,
            line: 2,
        });
    }
    around_mark(input)
}

// What is before the first mark and what is after it.
fn around_mark(input: &[u8]) -> Option<Parts<'_>>
    requires { length input.now < 2 ^ 31 }
    ensures division { option_map division_view result ≡ marked (pieces input.now) }
    ensures within { IfSome result (λ parts. parts.line + length parts.rest.now ≤ length input.now + 2) }
{
    let mut rest = input;
    let mut passed = 0;
    'pieces: while !rest.is_empty() {
        let (piece, after) = split_piece(rest);
        if is_mark(piece) {
            let (topology, _) = input.split_at(input.len() - rest.len());
            return Some(Parts {
                star: false,
                topology,
                rest: after,
                line: passed + 2,
            });
        }
        passed += 1;
        rest = after;
    }
    None
}

fn is_mark(piece: &[u8]) -> bool
    ensures { result ≡ is_mark piece.now }
{
    piece == b"---\n".as_slice() || piece == b"---\r\n".as_slice() || piece == b"---".as_slice()
}

// The first word of the line is `star`.
fn is_star(line: &[u8]) -> bool
    ensures { result ≡ is_star (words_of line.now) }
{
    match first_word(line) {
        Some(word) => word == b"star".as_slice(),
        None => false,
    }
}
