// The lines of a text with the bytes that end them.
ghost use Rattle.std.specs.Prelude.{◌≡◌, ◌==◌, ◌∷◌, ◌++◌, ◌<◌, length, position};
ghost use Rattle.pipe_text_plan.specs.Pieces.{pieces};

// The text up to its first line feed and with it, and the text after it.
pub fn split_piece(text: &[u8]) -> (&[u8], &[u8])
    requires { 0 < length text.now }
    ensures pieces { pieces text.now ≡ result.0.now ∷ pieces result.1.now }
    ensures joined { text.now ≡ result.0.now ++ result.1.now }
    ensures shorter { length result.1.now < length text.now }
{
    match line_feed(text) {
        None => (text, &[]),
        Some(at) => text.split_at(at + 1),
    }
}

fn line_feed(text: &[u8]) -> Option<usize>
    ensures { result ≡ position (λ byte. byte == 10) text.now }
{
    text.iter().position(|byte| *byte == b'\n')
}
