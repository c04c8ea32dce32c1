// Numbers in their one spelling.
ghost use Rattle.std.specs.Prelude.{◌≡◌, ◌<◌, ◌≤◌, ◌↔◌, ◌++◌, ◌∷◌, ℕ, List, false, decimal, length, take, IfSome, IfNone, Some, None};
ghost use Rattle.std.specs.Char.{is_ascii_digit};
ghost use Rattle.pipe_text.specs.Number.{AreDigits, is_spelled, number_of};

/// The most digits of a number.
const MOST_DIGITS: usize = 15;

/// A word is a number of at most 15 digits exactly where it is what is printed of its value.
pub fn numbers_are_as_printed()
    ensures { (word : List ℕ) (most n : ℕ) → most < 1000000000000000
        → (number_of most word ≡ Some n) ↔ ((word ≡ decimal n) × (n ≤ most)) }
{}

/// The number that a word spells: `0`, or at most 15 digits without a leading zero. None where it spells none, or one
/// above `most`.
pub fn read_number(word: &[u8], most: u64) -> Option<u64>
    ensures { result ≡ number_of most word.now }
{
    match front_number(word, most) {
        Some((value, count)) if count == word.len() => Some(value),
        _ => None,
    }
}

/// The number that the front of a text spells, up to the first `stop`, and the text after that. None where it spells none,
/// or one above `most`: where the stop is no digit, no front of the text up to a stop is a number then.
pub fn number_before(text: &[u8], stop: u8, most: u64) -> Option<(u64, &[u8])>
    ensures some { IfSome result
        (λ p. (word : List ℕ) × (text.now ≡ word ++ stop ∷ p.1.now) × (number_of most word ≡ Some p.0)) }
    ensures none { IfNone result ((word after : List ℕ) → is_ascii_digit stop ≡ false → text.now ≡ word ++ stop ∷ after
        → number_of most word ≡ None) }
{
    let (value, count) = front_number(text, most)?;
    let (_, rest) = text.split_at(count);
    match rest.split_first() {
        Some((found, after)) if *found == stop => Some((value, after)),
        _ => None,
    }
}

// The number that all digits at the front of a text spell, and how many they are.
fn front_number(text: &[u8], most: u64) -> Option<(u64, usize)>
    ensures within { IfSome result (λ p. p.1 ≤ length text.now) }
    ensures front { IfSome result (λ p. number_of most (take p.1 text.now) ≡ Some p.0) }
    ensures digits { IfSome result (λ p. AreDigits text.now p.1 p.0) }
    ensures longest { IfSome result (λ p. p.1 < length text.now → number_of most text.now ≡ None) }
    ensures none { IfNone result (number_of most text.now ≡ None) }
    ensures before { IfNone result ((word after : List ℕ) (stop : ℕ) → is_ascii_digit stop ≡ false
        → text.now ≡ word ++ stop ∷ after → number_of most word ≡ None) }
{
    let (value, count) = leading_digits(text);
    if !is_spelled(text, count) {
        return None;
    }
    if value <= most {
        Some((value, count))
    } else {
        None
    }
}

// One digit, or more that do not begin with a zero.
fn is_spelled(text: &[u8], count: usize) -> bool
    requires { count ≤ length text.now }
    ensures { result ≡ is_spelled text.now count }
{
    count == 1 || (count > 1 && text[0] != b'0')
}

// The value of the digits at the front of a text, of which no more than a number has are read, and how many they are.
fn leading_digits(text: &[u8]) -> (u64, usize)
    ensures { AreDigits text.now result.1 result.0 }
{
    let most = text.len().min(MOST_DIGITS);
    let mut value = 0;
    for at in 0..most {
        if !text[at].is_ascii_digit() {
            return (value, at);
        }
        value = value * 10 + u64::from(text[at] - b'0');
    }
    (value, most)
}
