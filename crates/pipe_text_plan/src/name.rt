// The names of hosts and switches.
ghost use Rattle.std.specs.Prelude.{◌≡◌};
ghost use Rattle.std.specs.List.{list_all};
ghost use Rattle.pipe_text_plan.specs.Name.{is_letter, is_name_byte, is_name};

fn is_letter(byte: u8) -> bool
    ensures { result ≡ is_letter byte }
{
    matches!(byte, b'a'..=b'z')
}

fn is_name_byte(byte: u8) -> bool
    ensures { result ≡ is_name_byte byte }
{
    is_letter(byte) || byte.is_ascii_digit() || byte == b'-' || byte == b'_'
}

fn are_name_bytes(bytes: &[u8]) -> bool
    ensures { result ≡ list_all is_name_byte bytes.now }
{
    bytes.iter().all(|byte| is_name_byte(*byte))
}

/// 1 to 16 lower-case letters, digits, `-` and `_`, of which the first is a letter; and not `controller`.
pub fn is_name(word: &str) -> bool
    ensures { result ≡ is_name word.now }
{
    match word.as_bytes().split_first() {
        None => false,
        Some((first, rest)) => {
            is_letter(*first) && rest.len() < 16 && are_name_bytes(rest) && word != "controller"
        }
    }
}
