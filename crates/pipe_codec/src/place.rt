// Numbers and other bytes at a place among bytes.
ghost use Rattle.std.specs.Prelude.{◌≡◌, ◌+◌, ◌++◌, ◌≤◌, length, take, drop};
ghost use Rattle.pipe_codec.specs.Number.{two_at, six_at, six_bytes};

#[tactic(auto, unfolding(crate::specs::Number::two_at))]
pub fn two_at(at: usize, bytes: &[u8]) -> u16
    requires { at + 2 ≤ length bytes.now }
    ensures { result ≡ two_at at bytes.now }
{
    u16::from_be_bytes([bytes[at], bytes[at + 1]])
}

#[tactic(auto, unfolding(crate::specs::Number::six_at))]
pub fn six_at(at: usize, bytes: &[u8]) -> u64
    requires { at + 6 ≤ length bytes.now }
    ensures { result ≡ six_at at bytes.now }
{
    u64::from_be_bytes([
        0,
        0,
        bytes[at],
        bytes[at + 1],
        bytes[at + 2],
        bytes[at + 3],
        bytes[at + 4],
        bytes[at + 5],
    ])
}

// The low six bytes of a number.
pub fn six_bytes(number: u64) -> [u8; 6]
    ensures { result ≡ six_bytes number }
{
    let [_, _, a, b, c, d, e, f] = number.to_be_bytes();
    [a, b, c, d, e, f]
}

// Writes bytes at a place.
pub fn put(at: usize, bytes: &[u8], out: &mut [u8])
    requires { at + length bytes.now ≤ length out.old }
    ensures { out.new ≡ take at out.old ++ bytes.now ++ drop (at + length bytes.now) out.old }
{
    out[at..at + bytes.len()].copy_from_slice(bytes);
}
