// Numbers in bytes, the least significant byte first. What lies past a slice's end counts as 0.
#![tactic(auto)]

ghost use Rattle.std.specs.Prelude.{◌≡◌, ℕ, ◌+◌, ◌-◌, ◌≤◌, ◌<◌, ◌++◌, get_or, length, replicate};
ghost use Rattle.le_bytes.specs.LeBytes.{le};

// The byte of s at a place.
pub fn read_u8(s: &[u8], at: usize) -> u8
    ensures { result ≡ get_or s.now at 0 }
{
    s.get(at).copied().unwrap_or(0)
}

// The bytes of s, and zeros up to N: an array, which is what `from_le_bytes` takes.
fn padded<const N: usize>(s: &[u8]) -> [u8; N]
    requires { length s.now ≤ N }
    ensures { result ≡ s.now ++ replicate (N - length s.now) 0 }
{
    std::array::from_fn(|i| read_u8(s, i))
}

// The N bytes of s from a place on. Bytes that are all in s are copied at once, which compiles to one load.
fn read_bytes<const N: usize>(s: &[u8], at: usize) -> [u8; N]
    ensures length { length result ≡ N }
    ensures bytes { (i : ℕ) → i < N → get_or result i 0 ≡ get_or s.now (at + i) 0 }
{
    let rest = &s[at.min(s.len())..];
    match rest.first_chunk() {
        Some(bytes) => *bytes,
        None => padded(rest),
    }
}

// A function for each width: `from_le_bytes` is a method of each type, so a trait of the three would have these same bodies.
pub fn read_u16(s: &[u8], at: usize) -> u16
    ensures { result ≡ le 2 s.now at }
{
    u16::from_le_bytes(read_bytes(s, at))
}

pub fn read_u32(s: &[u8], at: usize) -> u32
    ensures { result ≡ le 4 s.now at }
{
    u32::from_le_bytes(read_bytes(s, at))
}

pub fn read_u64(s: &[u8], at: usize) -> u64
    ensures { result ≡ le 8 s.now at }
{
    u64::from_le_bytes(read_bytes(s, at))
}
