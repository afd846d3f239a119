// A packet status chunk of a feedback message: 16 bits that stand for a list of status symbols.
#![tactic(auto)]

ghost use Rattle.std.specs.Prelude.{◌≡◌, ◌+◌, ◌-◌, ◌*◌, ◌/◌, ◌%◌, ◌^◌, ◌<◌, ◌≤◌, ◌⊎◌, min, take};
ghost use Rattle.status_chunk.specs.Chunk as Chunk;

// From here on the top bit is 1: a status vector.
const STATUS_VECTOR: u16 = 0x8000;

// From here on the two top bits are 1: a status vector of two-bit symbols.
const TWO_BIT_VECTOR: u16 = 0xc000;

// What a message tells of a packet.
#[derive(Clone, Copy, Debug, PartialEq, Eq)]
pub enum Symbol {
    NotReceived,
    SmallDelta,
    LargeDelta,
    Reserved,
}

impl Symbol {
    // No `From<u16>`: it says nothing of bits from 4 on.
    fn of_bits(bits: u16) -> Symbol
        requires { bits < 4 }
        ensures { Chunk.number result ≡ bits }
    {
        match bits {
            0 => Symbol::NotReceived,
            1 => Symbol::SmallDelta,
            2 => Symbol::LargeDelta,
            _ => Symbol::Reserved,
        }
    }

    // How many bytes the recv delta of its packet has.
    pub fn byte_len(self) -> usize
        ensures { result ≡ Chunk.number self }
    {
        self as usize
    }
}

// The kinds of chunk are told apart by ranges in each function: tried, and with an enum of them, made by `From<u16>`, judging a message took 1.1 to 1.4 times as long.

// How many symbols a chunk has.
#[tactic(auto, unfolding(crate::specs::Chunk::symbol_count))]
pub fn symbol_count(chunk: u16) -> u16
    ensures { result ≡ Chunk.symbol_count chunk }
{
    match chunk {
        0..STATUS_VECTOR => chunk % 8192,
        STATUS_VECTOR..TWO_BIT_VECTOR => 14,
        _ => 7,
    }
}

// The first of so many symbols that are left of a chunk; the first of all where it has not so many.
#[tactic(auto, unfolding(crate::specs::Chunk::symbol, crate::specs::Chunk::symbol_count))]
pub fn symbol_left(chunk: u16, left: u16) -> Symbol
    ensures { Chunk.number result ≡ Chunk.symbol_left chunk left }
{
    match chunk {
        0..STATUS_VECTOR => Symbol::of_bits(chunk / 8192),
        STATUS_VECTOR..TWO_BIT_VECTOR => Symbol::of_bits(bits_left(chunk, 1, left)),
        _ => Symbol::of_bits(bits_left(chunk, 2, left)),
    }
}

// The same of a status vector whose symbols have so many bits, and the bits of the symbol. `bits`, 1 or 2, is no kind's number: it is computed with.
fn bits_left(chunk: u16, bits: u16, left: u16) -> u16
    requires { (bits ≡ 1) ⊎ (bits ≡ 2) }
    ensures { result ≡ Chunk.vector_symbol bits chunk (14 / bits - left) }
{
    let behind = left.saturating_sub(1).min(14 / bits - 1);
    (chunk >> (bits * behind)) % (1 << bits)
}

// How many of n statuses a chunk covers.
pub fn covered(chunk: u16, n: u16) -> u16
    ensures { result ≡ min (Chunk.symbol_count chunk) n }
{
    symbol_count(chunk).min(n)
}

// How many bytes the recv deltas of a chunk's first n symbols have.
#[tactic(auto, using(crate::specs::Laws::by_kind))]
pub fn delta_bytes(chunk: u16, n: u16) -> usize
    ensures { result ≡ Chunk.delta_bytes (take n (Chunk.symbols_of chunk)) }
{
    let all = covered(chunk, n);
    match chunk {
        0..STATUS_VECTOR => all as usize * (chunk / 8192) as usize,
        STATUS_VECTOR..TWO_BIT_VECTOR => ones(chunk, all),
        _ => two_bit_bytes(chunk, all),
    }
}

// The bytes of a vector of one-bit symbols: its ones.
#[tactic(auto, using(crate::specs::Laws::by_kind))]
fn ones(chunk: u16, n: u16) -> usize
    requires { (Chunk.status_vector ≤ chunk) × ((chunk < Chunk.two_bit_vector) × (n ≤ 14)) }
    ensures { result ≡ Chunk.delta_bytes (Chunk.symbols_from chunk 0 n) }
{
    (chunk % 16384 >> (14 - n)).count_ones() as usize
}

// The bytes of a vector of two-bit symbols, the last of them first. In place of those past n stand zeros; so the loop has a fixed length, which compiles to no loop.
fn two_bit_bytes(chunk: u16, n: u16) -> usize
    requires { (Chunk.two_bit_vector ≤ chunk) × (n ≤ 7) }
    ensures { result ≡ Chunk.delta_bytes (Chunk.symbols_from chunk 0 n) }
{
    let mut bytes: usize = 0;
    let mut rest = chunk % 16384 >> (14 - 2 * n);
    for _ in 0..7u16 {
        bytes += usize::from(rest % 4);
        rest >>= 2;
    }
    bytes
}

// Whether one of a chunk's first n symbols is reserved.
#[tactic(auto, using(crate::specs::Laws::by_kind))]
pub fn any_reserved(chunk: u16, n: u16) -> bool
    ensures { result ≡ Chunk.any_reserved (take n (Chunk.symbols_of chunk)) }
{
    let all = covered(chunk, n);
    match chunk {
        0..STATUS_VECTOR => (0 < all) & (chunk / 8192 == Symbol::Reserved as u16),
        STATUS_VECTOR..TWO_BIT_VECTOR => false,
        _ => two_bit_reserved(chunk, all),
    }
}

// The same of a vector of two-bit symbols.
#[tactic(auto, using(crate::specs::Laws::by_rest), unfolding(crate::specs::Chunk::symbols_from, crate::specs::Chunk::any_reserved))]
fn two_bit_reserved(chunk: u16, n: u16) -> bool
    requires { (Chunk.two_bit_vector ≤ chunk) × (n ≤ 7) }
    ensures { result ≡ Chunk.any_reserved (Chunk.symbols_from chunk 0 n) }
{
    let mut rest = chunk % 16384 >> (14 - 2 * n);
    for _ in 0..7u16 {
        if rest % 4 == Symbol::Reserved as u16 {
            return true;
        }
        rest >>= 2;
    }
    false
}
