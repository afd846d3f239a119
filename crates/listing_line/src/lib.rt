// Document 01, pass file and program: one line of the listing, or a number alone on a line, written into a lent buffer. There is no heap for a String, and std's `write!` into
// a lent slice (`Cursor<&mut [u8]>`) doesn't say which bytes it writes: so digits are put by hand.
#![tactic(auto)]

ghost use Rattle.std.specs.Prelude.{◌≡◌, [], ◌∷◌, ◌+◌, ◌≤◌, ◌<◌, length};
ghost use Rattle.listing_line.specs.ListingLine as Listing;

const DIGITS: [u8; 16] = *b"0123456789abcdef";

// A digit below 16. By a table: tried with a choice between b'0' + d and b'a' - 10 + d, a line takes 46 ns in place of 39, and the ratio to the Rust gets worse.
fn digit(d: u8) -> u8
    requires { d < 16 }
    ensures { result ≡ Listing.digit d }
{
    DIGITS[d as usize]
}

// How many digits n takes in base 10.
#[tactic(auto, using(crate::proofs::Writing::width_by_log))]
fn width(n: u64) -> usize
    ensures value { result ≡ Listing.width n }
    ensures bound { result ≤ 20 }
{
    1 + n.checked_ilog10().unwrap_or(0) as usize
}

// A lent buffer, and the place of the next byte. What puts a text there still holds the same buffer.
#[derive(Drop)]
struct Writer<'a> {
    out: &'a mut [u8],
    at: usize,
}

impl Writer<'_> {
    // The last k digits of n, from the last to the first, and the byte that ends them.
    fn digits<const BASE: u64>(&mut self, n: u64, k: usize, end: u8)
        requires base { (1 < BASE) × (BASE ≤ 16) }
        requires room { self.old.at + k < length self.old.out.now }
        ensures wrote { Listing.Wrote self.old.out.now self.old.at (Listing.field (Listing.digits BASE k n) end) self.new.out.now self.new.at }
        ensures buffer { self.exit.now.out.ghost_name ≡ self.entry.now.out.ghost_name }
    {
        let mut rest = n;
        // By places: tried by `iter_mut().rev()`, after which nothing is known of the bytes that it lent, and the proof didn't close.
        for i in (0..k).rev() {
            self.out[self.at + i] = digit((rest % BASE) as u8);
            rest /= BASE;
        }
        self.out[self.at + k] = end;
        self.at += k + 1;
    }

    fn decimal(&mut self, n: u64, end: u8)
        requires { self.old.at + Listing.width n < length self.old.out.now }
        ensures wrote { Listing.Wrote self.old.out.now self.old.at (Listing.field (Listing.decimal n) end) self.new.out.now self.new.at }
        ensures buffer { self.exit.now.out.ghost_name ≡ self.entry.now.out.ghost_name }
    {
        self.digits::<10>(n, width(n), end)
    }

    fn letter(&mut self, letter: u8, end: u8)
        requires { self.old.at + 1 < length self.old.out.now }
        ensures wrote { Listing.Wrote self.old.out.now self.old.at (Listing.field (letter ∷ []) end) self.new.out.now self.new.at }
        ensures buffer { self.exit.now.out.ghost_name ≡ self.entry.now.out.ghost_name }
    {
        self.out[self.at] = letter;
        self.out[self.at + 1] = end;
        self.at += 2;
    }
}

// A line of the listing: the number of a record, that of a refusal or 0, a hypothesis's letter, an estimate's bits, and the next timeout. The fields are as they are
// printed, so the refusal is no Option, and the letter no enum.
#[derive(Clone, Copy)]
pub struct Line {
    pub record_number: u64,
    pub refusal: u64,
    pub letter: u8,
    pub bits: u64,
    pub next_timeout: u64,
}

impl Line {
    // How many bytes it has: three numbers, a letter, 16 digits and the bytes that end the fields.
    #[tactic(auto, using(crate::proofs::Writing::lengths))]
    fn bytes(self) -> usize
        ensures { result ≡ length (Listing.line self) }
    {
        width(self.record_number) + width(self.refusal) + width(self.next_timeout) + 22
    }

    #[tactic(auto, using(crate::proofs::Writing::lengths))]
    fn put_fields(self, writer: &mut Writer)
        requires { writer.old.at + length (Listing.line self) ≤ length writer.old.out.now }
        ensures wrote { Listing.Wrote writer.old.out.now writer.old.at (Listing.line self) writer.new.out.now writer.new.at }
        ensures buffer { writer.exit.now.out.ghost_name ≡ writer.entry.now.out.ghost_name }
    {
        writer.decimal(self.record_number, b' ');
        writer.decimal(self.refusal, b' ');
        writer.letter(self.letter, b' ');
        writer.digits::<16>(self.bits, 16, b' ');
        writer.decimal(self.next_timeout, b'\n');
    }

    #[tactic(auto, using(crate::proofs::Writing::lengths), unfolding(crate::specs::ListingLine::put_line, crate::specs::ListingLine::place_after))]
    // Writes it from place at on and returns the place after it. Without room for all of it nothing is written, and at is returned.
    pub fn put(self, out: &mut [u8], at: usize) -> usize
        ensures out_after { out.new ≡ Listing.put_line out.old at (Listing.line self) }
        ensures value { result ≡ Listing.place_after out.old at (Listing.line self) }
    {
        if out.len().saturating_sub(at) < self.bytes() {
            return at;
        }
        let mut writer = Writer { out, at };
        self.put_fields(&mut writer);
        writer.at
    }
}

// The same of a number alone on a line.
#[tactic(auto, using(crate::proofs::Writing::lengths), unfolding(crate::specs::ListingLine::put_line, crate::specs::ListingLine::place_after))]
pub fn put_number(out: &mut [u8], at: usize, number: u64) -> usize
    ensures out_after { out.new ≡ Listing.put_line out.old at (Listing.number_line number) }
    ensures value { result ≡ Listing.place_after out.old at (Listing.number_line number) }
{
    if out.len().saturating_sub(at) <= width(number) {
        return at;
    }
    let mut writer = Writer { out, at };
    writer.decimal(number, b'\n');
    writer.at
}
