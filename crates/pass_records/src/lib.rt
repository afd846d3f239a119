// The records of a pass file, the chain that links them, and questions 10 to 13. A record has 48 bytes, and records are numbered from 1.
#![tactic(auto)]

ghost use Rattle.std.specs.Prelude.{◌≡◌, ◌<◌, ◌≤◌, IfOk};
ghost use Rattle.pass_records.specs.PassRecords as Records;

pub const RECORD_BYTES: usize = 48;

// The most records that a file may have.
pub const MOST_RECORDS: u16 = 65_535;

// Question 13: up to MOST_SHORT records a file wants SHORT_FILE_OUTPUT bytes of output, and a longer one OUTPUT_PER_RECORD for each record.
const MOST_SHORT: usize = 1_365;

const SHORT_FILE_OUTPUT: usize = 65_536;

const OUTPUT_PER_RECORD: usize = 48;

// The question that a file fails.
#[derive(Clone, Copy, Debug, PartialEq, Eq)]
pub enum FileRefusal {
    BadLength = 10,
    BadKind = 11,
    BadNext = 12,
    ShortOutput = 13,
}

// Its number, which is all that a program says of it: so no `Display`.
impl From<FileRefusal> for u64 {
    ghost from_gives = { λ refusal n. n ≡ Records.question refusal };

    fn from(refusal: FileRefusal) -> u64 {
        refusal as u64
    }
}

// What a record is of.
#[derive(Clone, Copy, Debug, PartialEq, Eq)]
pub enum Kind {
    Packet,
    Report,
    Timeout,
}

impl TryFrom<u8> for Kind {
    type Error = FileRefusal;

    ghost try_from_gives = { λ byte kind. kind ≡ Records.kind_of byte };

    fn try_from(byte: u8) -> Result<Self, FileRefusal> {
        match byte {
            1 => Ok(Kind::Packet),
            2 => Ok(Kind::Report),
            3 => Ok(Kind::Timeout),
            _ => Err(FileRefusal::BadKind),
        }
    }
}

// A record's bytes. What lies past their end counts as 0.
#[derive(Clone, Copy)]
pub struct Record<'a> {
    pub bytes: &'a [u8],
}

impl<'a> Record<'a> {
    // Record k of a file, or no bytes where the file has no record k.
    #[tactic(auto, unfolding(crate::specs::PassRecords::record_at))]
    pub fn of(file: &'a [u8], k: usize) -> Self
        ensures { result.bytes.now ≡ Records.record_at file.now k }
    {
        if k == 0 || file.len() / RECORD_BYTES < k {
            return Self { bytes: &[] };
        }
        let start = (k - 1) * RECORD_BYTES;
        let end = start + RECORD_BYTES;
        Self {
            bytes: &file[start..end],
        }
    }

    // The number of the record that follows it, or 0. No Option: question 12 is put to the number as it stands, and the chain of a judged file ends at 0.
    pub fn next(self) -> u32
        ensures { result ≡ Records.next self.entry.bytes.now }
    {
        le_bytes::read_u32(self.bytes, 0)
    }

    pub fn kind(self) -> Result<Kind, FileRefusal>
        ensures { result ≡ Records.kind_of (Records.kind self.entry.bytes.now) }
    {
        Kind::try_from(le_bytes::read_u8(self.bytes, 4))
    }

    // Whether a report has a probe's result, 1 or 0. The byte as it stands, since question 11 is put to it.
    pub fn flag(self) -> u8
        ensures { result ≡ Records.flag self.entry.bytes.now }
    {
        le_bytes::read_u8(self.bytes, 5)
    }

    pub fn size(self) -> u16
        ensures { result ≡ Records.size self.entry.bytes.now }
    {
        le_bytes::read_u16(self.bytes, 6)
    }

    pub fn sequence(self) -> u64
        ensures { result ≡ Records.sequence self.entry.bytes.now }
    {
        le_bytes::read_u64(self.bytes, 8)
    }

    pub fn send(self) -> u64
        ensures { result ≡ Records.send self.entry.bytes.now }
    {
        le_bytes::read_u64(self.bytes, 16)
    }

    pub fn remote(self) -> u64
        ensures { result ≡ Records.remote self.entry.bytes.now }
    {
        le_bytes::read_u64(self.bytes, 24)
    }

    // The local receive instant of a packet; the moment of a report or a timeout.
    pub fn receive(self) -> u64
        ensures { result ≡ Records.receive self.entry.bytes.now }
    {
        le_bytes::read_u64(self.bytes, 32)
    }

    pub fn probe_bits(self) -> u64
        ensures { result ≡ Records.probe_bits self.entry.bytes.now }
    {
        le_bytes::read_u64(self.bytes, 40)
    }

    // Question 11: the kind is 1 to 3, and a report's flag 0 or 1.
    #[tactic(auto, unfolding(crate::specs::PassRecords::well_formed))]
    fn judge_kind(self) -> Result<(), FileRefusal>
        ensures { result ≡ Records.judge_kind self.entry.bytes.now }
    {
        match self.kind()? {
            Kind::Report if 1 < self.flag() => Err(FileRefusal::BadKind),
            _ => Ok(()),
        }
    }

    // The number of the record that follows record k of `last`, if one does.
    #[tactic(auto, unfolding(crate::specs::PassRecords::successor))]
    fn successor(self, last: usize, k: usize) -> Result<Option<usize>, FileRefusal>
        ensures { result ≡ Records.successor self.entry.bytes.now last k }
    {
        self.judge_kind()?;
        let next = self.next() as usize;
        if next == 0 {
            return Ok(None);
        }
        if next <= k || last < next {
            return Err(FileRefusal::BadNext);
        }
        Ok(Some(next))
    }
}

// Question 10: how many records a file of so many bytes has, 1 to `most`.
#[tactic(auto, unfolding(crate::specs::PassRecords::length_in))]
fn count(bytes: usize, most: u16) -> Result<usize, FileRefusal>
    ensures counted { result ≡ Records.count most bytes }
    ensures in_bounds { IfOk result (λ n. (0 < n) × (n ≤ most)) }
{
    let records = bytes / RECORD_BYTES;
    if bytes % RECORD_BYTES != 0 || records == 0 || records > most as usize {
        return Err(FileRefusal::BadLength);
    }
    Ok(records)
}

// Question 13: the least output for a file of so many records.
#[tactic(auto, unfolding(crate::specs::PassRecords::least_output))]
fn least_output(records: usize) -> usize
    requires { records ≤ Records.most_records }
    ensures { result ≡ Records.least_output records }
{
    if records <= MOST_SHORT {
        return SHORT_FILE_OUTPUT;
    }
    records * OUTPUT_PER_RECORD
}

// How much output a file of so many bytes wants.
#[tactic(auto, unfolding(crate::specs::PassRecords::room))]
pub fn room(bytes: usize, most: u16) -> Result<usize, FileRefusal>
    ensures { result ≡ Records.room most bytes }
{
    Ok(least_output(count(bytes, most)?))
}

// The first no along the chain of a file, of `last` records.
#[tactic(auto, using(crate::specs::Laws::followed, crate::specs::Laws::judged_next, crate::specs::Laws::judged_end, crate::specs::Laws::judged_refusal))]
fn judge_chain(file: &[u8], last: usize) -> Result<(), FileRefusal>
    requires { 0 < last }
    ensures { result ≡ Records.judge_along file.now last (Records.chain_from file.now last 1) }
{
    let mut k = 1;
    // No `for`: each record names the next, and any of them may be refused.
    while let Some(next) = Record::of(file, k).successor(last, k)? {
        k = next;
    }
    Ok(())
}

// Questions 10 to 13 of a file that may have `most` records, and an output of so many bytes.
// Not inlined: with its loop in that of a listing, a record of samples/congestion.pass takes 114 ns in place of 112.
#[tactic(auto, unfolding(crate::specs::PassRecords::judge))]
#[inline(never)]
pub fn judge(file: &[u8], most: u16, output: usize) -> Result<(), FileRefusal>
    ensures { result ≡ Records.judge most file.now output }
{
    let records = count(file.len(), most)?;
    judge_chain(file, records)?;
    if output < least_output(records) {
        return Err(FileRefusal::ShortOutput);
    }
    Ok(())
}
