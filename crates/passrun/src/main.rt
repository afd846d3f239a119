// Document 01's program: reads one pass file from standard input and prints its listing, or the number of the question that it fails.
#![tactic(auto)]

ghost use Rattle.std.specs.Prelude.{◌≤◌, length};
ghost use Rattle.listing_line.specs.ListingLine.{Wrote};
ghost use Rattle.passrun.specs.Passrun.{output_bytes, printed};

use std::io;

// The most records that a file may have here.
const MOST_RECORDS: u16 = 1_365;

// A file's beginning with one record more tells what is printed for the file.
const BEGINNING_BYTES: usize = (MOST_RECORDS as usize + 1) * pass_records::RECORD_BYTES;

// Room for every listing. Input and output are arrays, since the program allocates nothing.
const OUTPUT_BYTES: usize = 65_536;

// Writes what is printed for a file to the start of a buffer that has room for every listing.
fn print(file: &[u8], out: &mut [u8]) -> usize
    requires { output_bytes ≤ length out.old }
    ensures wrote { Wrote out.old 0 (printed file.now) out.new result }
    ensures upper_bound { result ≤ output_bytes }
{
    match pass_file::list(file, out, MOST_RECORDS) {
        Ok(bytes) => bytes,
        Err(refusal) => listing_line::put_number(out, 0, refusal.into()),
    }
}

// A longer file is read up to its beginning. A read that fails is no end, and then nothing is printed. What failed is said on standard error; where a write
// fails, a part may be printed.
fn main(rt: HostRuntime) -> io::Result<()> {
    let mut input = [0u8; BEGINNING_BYTES];
    let mut out = [0u8; OUTPUT_BYTES];
    let Ok(n) = reading::read_full(&mut rt.reader(), &mut input) else {
        return rt.eprintln("passrun: standard input cannot be read");
    };
    let bytes = print(&input[0..n], &mut out);
    if rt.write_all(&out[0..bytes]).is_err() {
        return rt.eprintln("passrun: standard output cannot be written");
    }
    Ok(())
}
