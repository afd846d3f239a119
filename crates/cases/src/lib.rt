// What the test programs share: a case of the oracle (tools/oracle), whether answers agree with it, how many cases differ, and lines with such counts.
#![tactic(auto)]

ghost use Rattle.std.specs.Prelude.{◌≡◌, ◌↔◌, IsTrue, length, replicate};
ghost use Rattle.cases.specs.Cases as Cases;

use std::{array, io};

// An operation, its inputs and the Rust's answers: the file has six for each operation, so they are an array. The operation is a number, as in the file: each program
// has operations of its own, which an enum here would have to name.
#[derive(Clone, Copy)]
pub struct Case {
    pub op: u64,
    pub a: u64,
    pub b: u64,
    pub c: u64,
    pub d: u64,
    pub e: u64,
    pub answers: [u64; 6],
}

impl Case {
    // The case in 12 words of 8 bytes, little-endian.
    pub fn read(bytes: &[u8]) -> Self
        ensures { result ≡ Cases.read bytes.now }
    {
        Self {
            op: le_bytes::read_u64(bytes, 0),
            a: le_bytes::read_u64(bytes, 8),
            b: le_bytes::read_u64(bytes, 16),
            c: le_bytes::read_u64(bytes, 24),
            d: le_bytes::read_u64(bytes, 32),
            e: le_bytes::read_u64(bytes, 40),
            answers: array::from_fn(|k| le_bytes::read_u64(bytes, 48 + 8 * k)),
        }
    }

    #[tactic(auto, using(crate::proofs::Agrees::six_compared))]
    pub fn agrees(self, answers: [u64; 6]) -> bool
        ensures value { result ≡ Cases.agrees self answers }
        ensures same { IsTrue result ↔ (answers ≡ self.answers) }
    {
        self.answers == answers
    }
}

// How many cases there were, with how many packets, how many agreed before the first that differs, and how many differ.
#[derive(Clone, Copy)]
pub struct Counts {
    pub cases: u64,
    pub packets: u64,
    pub agreed: u64,
    pub wrong: u64,
}

impl Counts {
    pub fn new() -> Self
        ensures { result ≡ Cases.new }
    {
        Self {
            cases: 0,
            packets: 0,
            agreed: 0,
            wrong: 0,
        }
    }

    // With one case more, which has so many packets.
    pub fn counted(self, packets: u64, agrees: bool) -> Self
        ensures { result ≡ Cases.counted self packets agrees }
    {
        Self {
            cases: self.cases.wrapping_add(1),
            packets: self.packets.wrapping_add(packets),
            agreed: self
                .agreed
                .wrapping_add((agrees & (self.wrong == 0)) as u64),
            wrong: self.wrong.wrapping_add(!agrees as u64),
        }
    }

    // Prints a line: how many cases, how many of them differ.
    pub fn print(self, rt: &impl Print, name: &[u8]) -> io::Result<()> {
        print_line(rt, name, self.cases, self.wrong)
    }

    // Prints which case is the first that differs, if one does.
    pub fn print_first(self, rt: &impl Print) -> io::Result<()> {
        if self.wrong != 0 {
            print_line(rt, b"first", self.agreed.wrapping_add(1), 0)?;
        }
        Ok(())
    }

    // Prints all counts.
    pub fn print_all(self, rt: &impl Print, name: &[u8]) -> io::Result<()> {
        self.print(rt, name)?;
        print_line(rt, b"packets", self.packets, 0)?;
        self.print_first(rt)
    }
}

fn print_line(rt: &impl Print, name: &[u8], a: u64, b: u64) -> io::Result<()> {
    rt.write_all(name)?;
    println!(rt; " {a} {b}")
}

// Room for so many bytes. A caller knows its length by the contract, and need not count a long array.
pub fn zeros<const N: usize>() -> [u8; N]
    ensures length { N ≡ length result }
    ensures zero { result ≡ replicate N 0 }
{
    [0; N]
}
