// Compares the float helpers with answers of Rust's own `f64` and `Duration`: data/ has a file a function, made by
// tools/float_vectors.rs. Each function gives a line: its name, how many records were read, how many answers differ.
#![tactic(auto)]

ghost use Rattle.std.specs.Prelude.{◌≤◌};

use cases::Counts;
use float_bits::{from_bits, to_bits};
use std::rt::Files;
use std::{fs, io};

// Compares a file of records: so many inputs, and the answer, in words of 8 bytes.
fn compare<F: Fn(u64, u64, u64) -> u64>(
    rt: &(impl Files + Print),
    name: &str,
    inputs: usize,
    helper: F,
) -> io::Result<()>
    requires inputs { inputs ≤ 3 }
    requires callable { F.IsAlwaysCallable helper }
{
    let mut file = fs::open(rt, name)?;
    let mut counts = Counts::new();
    let size = 8 * inputs + 8;
    // A loop of its own: its record is no `Case`.
    for _ in 0..1_000_000u64 {
        // At most three inputs and the answer.
        let mut record = [0u8; 32];
        if reading::read_full(&mut file, &mut record[..size])? < size {
            break;
        }
        let word = |place: usize| le_bytes::read_u64(&record, 8 * place);
        let answer = helper(word(0), word(1), word(2));
        counts = counts.counted(0, answer == word(inputs));
    }
    counts.print(rt, name.as_bytes())
}

fn main(rt: HostRuntime) -> io::Result<()> {
    compare(&rt, "sqrt", 1, |x, _, _| to_bits(sqrt::sqrt(from_bits(x))))?;
    compare(&rt, "is_sqrt", 2, |d, v, _| {
        sqrt::is_sqrt(from_bits(d), from_bits(v)) as u64
    })?;
    compare(&rt, "ceil", 1, |x, _, _| to_bits(float::ceil(from_bits(x))))?;
    compare(&rt, "abs", 1, |x, _, _| to_bits(float::abs(from_bits(x))))?;
    compare(&rt, "min", 2, |x, y, _| {
        to_bits(float::min(from_bits(x), from_bits(y)))
    })?;
    compare(&rt, "max", 2, |x, y, _| {
        to_bits(float::max(from_bits(x), from_bits(y)))
    })?;
    compare(&rt, "clamp", 3, |x, lo, hi| {
        to_bits(float::clamp(from_bits(x), from_bits(lo), from_bits(hi)))
    })?;
    compare(&rt, "as_secs_f64", 1, |ns, _, _| {
        to_bits(seconds::as_secs_f64(ns))
    })?;
    compare(&rt, "from_secs_f64", 1, |x, _, _| {
        seconds::from_secs_f64(from_bits(x))
    })
}
