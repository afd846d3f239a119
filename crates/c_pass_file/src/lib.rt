// What programs in C or Rust call, by the exports of `c_pass_file_c`. A slice is a pointer and a length.
#![tactic(auto)]

ghost use Rattle.std.specs.Prelude.{◌≡◌, ◌*◌, ◌≤◌, IfOk, length};
ghost use Rattle.pass_records.specs.PassRecords.{most_records};
ghost use Rattle.pass_file.specs.PassFile as PassFile;
ghost use Rattle.c_pass_file.specs.CPassFile as CPassFile;

use pass_records::{FileRefusal, MOST_RECORDS};

// A number of bytes, or the opposite of the number of the question that a file fails: C gets no `Result`. `c_api` and `c_feedback` have the negation too, each of its own
// refusals: one function for the three would want a crate of its own for this line, since no crate with code stands below all three.
fn code(answer: Result<usize, FileRefusal>) -> i64
    requires { IfOk answer (λ bytes. bytes ≤ 48 * most_records) }
    ensures { result ≡ CPassFile.code answer }
{
    match answer {
        Ok(bytes) => bytes as i64,
        Err(refusal) => -(u64::from(refusal) as i64),
    }
}

// Lists a pass file: the listing's length, or the opposite of the number of the question that the file fails.
#[tactic(auto, using(crate::specs::CPassFile::short))]
pub fn hornetpewter_list(file: &[u8], out: &mut [u8]) -> i64
    ensures value { result ≡ CPassFile.code (PassFile.list most_records file.now (length out.old)) }
    ensures out_after { out.new ≡ PassFile.output most_records file.now out.old }
{
    code(pass_file::list(file, out, MOST_RECORDS))
}

// How many bytes of output a pass file of so many bytes wants, or the opposite of 10.
#[tactic(auto, using(crate::specs::CPassFile::short))]
pub fn hornetpewter_room(file_length: usize) -> i64
    ensures { result ≡ CPassFile.room file_length }
{
    code(pass_records::room(file_length, MOST_RECORDS))
}
