// What programs in C or Rust call for the listing of a pass file: each export is the function of that name of `c_pass_file`, which a test program calls too: a crate is a library or a static library, and not both. A slice is a pointer and a length.
#![tactic(auto)]

ghost use Rattle.std.specs.Prelude.{◌≡◌, length};
ghost use Rattle.pass_records.specs.PassRecords.{most_records};
ghost use Rattle.pass_file.specs.PassFile as PassFile;
ghost use Rattle.c_pass_file.specs.CPassFile as CPassFile;

// Lists a pass file: the listing's length, or the opposite of the number of the question that the file fails.
#[unsafe(no_mangle)]
pub extern "C" fn hornetpewter_list(file: &[u8], out: &mut [u8]) -> i64
    ensures value { result ≡ CPassFile.code (PassFile.list most_records file.now (length out.old)) }
    ensures out_after { out.new ≡ PassFile.output most_records file.now out.old }
{
    c_pass_file::hornetpewter_list(file, out)
}

// How many bytes of output a pass file of so many bytes wants, or the opposite of 10.
#[unsafe(no_mangle)]
pub extern "C" fn hornetpewter_room(file_length: usize) -> i64
    ensures { result ≡ CPassFile.room file_length }
{
    c_pass_file::hornetpewter_room(file_length)
}
