// The mark of a job file, compared for the reader and written for the writer, the kinds of its vectors' body, and the
// size of its nets body; specs/Layout.antt has the whole layout. `put_mark` and `append_mark` are helpers between crates
// that ask for room.

#![tactic(auto)]

ghost use Rattle.std.specs.Prelude.{◌≡◌, ◌≤◌, ◌+◌, ◌++◌, length};
ghost use Rattle.arrayvec.specs.ArrayVec.{array_vec_len};
ghost use Rattle.words.specs.Writing.{written};
ghost use Rattle.jobfile.specs.Layout.{mark, bad_mark};

use arrayvec::ArrayVec;

pub mod kind;

// The first bytes of every job file.
const MARK: [u8; 4] = *b"BSJ3";

// How many bytes the nets body has.
pub const NETS_SIZE: usize = 4;

// Row 1: first 4 bytes missing or different.
pub fn bad_mark(file: &[u8]) -> bool
    ensures { result ≡ bad_mark file.now }
{
    !file.starts_with(&MARK)
}

// The mark into a file.
pub fn put_mark(file: &mut [u8])
    requires { 4 ≤ length file.old }
    ensures { file.new ≡ written file.old 0 mark }
{
    file[..4].copy_from_slice(&MARK);
}

// The mark, appended.
pub fn append_mark<const N: usize>(bytes: &mut ArrayVec<u8, N>)
    requires { array_vec_len bytes.old + 4 ≤ N }
    ensures items { bytes.new.items ≡ bytes.old.items ++ mark }
    ensures len { array_vec_len bytes.new ≡ array_vec_len bytes.old + 4 }
{
    let mut mark = [0u8; 4];
    put_mark(&mut mark);
    bytes.try_extend_from_slice(&mark).unwrap();
}
