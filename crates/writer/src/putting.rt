// Bytes put into the front of a lent file, or of a part of one. Helpers: each asks for room.
ghost use Rattle.std.specs.Prelude.{◌≡◌, ◌*◌, ◌<◌, ◌≤◌, length};
ghost use Rattle.words.specs.Answers.{full, lent_after};
ghost use Rattle.jobfile.specs.Bytes.{bytes_of, word_bytes};
ghost use Rattle.writer.specs.Writer.{entry_bytes};

// This many bytes of a number, low byte first.
fn put_number(file: &mut [u8], count: usize, number: u64)
    requires { (0 < count) × (count ≤ 8) × (count ≤ length file.old) }
    ensures { file.new ≡ lent_after (full (bytes_of count number)) file.old }
{
    let bytes = number.to_le_bytes();
    file[..count].copy_from_slice(&bytes[..count]);
}

// Each word in 8 bytes.
pub fn put_words(file: &mut [u8], words: &[u64])
    requires { 8 * length words.now ≤ length file.old }
    ensures { file.new ≡ lent_after (full (word_bytes words.now)) file.old }
{
    let mut at = 0;
    for &word in words {
        put_number(&mut file[at..], 8, word);
        at += 8;
    }
}

// An entry of the table: its kind, where its body begins and how long that is.
pub fn put_entry(file: &mut [u8], kind: u8, body: usize, size: usize)
    requires { 9 ≤ length file.old }
    ensures { file.new ≡ lent_after (full (entry_bytes kind body size)) file.old }
{
    file[0] = kind;
    put_number(&mut file[1..], 4, body as u64);
    put_number(&mut file[5..], 4, size as u64);
}
