// Words as they stand in a job file, 8 bytes each, low byte first; and the vectors' body, which has such words. They
// are tested where they stand. Helpers with a requires: each asks for a width of a word, or for room.
ghost use Rattle.std.specs.Prelude.{◌≡◌, ◌≤◌, ◌/◌, length};
ghost use Rattle.words.specs.Answers.{lent_after, full};
ghost use Rattle.network.specs.Rows.{has_high_bit};
ghost use Rattle.jobfile.specs.Bytes.{words_at};
ghost use Rattle.jobfile.specs.VectorsBody.{Counted, bad_words, width, vectors_of};
ghost use Rattle.jobfile.specs.BodyKind.{number_of_kind};
ghost use Rattle.reader.specs.Stored.{stored_words};

use jobfile::kind::BodyKind;
use words::Stv;

// The words of a body, whose bytes past the last whole word are left out.
pub fn words_in(bytes: &[u8]) -> &[[u8; 8]]
    ensures { stored_words result.now ≡ words_at bytes.now 0 (length bytes.now / 8) }
{
    let (words, _) = bytes.as_chunks::<8>();
    words
}

// Rows 8 and 10: a bit at or above the width. `network::refusals` asks it of words; these are tested as the bytes that
// they are in the file, with no copy.
pub fn has_high_bit(width: u64, stored: &[[u8; 8]]) -> bool
    requires { width ≤ 64 }
    ensures { result ≡ has_high_bit width (stored_words stored.now) }
{
    let last = words::sets::low_ones(width);
    for &word in stored {
        if last < u64::from_le_bytes(word) {
            return true;
        }
    }
    false
}

// The words, into the front of `out`.
pub fn put_words(stored: &[[u8; 8]], out: &mut [u64])
    requires { length stored.now ≤ length out.old }
    ensures { out.new ≡ lent_after (full (stored_words stored.now)) out.old }
{
    for (t, &word) in stored.iter().enumerate() {
        out[t] = u64::from_le_bytes(word);
    }
}

// The vectors' body: its kind, how many vectors it says that it has, and its words.
#[derive(Clone, Copy)]
pub struct VectorsBody<'a> {
    pub kind: BodyKind,
    pub count: usize,
    pub words: &'a [[u8; 8]],
    ghost counted: { Counted (number_of_kind kind) count (stored_words words.now) },
}

impl<'a> VectorsBody<'a> {
    // Row 7: fewer than 1 vector or more than 64; net by net also words that are not n.
    pub fn bad_words(self, nets: u64) -> bool
        ensures { result ≡ bad_words (number_of_kind self.entry.kind) nets self.entry.count (stored_words self.entry.words.now) }
    {
        let turned = self.kind == BodyKind::NetByNet;
        let other = self.words.len() as u64 != nets;
        network::refusals::bad_count(self.count as u64) | (turned & other)
    }

    // Row 8 asks for a bit at or above this.
    pub fn width(self, nets: u64) -> u64
        ensures { result ≡ width (number_of_kind self.entry.kind) nets self.entry.count }
    {
        match self.kind {
            BodyKind::Vectors => nets,
            BodyKind::NetByNet => self.count as u64,
        }
    }

    // The vectors, into the front of `out`: the words, or net by net these turned back.
    pub fn put(self, out: &mut [u64])
        requires { (self.count ≤ 64) × (length self.words.now ≤ 64) × (self.count ≤ length out.old) }
        ensures { out.new ≡ lent_after (full
            (vectors_of (number_of_kind self.entry.kind) self.entry.count (stored_words self.entry.words.now))) out.old }
    {
        match self.kind {
            BodyKind::Vectors => put_words(self.words, out),
            BodyKind::NetByNet => {
                let mut words = [0u64; 64];
                put_words(self.words, &mut words);
                let sequential = &words[..self.words.len()];
                turning::fill::<Stv>(sequential, self.count as u64, out);
            }
        }
    }
}
