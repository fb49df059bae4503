// Turning: from parallel words the sequential words of the nets, from sequential words the parallel words of the
// vectors. The two are one exchange of rows and columns, written once for both kinds of words. Helpers between crates:
// at most 64 words, an index below 64, at most 64 columns.
ghost use Rattle.std.specs.Prelude.{◌≡◌, ℕ, ◌+◌, ◌*◌, ◌^◌, ◌<◌, ◌≤◌, length};
ghost use Rattle.words.specs.Bits.{has, bit_value, at};
ghost use Rattle.words.specs.Turning.{column, Columns};

use crate::{Ptv, Word};

// Bit t is bit i of row t.
fn column(rows: &[u64], i: u64) -> u64
    requires { (length rows.now ≤ 64) × (i < 64) }
    ensures { result ≡ column rows.now i }
{
    let mut w: u64 = 0;
    for (t, &row) in rows.iter().enumerate() {
        if (row >> i) % 2 == 1 {
            w |= 1u64 << t;
        }
    }
    w
}

// A word as row t: bit t into each column of which it has the bit.
fn add_row<W: Word>(word: W, t: u64, columns: &mut [u64; 64])
    requires { (t < 64) × (length columns.old ≡ 64) × ((i : ℕ) → i < 64 → at columns.old i < 2 ^ t) }
    ensures { (length columns.new ≡ 64) × ((i : ℕ) → i < 64
        → at columns.new i ≡ at columns.old i + bit_value (has (W.bits_of word) i) * 2 ^ t) }
{
    let row = crate::sets::bit_word(t);
    let mut rest = word.bits();
    // A `while`: it goes by the bits that are set, and most are not.
    while rest != 0 {
        let i = crate::sets::lowest_net(rest);
        columns[i as usize] += row;
        rest &= rest - 1;
    }
}

// All columns of words of a kind below bit n: entry i is the turned word of bit i. Of parallel words it is the
// sequential word of net i, of sequential words the parallel word of vector i. Only the bits that are set are gone
// through.
pub fn columns<W: Word>(words: &[u64], n: u64) -> [u64; 64]
    requires { (length words.now ≤ 64) × (n ≤ 64) }
    ensures { (length result ≡ 64) × Columns n words.now result }
{
    let inside = crate::sets::low_ones(n);
    let mut columns = [0u64; 64];
    for (t, &word) in words.iter().enumerate() {
        add_row(W::of_bits(word & inside), t as u64, &mut columns);
    }
    columns
}

// Entry i of the columns of words of a kind, as a word of the other kind.
pub fn turned_word<W: Word>(columns: &[u64; 64], i: u64) -> W::Turned
where
    W::Turned: Word,
    requires { i < 64 }
    ensures { W.Turned.bits_of result ≡ at columns.now i }
{
    W::Turned::of_bits(columns[i as usize])
}

// The same where few vectors are wanted: bit i is the vector's bit in the sequential word of net i.
pub fn parallel_word(words: &[u64], vector: u64) -> Ptv
    requires { (length words.now ≤ 64) × (vector < 64) }
    ensures { result.0 ≡ column words.now vector }
{
    Ptv(column(words, vector))
}
