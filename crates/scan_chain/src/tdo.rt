// Responses from TDO bytes. `receivers` has the cell of each receiver. Helpers: each asks for at most 64 vectors, and for
// room.
ghost use Rattle.std.specs.Prelude.{◌≡◌, map, ◌≤◌, length};
ghost use Rattle.words.specs.Bits.{word};
ghost use Rattle.words.specs.Answers.{lent_after, full};
ghost use Rattle.scan_chain.specs.Scans.{clock_count};
ghost use Rattle.scan_chain.specs.Responses.{shifted_out, responses};
ghost use Rattle.scan_chain.specs.Rows.{above_one, bad_tdo};
ghost use Rattle.scan_chain.specs.Cells.{Inside};

use crate::cells::{Chain, clock_count, scan_length};

// Whether a byte is above 1. All are looked at, many at a time: to stop at the first takes longer.
fn above_one(bytes: &[u8]) -> bool
    ensures { result ≡ above_one bytes.now }
{
    let mut found = false;
    for &byte in bytes {
        found |= 1 < byte;
    }
    found
}

// Row 19: the bytes are not as many as the clocks, or one is above 1.
#[tactic(auto, unfolding(crate::specs::Rows::not_bits))]
pub fn bad_tdo(count: usize, cells: usize, tdo: &[u8]) -> bool
    requires { (count ≤ 64) × (cells ≤ 200) }
    ensures { result ≡ bad_tdo count cells tdo.now }
{
    tdo.len() != clock_count(count, cells) || above_one(tdo)
}

// The word that a scan shifted out of the receivers' cells.
fn read_word(cells: usize, receivers: &[u64], tdo: &[u8], scan: usize) -> u64
    requires { (length receivers.now ≤ 64) × (cells ≤ 200) × (scan ≤ 64) × (clock_count scan cells ≤ length tdo.now)
        × Inside cells receivers.now }
    ensures { result ≡ word (map (shifted_out cells tdo.now scan) receivers.now) }
{
    let start = scan * scan_length(cells);
    let mut word: u64 = 0;
    for (r, &cell) in receivers.iter().enumerate() {
        let bit = tdo[start + (3 + cell as usize)] == 1;
        word |= u64::from(bit) << r;
    }
    word
}

// The responses to `count` vectors into the front of `out`: the word of scan t + 1 answers vector t.
pub fn fill_responses(cells: usize, receivers: &[u64], tdo: &[u8], count: usize, out: &mut [u64])
    requires { (length receivers.now ≤ 64) × (cells ≤ 200) × (count ≤ 64)
        × (clock_count count cells ≤ length tdo.now) × (count ≤ length out.old) × Inside cells receivers.now }
    ensures { out.new ≡ lent_after (full (responses cells receivers.now count tdo.now)) out.old }
{
    for t in 0..count {
        out[t] = read_word(cells, receivers, tdo, t + 1);
    }
}

impl Chain<'_> {
    // Row 19 for this chain.
    pub fn bad_tdo(self, count: usize, tdo: &[u8]) -> bool
        requires { count ≤ 64 }
        ensures { result ≡ bad_tdo count self.entry.cells tdo.now }
    {
        bad_tdo(count, self.cells, tdo)
    }

    // The responses of this chain.
    #[tactic(auto, using(crate::proofs::ChainRows::receivers_inside))]
    pub fn fill_responses(self, tdo: &[u8], count: usize, out: &mut [u64])
        requires { (count ≤ 64) × (clock_count count self.cells ≤ length tdo.now) × (count ≤ length out.old) }
        ensures { out.new ≡ lent_after (full (responses self.entry.cells self.entry.receivers.now count tdo.now)) out.old }
    {
        fill_responses(self.cells, self.receivers, tdo, count, out);
    }
}
