// The clocks for a test set, one byte each. `drivers` has the cell of each driver; all other cells get 0. Helpers: each
// asks for room, and for at most 64 vectors.
ghost use Rattle.std.specs.Prelude.{◌≡◌, false, ◌+◌, ◌<◌, ◌≤◌, length, replicate};
ghost use Rattle.words.specs.Bits.{at};
ghost use Rattle.words.specs.Writing.{written};
ghost use Rattle.words.specs.Answers.{lent_after, full};
ghost use Rattle.scan_chain.specs.Scans.{clock, scan, cells_by, contents, clock_count, all_zero};
ghost use Rattle.scan_chain.specs.Scans.{scanned, clocks};
ghost use Rattle.scan_chain.specs.Cells.{Distinct, BeginsWith};

use crate::cells::Chain;

// One clock: TMS in bit 0, TDI in bit 1.
#[tactic(auto, using(crate::proofs::ScanBytes::clock_byte))]
fn clock(tms: bool, tdi: bool) -> u8
    ensures { result ≡ clock tms tdi }
{
    u8::from(tms) + 2 * u8::from(tdi)
}

// The vector of scan t: the last one is scanned twice.
#[tactic(auto, using(crate::proofs::Putting::scanned_at, crate::proofs::Putting::scanned_last))]
fn scanned(vectors: &[u64], t: usize) -> u64
    requires { (0 < length vectors.now) × (t ≤ length vectors.now) }
    ensures { result ≡ at (scanned vectors.now) t }
{
    if t < vectors.len() {
        vectors[t]
    } else {
        vectors[vectors.len() - 1]
    }
}

// All scans into the front of a list. Of a chain they need the drivers alone.
pub fn put_clocks(cells: usize, drivers: &[u64], vectors: &[u64], out: &mut [u8])
    requires { (0 < cells) × (cells ≤ 200) × (length drivers.now ≤ 64) × Distinct cells drivers.now
        × (0 < length vectors.now) × (length vectors.now ≤ 64)
        × (clock_count (length vectors.now) cells ≤ length out.old) }
    ensures { out.new ≡ lent_after (full (clocks cells drivers.now all_zero vectors.now)) out.old }
{
    let chain = Chain {
        cells,
        drivers,
        receivers: &[],
    };
    for t in 0..vectors.len() + 1 {
        chain.put_scan(scanned(vectors, t), out, t * chain.scan_length());
    }
}

impl Chain<'_> {
    // The scan by which every cell gets 0: TMS 1 on the first clock, on the last of the shift and on the one after it.
    fn zero_scan(self, bytes: &mut [u8; 205])
        requires { bytes.old ≡ replicate 205 0 }
        ensures size { length bytes.new ≡ 205 }
        ensures scan { BeginsWith bytes.new (scan (cells_by self.entry.cells (λ c. false))) }
    {
        bytes[0] = 1;
        bytes[self.cells + 2] = 1;
        bytes[self.cells + 3] = 1;
    }

    // The scan of a vector.
    fn scan_of(self, vector: u64, bytes: &mut [u8; 205])
        requires { bytes.old ≡ replicate 205 0 }
        ensures size { length bytes.new ≡ 205 }
        ensures scan { BeginsWith bytes.new (scan (contents self.entry.cells self.entry.drivers.now all_zero vector)) }
    {
        self.zero_scan(bytes);
        for (i, &cell) in self.drivers.iter().enumerate() {
            let cell = cell as usize;
            bytes[3 + cell] = clock(cell + 1 == self.cells, (vector >> i) % 2 == 1);
        }
    }

    // A scan into a list from an index on.
    fn put_scan(self, vector: u64, out: &mut [u8], start: usize)
        requires { start + (self.cells + 5) ≤ length out.old }
        ensures { out.new ≡ written out.old start (scan (contents self.entry.cells self.entry.drivers.now all_zero vector)) }
    {
        let size = self.scan_length();
        let mut scan = [0; 205];
        self.scan_of(vector, &mut scan);
        out[start..start + size].copy_from_slice(&scan[..size]);
    }

    // All scans into the front of a list.
    pub fn put_clocks(self, vectors: &[u64], out: &mut [u8])
        requires { (0 < length vectors.now) × (length vectors.now ≤ 64)
            × (clock_count (length vectors.now) self.cells ≤ length out.old) }
        ensures { out.new ≡ lent_after (full (clocks self.entry.cells self.entry.drivers.now all_zero vectors.now)) out.old }
    {
        put_clocks(self.cells, self.drivers, vectors, out);
    }
}
