// The cells of a scan chain: row 18, and the chains that it admits. `drivers` and `receivers` are the cells of the
// drivers and of the receivers.
ghost use Rattle.std.specs.Prelude.{◌≡◌, ◌++◌, ◌+◌, ◌<◌, ◌≤◌, true, false, IfOk, IfErr, length};
ghost use Rattle.scan_chain.specs.Rows.{has_wrong_cell, bad_chain};
ghost use Rattle.scan_chain.specs.Scans.{clock_count};
ghost use Rattle.scan_chain.specs.Cells.{Distinct};
ghost use Rattle.network.specs.declared.refusal.Refusal.TheVariants.{Chain as RowOfChains};

use network::admitting::Board;
use network::refusal::{Refusal, refuse_if};

// A chain of cells and those of the drivers and of the receivers, all different, which row 18 admits.
#[derive(Clone, Copy)]
pub struct Chain<'a> {
    pub cells: usize,
    pub drivers: &'a [u64],
    pub receivers: &'a [u64],
    ghost some: { 0 < cells },
    ghost most: { cells ≤ 200 },
    ghost few_drivers: { length drivers.now ≤ 64 },
    ghost few_receivers: { length receivers.now ≤ 64 },
    ghost distinct: { Distinct cells (drivers.now ++ receivers.now) },
}

// A cell outside the chain, or used for two purposes. `used` tells of each cell whether it stood before.
fn has_wrong_cell(cells: u64, drivers: &[u64], receivers: &[u64]) -> bool
    requires { cells ≤ 200 }
    ensures { result ≡ has_wrong_cell cells (drivers.now ++ receivers.now) }
{
    let mut used = [false; 200];
    for &cell in drivers.iter().chain(receivers) {
        if cells <= cell || used[cell as usize] {
            return true;
        }
        used[cell as usize] = true;
    }
    false
}

// Row 18 for n nets and m receivers: L outside 2 to 200, not exactly one driver cell for each net or one receiver cell for
// each receiver, or a wrong cell.
#[tactic(auto, unfolding(crate::specs::Rows::bad_chain))]
pub fn bad_chain(n: u64, m: u64, cells: u64, drivers: &[u64], receivers: &[u64]) -> bool
    ensures { result ≡ bad_chain 200 n m cells drivers.now receivers.now }
{
    cells < 2
        || 200 < cells
        || drivers.len() as u64 != n
        || receivers.len() as u64 != m
        || has_wrong_cell(cells, drivers, receivers)
}

// Row 18 for a board.
pub fn admit_chain<'a>(
    board: Board<'a>,
    cells: u64,
    drivers: &'a [u64],
    receivers: &'a [u64],
) -> Result<Chain<'a>, Refusal>
    ensures admitted { IfOk result (λ chain.
        (chain.cells ≡ cells) × (chain.drivers.now ≡ drivers.now) × (chain.receivers.now ≡ receivers.now)
        × (bad_chain 200 board.entry.nets.network.nets (length board.entry.receivers.now) cells drivers.now receivers.now ≡ false)) }
    ensures refused { IfErr result (λ refusal. (refusal ≡ RowOfChains)
        × (bad_chain 200 board.entry.nets.network.nets (length board.entry.receivers.now) cells drivers.now receivers.now ≡ true)) }
{
    let nets = board.nets.network.nets;
    let count = board.receivers.len() as u64;
    refuse_if(
        bad_chain(nets, count, cells, drivers, receivers),
        Refusal::Chain,
    )?;
    Ok(Chain {
        cells: cells as usize,
        drivers,
        receivers,
    })
}

// The clocks of one scan.
pub(crate) fn scan_length(cells: usize) -> usize
    requires { cells ≤ 200 }
    ensures { result ≡ cells + 5 }
{
    cells + 5
}

// The clocks for so many vectors: the last one is scanned twice.
pub(crate) fn clock_count(vectors: usize, cells: usize) -> usize
    requires { (vectors ≤ 64) × (cells ≤ 200) }
    ensures { result ≡ clock_count vectors cells }
{
    (vectors + 1) * scan_length(cells)
}

impl Chain<'_> {
    // The clocks of one scan.
    pub fn scan_length(self) -> usize
        ensures { result ≡ self.entry.cells + 5 }
    {
        scan_length(self.cells)
    }

    // The clocks for so many vectors: the last one is scanned twice.
    pub fn clock_count(self, vectors: usize) -> usize
        requires { vectors ≤ 64 }
        ensures { result ≡ clock_count vectors self.entry.cells }
    {
        clock_count(vectors, self.cells)
    }
}
