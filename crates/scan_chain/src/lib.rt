// Clocks for a boundary-scan chain by IEEE 1149.1: the calls *write clocks*, a test set as TMS and TDI bits, and *read
// clocks*, its responses from TDO bits. EXTEST is loaded already, and a pod starts and ends in Run-Test/Idle.

#![tactic(auto)]

ghost use Rattle.std.specs.Prelude.{◌≡◌, false, length, IfOk, IfErr};
ghost use Rattle.words.specs.Answers.{refused, count_of, lent_after};
ghost use Rattle.network.specs.Reading.{network_of};
ghost use Rattle.network.specs.Rows.{bad_net_count, bad_receivers};
ghost use Rattle.network.specs.Refusing.{row_number, answer_of};
ghost use Rattle.scan_chain.specs.Calls.{nets_admission, write_answer, read_answer};

use cells::admit_chain;
use network::admitting::{Board, admit_board};
use network::refusal::{Refusal, refuse_if};
use network::{Network, refusals};

pub mod cells;
pub mod clocks;
pub mod tdo;

// Rows 5 and 21, with which both calls begin: those of a network of any level and gate.
fn admit_owners<'a>(nets: u64, receivers: &'a [u64]) -> Result<Board<'a>, Refusal>
    ensures board { IfOk result (λ board. (board.nets.network.nets ≡ nets) × (board.receivers.now ≡ receivers.now)) }
    ensures admitted { IfOk result (λ _. (bad_net_count (network_of nets) ≡ false)
        × (bad_receivers (network_of nets) receivers.now ≡ false)) }
    ensures refused { IfErr result (λ refusal. refused (row_number refusal) ≡ nets_admission nets receivers.now) }
{
    admit_board(Network::of(nets), receivers)
}

// The call *write clocks*: the clocks for a test set into the front of `out`, one byte each, TMS in bit 0 and TDI in bit
// 1. It answers how many. `receivers` has the net of each receiver. The chain has `cells` cells, cell 0 nearest TDO;
// `driver_cells` has the cell of each net's driver, `receiver_cells` that of each receiver. All cells but the drivers' get
// 0. Rows 5, 21, 7, 8, 18, 12.
#[tactic(auto, using(crate::proofs::CellContents::clocks_size), unfolding(words::specs::Answers::by_tests, words::specs::Answers::count_of, words::specs::Answers::lent_after, crate::specs::Calls::write_answer,))]
pub fn write_clocks(
    nets: u64,
    receivers: &[u64],
    vectors: &[u64],
    cells: u64,
    driver_cells: &[u64],
    receiver_cells: &[u64],
    out: &mut [u8],
) -> Result<u64, Refusal>
    ensures answer { answer_of result
        ≡ count_of (write_answer nets receivers.now vectors.now cells driver_cells.now
        receiver_cells.now (length out.old)) }
    ensures list { out.new
        ≡ lent_after (write_answer nets receivers.now vectors.now cells driver_cells.now
        receiver_cells.now (length out.old)) out.old }
{
    let board = admit_owners(nets, receivers)?;
    let count = vectors.len();
    refuse_if(refusals::bad_count(count as u64), Refusal::VectorCount)?;
    refuse_if(refusals::has_high_bit(nets, vectors), Refusal::VectorBits)?;
    let chain = admit_chain(board, cells, driver_cells, receiver_cells)?;
    let total = chain.clock_count(count);
    refuse_if(refusals::no_room(total, out.len()), Refusal::Room)?;
    chain.put_clocks(vectors, out);
    Ok(total as u64)
}

// The call *read clocks*: the responses to `count` vectors from the TDO bits of their clocks, a byte 0 or 1 for each
// clock, into the front of `out`. It answers how many. The chain is described as for *write clocks*. Rows 5, 21, 7, 18,
// 19, 12.
#[tactic(auto, using(crate::proofs::Reading::responses_size), unfolding(words::specs::Answers::by_tests, words::specs::Answers::count_of, words::specs::Answers::lent_after, crate::specs::Calls::read_answer,))]
pub fn read_clocks(
    nets: u64,
    receivers: &[u64],
    count: u64,
    cells: u64,
    driver_cells: &[u64],
    receiver_cells: &[u64],
    tdo: &[u8],
    out: &mut [u64],
) -> Result<u64, Refusal>
    ensures answer { answer_of result
        ≡ count_of (read_answer nets receivers.now count cells driver_cells.now
        receiver_cells.now tdo.now (length out.old)) }
    ensures list { out.new
        ≡ lent_after (read_answer nets receivers.now count cells driver_cells.now
        receiver_cells.now tdo.now (length out.old)) out.old }
{
    let board = admit_owners(nets, receivers)?;
    refuse_if(refusals::bad_count(count), Refusal::VectorCount)?;
    let chain = admit_chain(board, cells, driver_cells, receiver_cells)?;
    let many = count as usize;
    refuse_if(chain.bad_tdo(many, tdo), Refusal::Tdo)?;
    refuse_if(refusals::no_room(many, out.len()), Refusal::Room)?;
    chain.fill_responses(tdo, many, out);
    Ok(count)
}
