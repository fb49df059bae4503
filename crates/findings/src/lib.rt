// What is found at the receivers of a wiring state. `partners_of` and `finding_of` ask that the state is one of the
// board's own.

#![tactic(auto)]

ghost use Rattle.std.specs.Prelude.{◌≡◌, ℕ, ◌<◌, not, eqb, IfOk, length};
ghost use Rattle.words.specs.Answers.{count_of, lent_after};
ghost use Rattle.words.specs.Bits.{has};
ghost use Rattle.network.specs.States.{State};
ghost use Rattle.findings.specs.Findings.{joins, partners, kind, finding};
ghost use Rattle.findings.specs.FindingsTable.{findings_answer, table_meaning, blank_table};

use network::admitting::{Board, admit_board};
use network::refusal::{Refusal, refuse_if};
use network::{Network, refusals};

// What is found at one receiver: kind 0 sound, 1 open, 2 short, 3 both. The partners are nets.
#[derive(Clone, Copy, Debug, PartialEq, Eq)]
pub struct Finding {
    pub kind: u64,
    pub reach: u64,
    pub partners: u64,
}

// The nets that a receiver on net `owner`, of reach `other`, joins to one on net i, of reach `reach`; net i may be
// among them. Nets are below 64.
fn joined_by(i: u64, reach: u64, owner: u64, other: u64) -> u64
    requires { (i < 64) × (owner < 64) }
    ensures { (j : ℕ) → has result j ≡ joins i reach j owner other }
{
    let its_net = words::sets::bit_word(owner);
    if (other >> i) % 2 == 1 {
        return its_net | other;
    }
    if (reach != 0) & (other == reach) {
        return its_net;
    }
    0
}

// The partners of receiver r, in one pass over the receivers.
fn partners_of(board: Board, state: &[u64], r: usize) -> u64
    requires { (r < length board.receivers.now)
        × State board.nets.network (length board.receivers.now) board.nets.network.nets state.now }
    ensures { result ≡ partners board.entry.nets.network board.entry.receivers.now state.now r }
{
    let i = board.receivers[r];
    let reach = state[r];
    let mut joined: u64 = 0;
    for (s, &other) in state.iter().enumerate() {
        joined |= joined_by(i, reach, board.receivers[s], other);
    }
    board.nets.all_but(i) & (joined | reach)
}

// The kind by arithmetic, with no branch: open counts 1, short counts 2, added. The net is below 64.
fn kind_of(reach: u64, i: u64, partners: u64) -> u64
    requires { i < 64 }
    ensures { result ≡ kind (not (has reach i)) (not (eqb partners 0)) }
{
    let open = ((reach >> i) % 2 != 1) as u64;
    let short = (partners != 0) as u64;
    open + 2 * short
}

// The finding of receiver r. A helper between crates.
pub fn finding_of(board: Board, state: &[u64], r: usize) -> Finding
    requires { (r < length board.receivers.now)
        × State board.nets.network (length board.receivers.now) board.nets.network.nets state.now }
    ensures { result ≡ finding board.entry.nets.network board.entry.receivers.now state.now r }
{
    let reach = state[r];
    let partners = partners_of(board, state, r);
    Finding {
        kind: kind_of(reach, board.receivers[r], partners),
        reach,
        partners,
    }
}

// The board that a call is given, if none of rows 5, 21, 17, 20, 11 and 12 holds: the first that holds refuses.
#[tactic(auto, unfolding(words::specs::Answers::by_tests, words::specs::Answers::count_of, crate::specs::FindingsTable::findings_answer, crate::specs::FindingsTable::table_meaning))]
fn admit_table<'a>(
    net: Network,
    receivers: &'a [u64],
    state: &[u64],
    room: usize,
) -> Result<Board<'a>, Refusal>
    ensures answer { table_meaning (length receivers.now) result
        ≡ count_of (findings_answer net receivers.now state.now room) }
    ensures admitted { IfOk result
        (λ board. (board.nets.network ≡ net) × (board.receivers.now ≡ receivers.now)) }
{
    let board = admit_board(net, receivers)?;
    refuse_if(
        board.nets.not_a_state(receivers.len(), net.nets, state),
        Refusal::State,
    )?;
    refuse_if(refusals::no_room(receivers.len(), room), Refusal::Room)?;
    Ok(board)
}

// The call *findings*: a record a receiver into the front of `table`. `receivers` has the net of each receiver. Rows 5,
// 21, 17, 20, 11 with k = n, and 12.
pub fn findings(
    net: Network,
    receivers: &[u64],
    state: &[u64],
    table: &mut [Finding],
) -> Result<(), Refusal>
    ensures answer { table_meaning (length receivers.now) result
        ≡ count_of (findings_answer net receivers.now state.now (length table.old)) }
    ensures table { table.new
        ≡ lent_after (findings_answer net receivers.now state.now (length table.old))
        table.old }
{
    let board = admit_table(net, receivers, state, table.len())?;
    for r in 0..state.len() {
        table[r] = finding_of(board, state, r);
    }
    Ok(())
}

// The call *findings* by value, with a blank table lent.
pub fn by_value(net: Network, receivers: &[u64], state: &[u64]) -> Result<[Finding; 64], Refusal>
    ensures answer { table_meaning (length receivers.now) result
        ≡ count_of (findings_answer net receivers.now state.now 64) }
    ensures table { IfOk result
        (λ table. table ≡ lent_after (findings_answer net receivers.now state.now 64) blank_table) }
{
    let mut table = [Finding {
        kind: 0,
        reach: 0,
        partners: 0,
    }; 64];
    findings(net, receivers, state, &mut table)?;
    Ok(table)
}
