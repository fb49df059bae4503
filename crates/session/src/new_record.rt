// The records that accepted calls leave. Helpers: the words fit into the record's arrays.
ghost use Rattle.std.specs.Prelude.{◌≡◌, ◌≤◌, length};
ghost use Rattle.steps.specs.FirstStep.{word_length};
ghost use Rattle.steps.specs.SecondStep.{unclear, second_vectors};
ghost use Rattle.session.specs.Record.{record_of, awaiting_first, awaiting_second, finished};
ghost use Rattle.session.specs.Calls.{answered_by};

use crate::{FINISHED, FIRST, SECOND, Session};
use network::admitting::Board;

// A record with these words, and 0 in the unused entries of its arrays.
fn record_of(step: u64, board: Board, answers: &[u64], state: &[u64], spent: u64) -> Session
    requires { (length answers.now ≤ 8) × (length state.now ≤ 64) }
    ensures { result ≡ record_of step board.entry.nets.network board.entry.receivers.now answers.now state.now spent }
{
    let mut owners = [0u64; 64];
    words::lists::copy_words(board.receivers, &mut owners);
    let mut first = [0u64; 8];
    words::lists::copy_words(answers, &mut first);
    let mut reaches = [0u64; 64];
    words::lists::copy_words(state, &mut reaches);
    Session {
        step,
        network: board.nets.network,
        receivers: board.receivers.len() as u64,
        owners,
        first,
        reaches,
        spent,
    }
}

// A record that waits for first answers.
pub fn awaiting_first(board: Board) -> Session
    ensures { result ≡ awaiting_first board.entry.nets.network board.entry.receivers.now }
{
    record_of(FIRST, board, &[], &[], 0)
}

// A record that holds first answers and waits for second ones.
fn awaiting_second(board: Board, answers: &[u64]) -> Session
    requires { length answers.now ≤ 8 }
    ensures { result ≡ awaiting_second board.entry.nets.network board.entry.receivers.now answers.now }
{
    record_of(SECOND, board, answers, &[], 0)
}

// A record that holds the state and the number of vectors spent.
pub fn finished(board: Board, state: &[u64], spent: u64) -> Session
    requires { length state.now ≤ 64 }
    ensures { result ≡ finished board.entry.nets.network board.entry.receivers.now state.now spent }
{
    record_of(FINISHED, board, &[], state, spent)
}

// The record after first answers, by the number of vectors that they ask for: finished if it is 0.
pub fn answered(board: Board, answers: &[u64], count: usize) -> Session
    requires { (length answers.now ≡ word_length board.nets.network)
        × (count ≡ length (second_vectors board.nets.network board.receivers.now answers.now)) }
    ensures { result ≡ answered_by board.entry.nets.network board.entry.receivers.now answers.now
        (unclear board.entry.nets.network board.entry.receivers.now answers.now) }
{
    if count == 0 {
        let state = steps::settling::fault_free(board);
        return finished(
            board,
            state.as_slice(),
            steps::first::word_length(board.nets),
        );
    }
    awaiting_second(board, answers)
}
