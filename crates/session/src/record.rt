// How a record that waits for answers is told, and what it then holds.
ghost use Rattle.std.specs.Prelude.{◌≡◌, true, false, ◌&&◌, eqb, length, MatchOption};
ghost use Rattle.network.specs.Rows.{HighBit};
ghost use Rattle.steps.specs.FirstStep.{word_length};
ghost use Rattle.steps.specs.SecondStep.{second_vectors};
ghost use Rattle.session.specs.Record.{is_zeros, board_held, held_owners, held_answers, awaits_first, awaits_second};

use crate::{FIRST, SECOND, Session};
use arrayvec::ArrayVec;
use network::admitting::{Board, admit_board};

// What a record that waits for second answers holds: its board, first answers that leave a net unclear, and the vectors
// of step two, which they ask for.
#[derive(Drop)]
pub struct Asked<'a> {
    pub board: Board<'a>,
    pub first: &'a [u64],
    pub vectors: ArrayVec<u64, 49>,
    ghost one_a_word: { length first.now ≡ word_length board.nets.network },
    ghost narrow: { HighBit (length board.receivers.now) first.now → ⊥ },
    ghost asked: { vectors.items ≡ second_vectors board.nets.network board.receivers.now first.now },
}

// Whether all words are 0.
fn is_zeros(words: &[u64]) -> bool
    ensures { result ≡ is_zeros (length words.now) words.now }
{
    words.iter().all(|&word| word == 0)
}

// The board that a record holds, and zeros after it, if it is one that begin takes.
fn held_board(session: &Session) -> Option<Board>
    ensures { MatchOption result (board_held session.now.network session.now.receivers session.now.owners ≡ false)
        (λ board. (board_held session.now.network session.now.receivers session.now.owners ≡ true)
        × (board.nets.network ≡ session.now.network) × (board.receivers.now ≡ held_owners session.now)) }
{
    if 64 < session.receivers {
        return None;
    }
    let m = session.receivers as usize;
    if !is_zeros(&session.owners[m..]) {
        return None;
    }
    admit_board(session.network, &session.owners[..m]).ok()
}

// Whether the step and what it does not use are those of a record that waits for first answers.
fn is_at_first(session: &Session) -> bool
    ensures { result ≡ eqb session.now.step 1 && (is_zeros 8 session.now.first
        && (is_zeros 64 session.now.reaches && eqb session.now.spent 0)) }
{
    session.step == FIRST
        && is_zeros(&session.first)
        && is_zeros(&session.reaches)
        && session.spent == 0
}

// Whether the step and what it does not use are those of a record that waits for second answers.
fn is_at_second(session: &Session) -> bool
    ensures { result ≡ eqb session.now.step 2 && (is_zeros 64 session.now.reaches && eqb session.now.spent 0) }
{
    session.step == SECOND && is_zeros(&session.reaches) && session.spent == 0
}

// The board of a record that accepted calls leave and that waits for first answers; none if it is no such record.
pub fn waiting_for_first(session: &Session) -> Option<Board>
    ensures { MatchOption result (awaits_first session.now ≡ false)
        (λ board. (awaits_first session.now ≡ true)
        × (board.nets.network ≡ session.now.network) × (board.receivers.now ≡ held_owners session.now)) }
{
    if !is_at_first(session) {
        return None;
    }
    held_board(session)
}

// What a record holds that accepted calls leave and that waits for second answers; none if it is no such record.
pub fn waiting_for_second(session: &Session) -> Option<Asked>
    ensures { MatchOption result (awaits_second session.now ≡ false)
        (λ asked. (awaits_second session.now ≡ true) × (asked.board.nets.network ≡ session.now.network)
        × (asked.board.receivers.now ≡ held_owners session.now) × (asked.first.now ≡ held_answers session.now)) }
{
    if !is_at_second(session) {
        return None;
    }
    let board = held_board(session)?;
    let p = steps::first::word_length(board.nets) as usize;
    let first = &session.first[..p];
    if !is_zeros(&session.first[p..]) {
        return None;
    }
    if network::refusals::has_high_bit(session.receivers, first) {
        return None;
    }
    let vectors = steps::second::second_vectors(board, first);
    if vectors.is_empty() {
        return None;
    }
    Some(Asked {
        board,
        first,
        vectors,
    })
}
