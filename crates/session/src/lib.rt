// The two-step session: a record that each accepted call advances.

#![tactic(auto)]

ghost use Rattle.std.specs.Prelude.{◌≡◌, length};
ghost use Rattle.words.specs.Answers.{lent_after};
ghost use Rattle.session.specs.Calls.{begin_answer, begun, first_answer, first_answered, second_answered};
ghost use Rattle.session.specs.Calls.{after_step, code_of};

pub mod by_value;
pub mod drive;
mod new_record;
mod record;

use network::Network;
use network::admitting::admit_board;
use network::refusal::{Refusal, refuse_if};
use steps::settling::BothSteps;

// The steps of a record: it waits for first answers, or for second ones, or is finished.
const FIRST: u64 = 1;

const SECOND: u64 = 2;

const FINISHED: u64 = 3;

// A session's record, which a caller may hold in any state: numbers and whole arrays, and row 4 refuses what no calls
// leave. Step 1 waits for first answers, 2 for second answers, 3 is finished; what a step does not use is
// 0. `owners` begins with the net of each of the receivers.
#[derive(Clone, Copy)]
pub struct Session {
    pub step: u64,
    pub network: Network,
    pub receivers: u64,
    pub owners: [u64; 64],
    pub first: [u64; 8],
    pub reaches: [u64; 64],
    pub spent: u64,
}

// The step of *begin*, by value: the record after it, and the vectors of step one into the front of `list`. Rows 5, 21,
// 17, 20 and 12.
fn begin_step(
    session: Session,
    net: Network,
    receivers: &[u64],
    list: &mut [u64],
) -> Result<Session, Refusal>
    ensures session { after_step result session
        ≡ (begun session net receivers.now (length list.old)).session }
    ensures code { code_of result
        ≡ (begun session net receivers.now (length list.old)).code }
    ensures list { list.new
        ≡ lent_after (begin_answer net receivers.now (length list.old)) list.old }
{
    let board = admit_board(net, receivers)?;
    let vectors = steps::first::first_vectors(board.nets);
    let no_room = network::refusals::no_room(vectors.len(), list.len());
    refuse_if(no_room, Refusal::Room)?;
    words::lists::copy_words(vectors.as_slice(), list);
    Ok(new_record::awaiting_first(board))
}

// The step of *first answers*, by value: the vectors of step two into the front of `list`, if a net is unclear. Rows 4,
// 9, 10 and 12.
fn first_step(session: Session, answers: &[u64], list: &mut [u64]) -> Result<Session, Refusal>
    ensures session { after_step result session
        ≡ (first_answered session answers.now (length list.old)).session }
    ensures code { code_of result ≡ (first_answered session answers.now (length list.old)).code }
    ensures list { list.new
        ≡ lent_after (first_answer session answers.now (length list.old)) list.old }
{
    let board = record::waiting_for_first(&session).ok_or(Refusal::Record)?;
    let p = steps::first::word_length(board.nets) as usize;
    let bad_count = network::refusals::bad_response_count(p, answers.len());
    refuse_if(bad_count, Refusal::ResponseCount)?;
    let high_bit = network::refusals::has_high_bit(session.receivers, answers);
    refuse_if(high_bit, Refusal::ResponseBits)?;
    let vectors = steps::second::second_vectors(board, answers);
    let no_room = network::refusals::no_room(vectors.len(), list.len());
    refuse_if(no_room, Refusal::Room)?;
    words::lists::copy_words(vectors.as_slice(), list);
    Ok(new_record::answered(board, answers, vectors.len()))
}

// The step of *second answers*, by value: the only state that fits both steps. Rows 4, 9, 10 and 14.
fn second_step(session: Session, answers: &[u64]) -> Result<Session, Refusal>
    ensures session { after_step result session ≡ (second_answered session answers.now).session }
    ensures code { code_of result ≡ (second_answered session answers.now).code }
{
    let asked = record::waiting_for_second(&session).ok_or(Refusal::Record)?;
    let count = asked.vectors.len();
    let bad_count = network::refusals::bad_response_count(count, answers.len());
    refuse_if(bad_count, Refusal::ResponseCount)?;
    let high_bit = network::refusals::has_high_bit(session.receivers, answers);
    refuse_if(high_bit, Refusal::ResponseBits)?;
    let both = BothSteps {
        board: asked.board,
        first: asked.first,
        vectors: asked.vectors.as_slice(),
        second: answers,
    };
    let state = steps::settling::settled(both).ok_or(Refusal::NoStateFits)?;
    let spent = (asked.first.len() + count) as u64;
    Ok(new_record::finished(asked.board, state.as_slice(), spent))
}

// The call *begin* on a lent record. `receivers` has the net of each receiver.
pub fn begin(
    session: &mut Session,
    net: Network,
    receivers: &[u64],
    list: &mut [u64],
) -> Result<(), Refusal>
    ensures session { session.new
        ≡ (begun session.old net receivers.now (length list.old)).session }
    ensures code { code_of result
        ≡ (begun session.old net receivers.now (length list.old)).code }
    ensures list { list.new
        ≡ lent_after (begin_answer net receivers.now (length list.old)) list.old }
{
    let begun = begin_step(*session, net, receivers, list)?;
    *session = begun;
    Ok(())
}

// The call *first answers* on a lent record.
pub fn first_answers(
    session: &mut Session,
    answers: &[u64],
    list: &mut [u64],
) -> Result<(), Refusal>
    ensures session { session.new
        ≡ (first_answered session.old answers.now (length list.old)).session }
    ensures code { code_of result ≡ (first_answered session.old answers.now (length list.old)).code }
    ensures list { list.new
        ≡ lent_after (first_answer session.old answers.now (length list.old)) list.old }
{
    let answered = first_step(*session, answers, list)?;
    *session = answered;
    Ok(())
}

// The call *second answers* on a lent record.
pub fn second_answers(session: &mut Session, answers: &[u64]) -> Result<(), Refusal>
    ensures session { session.new ≡ (second_answered session.old answers.now).session }
    ensures code { code_of result ≡ (second_answered session.old answers.now).code }
{
    let settled = second_step(*session, answers)?;
    *session = settled;
    Ok(())
}
