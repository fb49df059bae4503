// Reading back: the wiring state that gave a response.

#![tactic(auto)]

ghost use Rattle.std.specs.Prelude.{◌≡◌, ℕ, ◌<◌, ◌≤◌, length};
ghost use Rattle.words.specs.Bits.{at};
ghost use Rattle.words.specs.Answers.{count_of, lent_after};
ghost use Rattle.words.specs.Turning.{column};
ghost use Rattle.network.specs.Rows.{HighBit};
ghost use Rattle.network.specs.Refusing.{answer_of};
ghost use Rattle.checker.specs.Seen.{OnlyAnswer};
ghost use Rattle.diagnosis.specs.Diagnosis.{fit_answer, diagnosis_answer};

mod classes;
pub mod fit;
pub mod walking;

use arrayvec::ArrayVec;
use checker::{PassedSet, Verdict};
use network::Network;
use network::admitting::admit_board_set;
use network::refusal::{Refusal, refuse_if};

// The only reaches that can have answered so.
fn candidate(passed: PassedSet, receivers: usize, responses: &[u64]) -> ArrayVec<u64, 64>
    requires { (receivers ≤ 64) × (length responses.now ≡ length passed.set.vectors.now) }
    ensures size { length result.items ≡ receivers }
    ensures only { (i : ℕ) → i < receivers
        → OnlyAnswer passed.entry.set.nets.network passed.entry.set.class passed.entry.set.vectors.now
        (column responses.now i) (at result.items i) }
{
    let columns = fit::answers_of(receivers, responses);
    let answers = &columns[..receivers];
    if passed.set.class == passed.set.nets.network.nets {
        return walking::walking_reaches(passed, answers);
    }
    classes::class_reaches(passed, answers)
}

// Row 14, or the state into the front of `out`. The rows before it do not hold.
fn read_back(
    passed: PassedSet,
    receivers: usize,
    responses: &[u64],
    out: &mut [u64],
) -> Result<u64, Refusal>
    requires { (receivers ≤ 64) × (length responses.now ≡ length passed.set.vectors.now)
        × (HighBit receivers responses.now → ⊥) × (receivers ≤ length out.old) }
    ensures answer { answer_of result
        ≡ count_of (fit_answer passed.entry.set.nets.network receivers passed.entry.set.class
        passed.entry.set.vectors.now responses.now) }
    ensures list { out.new
        ≡ lent_after (fit_answer passed.entry.set.nets.network receivers passed.entry.set.class
        passed.entry.set.vectors.now responses.now) out.old }
{
    let test = passed.set;
    let found = candidate(passed, receivers, responses);
    let state = found.as_slice();
    refuse_if(
        test.nets.not_a_state(receivers, test.class, state),
        Refusal::NoStateFits,
    )?;
    refuse_if(
        !fit::gives_response(test.nets.network, test.vectors, state, responses),
        Refusal::NoStateFits,
    )?;
    words::lists::copy_words(state, out);
    Ok(receivers as u64)
}

// The call *diagnosis*: the state of the class that gave the response, into the front of `out`. `receivers` has the net
// of each receiver. Rows 5, 21, 6, 17, 20, 7, 8, 9, 10, 12, 13, 14.
pub fn diagnose(
    net: Network,
    receivers: &[u64],
    class: u64,
    vectors: &[u64],
    responses: &[u64],
    out: &mut [u64],
) -> Result<u64, Refusal>
    ensures answer { answer_of result
        ≡ count_of (diagnosis_answer net receivers.now class vectors.now responses.now
        (length out.old)) }
    ensures list { out.new
        ≡ lent_after (diagnosis_answer net receivers.now class vectors.now
        responses.now (length out.old)) out.old }
{
    let board = admit_board_set(net, receivers, class, vectors)?;
    let m = receivers.len();
    refuse_if(
        network::refusals::bad_response_count(vectors.len(), responses.len()),
        Refusal::ResponseCount,
    )?;
    refuse_if(
        network::refusals::has_high_bit(m as u64, responses),
        Refusal::ResponseBits,
    )?;
    refuse_if(network::refusals::no_room(m, out.len()), Refusal::Room)?;
    let verdict = Verdict::of(board.set);
    let Verdict::Pass = verdict else {
        return Err(Refusal::NotPassed);
    };
    let passed = PassedSet { set: board.set };
    read_back(passed, m, responses, out)
}
