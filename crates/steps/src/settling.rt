// How the answers of both steps give the state. Helpers between crates.
ghost use Rattle.std.specs.Prelude.{◌≡◌, true, false, List, ◌++◌, ℕ, length, MatchOption};
ghost use Rattle.words.specs.Answers.{Decides};
ghost use Rattle.network.specs.States.{Fits};
ghost use Rattle.network.specs.Rows.{HighBit};
ghost use Rattle.diagnosis.specs.ReadBack.{read_back, no_state_fits};
ghost use Rattle.steps.specs.FirstStep.{word_length};
ghost use Rattle.steps.specs.SecondStep.{second_vectors, session_vectors, fault_free_state};

use arrayvec::ArrayVec;
use network::admitting::Board;
use words::Stv;

// The answers to both steps on a board, and the vectors of step two, which the first answers ask for.
#[derive(Clone, Copy)]
pub struct BothSteps<'a> {
    pub board: Board<'a>,
    pub first: &'a [u64],
    pub vectors: &'a [u64],
    pub second: &'a [u64],
    ghost one_a_word: { length first.now ≡ word_length board.nets.network },
    ghost asked: { vectors.now ≡ second_vectors board.nets.network board.receivers.now first.now },
    ghost one_a_vector: { length second.now ≡ length vectors.now },
}

// The state in which each reach is its own net's driver.
pub fn fault_free(board: Board) -> ArrayVec<u64, 64>
    ensures { result.items ≡ fault_free_state board.entry.receivers.now }
{
    let mut reaches = ArrayVec::new();
    for &i in board.receivers {
        reaches.push(words::sets::bit_word(i));
    }
    reaches
}

// The only reaches that can fit: of a clear net's receiver the net's own driver, and of any other what its second
// answers show.
fn decoded(both: BothSteps) -> ArrayVec<u64, 64>
    ensures size { length result.items ≡ length both.entry.board.receivers.now }
    ensures only { (state : List ℕ) → Fits both.entry.board.nets.network (length both.entry.board.receivers.now)
        both.entry.board.nets.network.nets
        (session_vectors both.entry.board.nets.network both.entry.board.receivers.now both.entry.first.now)
        (both.entry.first.now ++ both.entry.second.now) state → result.items ≡ state }
{
    let board = both.board;
    let m = board.receivers.len();
    let words = crate::first::sequential_words(board.nets);
    let returned = diagnosis::fit::answers_of(m, both.first);
    let answers = diagnosis::fit::answers_of(m, both.second);
    let mut reaches = ArrayVec::new();
    for (r, &i) in board.receivers.iter().enumerate() {
        let word = words.as_slice()[i as usize];
        let reach = if crate::second::only_from(word, &returned[..m], board.receivers, i) {
            words::sets::bit_word(i)
        } else {
            diagnosis::walking::walking_reach(board.nets, both.vectors, Stv(answers[r]))
        };
        reaches.push(reach);
    }
    reaches
}

// Whether these reaches are a state that fits the answers of both steps.
fn fits_both(both: BothSteps, state: &[u64]) -> bool
    requires { length state.now ≡ length both.board.receivers.now }
    ensures { Decides result
        (Fits both.entry.board.nets.network (length both.entry.board.receivers.now) both.entry.board.nets.network.nets
        (session_vectors both.entry.board.nets.network both.entry.board.receivers.now both.entry.first.now)
        (both.entry.first.now ++ both.entry.second.now) state.now) }
{
    let nets = both.board.nets;
    let net = nets.network;
    if nets.not_a_state(both.board.receivers.len(), net.nets, state) {
        return false;
    }
    let vectors = crate::first::first_vectors(both.board.nets);
    diagnosis::fit::gives_response(net, vectors.as_slice(), state, both.first)
        && diagnosis::fit::gives_response(net, both.vectors, state, both.second)
}

// The state that fits the answers of both steps, if there is one.
pub fn settled(both: BothSteps) -> Option<ArrayVec<u64, 64>>
    requires { (HighBit (length both.board.receivers.now) both.first.now → ⊥)
        × (HighBit (length both.board.receivers.now) both.second.now → ⊥) }
    ensures { let net = both.entry.board.nets.network in
        let m = length both.entry.board.receivers.now in
        let vectors = session_vectors net both.entry.board.receivers.now both.entry.first.now in
        let answers = both.entry.first.now ++ both.entry.second.now in
        MatchOption result (no_state_fits net m net.nets vectors answers ≡ true)
        (λ state. (no_state_fits net m net.nets vectors answers ≡ false)
        × (state.items ≡ read_back net m net.nets vectors answers)) }
{
    let state = decoded(both);
    if fits_both(both, state.as_slice()) {
        Some(state)
    } else {
        None
    }
}
