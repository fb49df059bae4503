// The vectors of step two. Helpers between crates: there are at most 64 answers.
ghost use Rattle.std.specs.Prelude.{◌≡◌, ◌≤◌, length};
ghost use Rattle.network.specs.Reading.{extra_vectors};
ghost use Rattle.steps.specs.SecondStep.{only_from, second_vectors};

use arrayvec::ArrayVec;
use network::admitting::{Board, Nets};

// Whether the receivers of net i, all of them and no other, returned this word. Receiver i is asked first: with own
// receivers it is the net's, and tells most nets that are not clear.
pub fn only_from(word: u64, words: &[u64], receivers: &[u64], i: u64) -> bool
    requires { length words.now ≡ length receivers.now }
    ensures { result ≡ only_from word words.now receivers.now i }
{
    let likely = i as usize;
    if likely < receivers.len() {
        if (receivers[likely] == i) & (words[likely] != word) {
            return false;
        }
    }
    for (r, &owner) in receivers.iter().enumerate() {
        let own = owner == i;
        let returned = words[r] == word;
        if own ^ returned {
            return false;
        }
    }
    true
}

// The extra vector, if there is one.
fn extra_alone(nets: Nets) -> ArrayVec<u64, 49>
    ensures { result.items ≡ extra_vectors nets.network }
{
    let mut vectors = ArrayVec::new();
    if network::drivers::needs_extra(nets.network) {
        vectors.push(nets.extra_vector().0);
    }
    vectors
}

// The vectors of step two, by the first answers: the extra vector, if there is one, then the walking vector of each net
// whose word its own receivers, all of them and no other, did not return; none if there is no such net.
pub fn second_vectors(board: Board, answers: &[u64]) -> ArrayVec<u64, 49>
    requires { length answers.now ≤ 64 }
    ensures { result.items ≡ second_vectors board.entry.nets.network board.entry.receivers.now answers.now }
{
    let m = board.receivers.len();
    let words = crate::first::sequential_words(board.nets);
    let returned = diagnosis::fit::answers_of(m, answers);
    let mut vectors = extra_alone(board.nets);
    let start = vectors.len();
    for (i, &word) in words.as_slice().iter().enumerate() {
        if !only_from(word, &returned[..m], board.receivers, i as u64) {
            vectors.push(board.nets.walking_vector(i as u64).0);
        }
    }
    if vectors.len() == start {
        vectors.clear();
    }
    vectors
}
