// Step one of a session. Helpers between crates: there are two nets or more, as row 5 has it.
ghost use Rattle.std.specs.Prelude.{◌≡◌, ◌≤◌};
ghost use Rattle.steps.specs.FirstStep.{word_length, sequential_words, first_vectors};

use arrayvec::ArrayVec;
use network::admitting::Nets;

// p: the smallest number with C(p, p/2 rounded down) at least n.
pub fn word_length(nets: Nets) -> u64
    requires { 2 ≤ nets.network.nets }
    ensures { result ≡ word_length nets.network }
{
    let central = [1u64, 1, 2, 3, 6, 10, 20, 35]; // C(p, p/2 rounded down) for p from 0 to 7; it is 70 for 8
    for (p, &words) in central.iter().enumerate() {
        if nets.network.nets <= words {
            return p as u64;
        }
    }
    central.len() as u64
}

// The n smallest numbers below 2^p with exactly p/2 (rounded down) ones, ascending.
pub fn sequential_words(nets: Nets) -> ArrayVec<u64, 48>
    requires { 2 ≤ nets.network.nets }
    ensures { result.items ≡ sequential_words nets.network }
{
    let p = word_length(nets);
    let half = p / 2;
    let n = nets.network.nets as usize;
    let mut words = ArrayVec::new();
    for word in 0..words::sets::bit_word(p) {
        if words.len() == n {
            return words;
        }
        if words::sets::count_of_ones(word) == half {
            words.push(word);
        }
    }
    words
}

// The p vectors of step one.
pub fn first_vectors(nets: Nets) -> ArrayVec<u64, 8>
    requires { 2 ≤ nets.network.nets }
    ensures { result.items ≡ first_vectors nets.network }
{
    let words = sequential_words(nets);
    let mut vectors = ArrayVec::new();
    for t in 0..word_length(nets) {
        vectors.push(words::turning::parallel_word(words.as_slice(), t).0);
    }
    vectors
}
