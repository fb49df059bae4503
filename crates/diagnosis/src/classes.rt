// Reading back for k below n: the sets looked up by what they read. Helpers: there are at most 64 answers.
ghost use Rattle.std.specs.Prelude.{◌≡◌, ◌≢◌, cond, ℕ, ◌<◌, ◌≤◌, eqb, length};
ghost use Rattle.words.specs.Bits.{at};
ghost use Rattle.checker.specs.Seen.{LookedUp};

use arrayvec::ArrayVec;
use checker::search::Search;
use checker::{PassedSet, bounded};

// The set noted for each receiver that answered so.
fn note(set: u64, word: u64, answers: &[u64], reaches: &mut [u64])
    requires { length answers.now ≤ length reaches.old }
    ensures { (i : ℕ) → i < length answers.now
        → at reaches.new i
        ≡ cond (eqb (at answers.now i) word) set (at reaches.old i) }
{
    for (i, &answer) in answers.iter().enumerate() {
        if answer == word {
            reaches[i] = set;
        }
    }
}

// Of each receiver the only set of the class that can have answered so, by one pass over all driver sets, at most
// 1,024.
fn note_all(passed: PassedSet, answers: &[u64], reaches: &mut [u64])
    requires { (passed.set.nets.network.nets ≤ 10) × (length answers.now ≤ length reaches.old) }
    ensures { LookedUp passed.entry.set.nets.network passed.entry.set.class passed.entry.set.vectors.now answers.now
        reaches.new }
{
    let test = passed.set;
    let net = test.nets.network;
    for set in 0..words::sets::bit_word(net.nets) {
        if network::refusals::few_drivers(net, test.class, set) {
            let response = network::receivers::sequential_response(net, test.vectors, set);
            note(set, response.0, answers, reaches);
        }
    }
}

// The empty set for each of `count` receivers.
fn no_reaches(count: usize) -> ArrayVec<u64, 64>
    requires { count ≤ 64 }
    ensures { length result.items ≡ count }
{
    let mut reaches = ArrayVec::new();
    for _i in 0..count {
        reaches.push(0);
    }
    reaches
}

// The same, for a class up to 3 by the checker's search for those.
pub fn class_reaches(passed: PassedSet, answers: &[u64]) -> ArrayVec<u64, 64>
    requires { (passed.set.class ≢ passed.set.nets.network.nets) × (length answers.now ≤ 64) }
    ensures size { length result.items ≡ length answers.now }
    ensures only { LookedUp passed.entry.set.nets.network passed.entry.set.class passed.entry.set.vectors.now
        answers.now result.items }
{
    let mut reaches = no_reaches(answers.len());
    let Some(search) = Search::of(passed.set) else {
        note_all(passed, answers, reaches.as_mut_slice());
        return reaches;
    };
    bounded::sets_read(search, answers, reaches.as_mut_slice());
    reaches
}
