// Vectors dropped from a passed set, one after the other.
ghost use Rattle.std.specs.Prelude.{◌≡◌, ◌≤◌, length};
ghost use Rattle.shorter.specs.Shorter.{without, tried};

use arrayvec::ArrayVec;
use checker::PassedSet;
use network::admitting::TestSet;

// What is left of a set: the vectors kept, and the checks made.
#[derive(Drop)]
pub struct Left {
    pub vectors: ArrayVec<u64, 64>,
    pub checks: u64,
}

// The words as a list of its own.
fn list_of(words: &[u64]) -> ArrayVec<u64, 64>
    requires { length words.now ≤ 64 }
    ensures { result.items ≡ words.now }
{
    let mut list = ArrayVec::new();
    for &word in words {
        list.push(word);
    }
    list
}

// A list without its entry i.
fn without(i: usize, words: &ArrayVec<u64, 64>) -> ArrayVec<u64, 64>
    ensures { result.items ≡ without i words.now.items }
{
    let mut less = ArrayVec::new();
    for (t, &word) in words.as_slice().iter().enumerate() {
        if t != i {
            less.push(word);
        }
    }
    less
}

// The trials from the last vector to the first, as long as checks are left. A set that is passed has two vectors or
// more, so no trial is on an empty one.
pub fn drop_vectors(passed: PassedSet, allowed: u64) -> Left
    ensures kept { result.vectors.items
        ≡ (tried passed.entry.set.nets.network passed.entry.set.class passed.entry.set.vectors.now allowed).kept }
    ensures checks { result.checks
        ≡ (tried passed.entry.set.nets.network passed.entry.set.class passed.entry.set.vectors.now allowed).checks }
{
    let set = passed.set;
    let mut kept = list_of(set.vectors);
    let mut t = kept.len();
    let mut left = allowed;
    // A `while`: it runs down on two counters, until either is used up.
    while (0 < t) & (0 < left) {
        t -= 1;
        left -= 1;
        let less = without(t, &kept);
        let others = TestSet {
            nets: set.nets,
            class: set.class,
            vectors: less.as_slice(),
        };
        if checker::passed(others).is_ok() {
            kept = less;
        }
    }
    Left {
        vectors: kept,
        checks: allowed - left,
    }
}
