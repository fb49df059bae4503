// Reading back for k = n: the extra vector, if there is one, tells whether a receiver floats, and the walking vectors
// which drivers reach it. `walking_reach` needs no more than 64 vectors, and says what the answers show.
// `walking_reaches` needs class n, and gives the only reaches that can have answered so.
ghost use Rattle.std.specs.Prelude.{◌≡◌, ◌≤◌, length};
ghost use Rattle.checker.specs.Seen.{LookedUp};
ghost use Rattle.diagnosis.specs.Walking.{Walked};

use arrayvec::ArrayVec;
use checker::PassedSet;
use network::admitting::Nets;
use words::Stv;

// The drivers whose walking vectors the receiver answered with the gate's active value, or none if it answered so to
// the extra vector. Only such answers are gone through.
pub fn walking_reach(nets: Nets, vectors: &[u64], answered: Stv) -> u64
    requires { length vectors.now ≤ 64 }
    ensures { Walked nets.network vectors.now answered.0 result }
{
    let count = vectors.len() as u64;
    let mut reach: u64 = 0;
    let mut rest = network::drivers::active_bits(nets.network, answered.0, count);
    let mut t = words::sets::lowest_net(rest);
    // A `while`: it goes by the bits that are set, and most are not.
    while t < count {
        let vector = vectors[t as usize];
        if nets.is_extra(vector) {
            return 0;
        }
        reach |= nets.walked_driver(vector);
        rest -= words::sets::bit_word(t);
        t = words::sets::lowest_net(rest);
    }
    reach
}

// The reach of each receiver, from its answers.
pub fn walking_reaches(passed: PassedSet, answers: &[u64]) -> ArrayVec<u64, 64>
    requires { (passed.set.class ≡ passed.set.nets.network.nets) × (length answers.now ≤ 64) }
    ensures size { length result.items ≡ length answers.now }
    ensures only { LookedUp passed.entry.set.nets.network passed.entry.set.class passed.entry.set.vectors.now
        answers.now result.items }
{
    let test = passed.set;
    let mut reaches = ArrayVec::new();
    for &answered in answers {
        reaches.push(walking_reach(test.nets, test.vectors, Stv(answered)));
    }
    reaches
}
