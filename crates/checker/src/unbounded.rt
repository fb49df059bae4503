// The rule for k = n.
ghost use Rattle.std.specs.Prelude.{◌≡◌, ℕ, ◌<◌, ◌≤◌, ◌^◌};
ghost use Rattle.words.specs.Bits.{has};
ghost use Rattle.words.specs.Searching.{among};
ghost use Rattle.network.specs.Reading.{walking_vector, extra_vector};
ghost use Rattle.checker.specs.Rule.{full_verdict};

use crate::Verdict;
use network::admitting::Nets;

// Whether the extra vector is there, and the drivers whose walking vectors are.
#[derive(Clone, Copy)]
struct Walked {
    extra: bool,
    drivers: u64,
}

// What one pass over the vectors finds.
fn walked_by(nets: Nets, vectors: &[u64]) -> Walked
    ensures { (result.extra ≡ among (extra_vector nets.network) vectors.now)
        × (result.drivers < 2 ^ nets.network.nets)
        × ((i : ℕ) → i < nets.network.nets
        → has result.drivers i ≡ among (walking_vector nets.network i) vectors.now) }
{
    let none = nets.extra_vector();
    let mut extra = false;
    let mut drivers: u64 = 0;
    for &vector in vectors {
        extra |= vector == none.0;
        drivers |= nets.walked_driver(vector);
    }
    Walked { extra, drivers }
}

// Whether the extra vector, if there is one, and the walking vector of each net are there.
pub fn full_verdict(nets: Nets, vectors: &[u64]) -> Verdict
    ensures { result ≡ full_verdict nets.network vectors.now }
{
    let all = nets.all_drivers();
    let needed = network::drivers::needs_extra(nets.network);
    let there = walked_by(nets, vectors);
    if needed & !there.extra {
        return Verdict::Pair(0, all);
    }
    let missing = all - there.drivers;
    if missing == 0 {
        return Verdict::Pass;
    }
    let i = words::sets::lowest_net(missing);
    Verdict::Pair(nets.all_but(i), all)
}
