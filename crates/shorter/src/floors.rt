// The floor. Helpers: k is 1, 2 or 3.
ghost use Rattle.std.specs.Prelude.{◌≡◌, ◌<◌, ◌≤◌};
ghost use Rattle.words.specs.Counting.{class_size};
ghost use Rattle.shorter.specs.Shorter.{floor};

use network::admitting::Nets;

// How many sets of at most k drivers there are; `one`, `two` and `three` are those of at most 1, 2 and 3 of the first i
// drivers. With a driver more, there are those without it, and those with it, which have at most k - 1 of the others.
fn number_of_sets(nets: u64, class: u64) -> u64
    requires { (nets ≤ 48) × (0 < class) × (class ≤ 3) }
    ensures { result ≡ class_size nets class }
{
    let mut one: u64 = 1;
    let mut two: u64 = 1;
    let mut three: u64 = 1;
    for _i in 0..nets {
        three += two;
        two += one;
        one += 1;
    }
    match class {
        1 => one,
        2 => two,
        _ => three,
    }
}

// The smallest q with 2^q at least that number; 2^n is.
pub fn floor(nets: Nets, class: u64) -> u64
    requires { (0 < class) × (class ≤ 3) }
    ensures { result ≡ floor nets.network class }
{
    let n = nets.network.nets;
    let count = number_of_sets(n, class);
    for q in 0..n {
        if count <= words::sets::bit_word(q) {
            return q;
        }
    }
    n
}
