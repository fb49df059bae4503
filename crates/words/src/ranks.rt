// The set at an index among the sets of a class, found without a walk through them. Helpers between crates: the class
// is at most 3, and the index below the number of the sets. The highest driver of a set is found from above: it is the
// first one where the sets of lower drivers alone end at or before the index.
ghost use Rattle.std.specs.Prelude.{◌≡◌, ℕ, ◌<◌, ◌≤◌, ◌^◌, length};
ghost use Rattle.words.specs.Bits.{at};
ghost use Rattle.words.specs.Searching.{sets_of_class};

use crate::sets::bit_word;

// How many sets there are of at most two, and of at most three, of 48 drivers.
const AT_MOST_TWO: u64 = 1177;

const AT_MOST_THREE: u64 = 18473;

// The set at an index among the sets of at most one driver: the empty one, then each driver alone.
fn one_at(index: u64) -> u64
    requires { index ≤ 48 }
    ensures { (n : ℕ) → index ≤ n → result ≡ at (sets_of_class 1 (2 ^ n)) index }
{
    if index == 0 { 0 } else { bit_word(index - 1) }
}

// The set at an index among the sets of at most two of the lowest `drivers` drivers, of which there are `size`.
fn two_at(index: u64, drivers: u64, size: u64) -> u64
    requires { (drivers ≤ 48) × (size ≡ length (sets_of_class 2 (2 ^ drivers))) × (index < size) }
    ensures { result ≡ at (sets_of_class 2 (2 ^ drivers)) index }
{
    if index == 0 {
        return 0;
    }
    let mut driver = drivers;
    let mut two = size;
    // A `while`: it runs down until the sets of lower drivers end at or before the index.
    while index < two {
        driver -= 1;
        two -= driver + 1;
    }
    bit_word(driver) + one_at(index - two)
}

// The set at an index among the sets of at most three drivers.
fn three_at(index: u64) -> u64
    requires { index < length (sets_of_class 3 (2 ^ 48)) }
    ensures { result ≡ at (sets_of_class 3 (2 ^ 48)) index }
{
    if index == 0 {
        return 0;
    }
    let mut driver: u64 = 48;
    let mut two = AT_MOST_TWO;
    let mut three = AT_MOST_THREE;
    // A `while`, as in `two_at`.
    while index < three {
        driver -= 1;
        two -= driver + 1;
        three -= two;
    }
    bit_word(driver) + two_at(index - three, driver, two)
}

// The set at an index among the sets of at most `class` drivers, ascending.
pub fn set_at(class: u64, index: u64) -> u64
    requires { (class ≤ 3) × (index < length (sets_of_class class (2 ^ 48))) }
    ensures { result ≡ at (sets_of_class class (2 ^ 48)) index }
{
    match class {
        3 => three_at(index),
        2 => two_at(index, 48, AT_MOST_TWO),
        _ => one_at(index),
    }
}
