// Driver sets as words: single bits, lowest bits, counts of ones, trailing zeros. Helpers between crates: `bit_word`
// and `low_ones` have a requires.
ghost use Rattle.std.specs.Prelude.{◌≡◌, ◌<◌, ◌≤◌, ◌-◌, ◌^◌};
ghost use Rattle.std.specs.Int.Count.{ones, count_trailing_zeros};

// The word with bit i alone.
pub fn bit_word(i: u64) -> u64
    requires { i < 64 }
    ensures { result ≡ 2 ^ i }
{
    1u64 << i
}

// The word with the lowest `count` bits. All 64 are no shift by 64.
pub fn low_ones(count: u64) -> u64
    requires { count ≤ 64 }
    ensures { result ≡ 2 ^ count - 1 }
{
    if count == 64 {
        return u64::MAX;
    }
    bit_word(count) - 1
}

// The number of drivers in a set.
pub fn count_of_ones(set: u64) -> u64
    ensures { result ≡ ones set }
{
    u64::count_ones(set) as u64
}

// The lowest net in a word, by its trailing zeros; of a walking vector's active bits, its net.
pub fn lowest_net(vector: u64) -> u64
    ensures { result ≡ count_trailing_zeros 64 vector }
{
    u64::trailing_zeros(vector) as u64
}
