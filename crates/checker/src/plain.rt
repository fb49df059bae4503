// The rule for k below n by a plain search over all driver sets, for every class of at most 10 nets. Helpers: there are
// no more nets, and at most 64 vectors.
ghost use Rattle.std.specs.Prelude.{◌≡◌, ◌≤◌, ◌^◌, length};
ghost use Rattle.checker.specs.Rule.{bounded_verdict};
ghost use Rattle.checker.specs.Seen.{AllRead, first_alike};

use crate::Verdict;
use network::Network;

// There are so many sets of 10 drivers.
const ALL: usize = 1024;

// What each set reads, at its number.
fn fill_readings(net: Network, vectors: &[u64], words: &mut [u64])
    requires { (length vectors.now ≤ 64) × (net.nets ≤ 10) × (2 ^ net.nets ≤ length words.old) }
    ensures { AllRead net vectors.now words.new }
{
    let end = words::sets::bit_word(net.nets);
    for set in 0..end {
        let response = network::receivers::sequential_response(net, vectors, set);
        words[set as usize] = response.0;
    }
}

// Of the sets whose readings are given, the smallest of the class that reads so.
fn first_alike(net: Network, class: u64, words: &[u64], word: u64) -> Option<u64>
    requires { length words.now ≤ 2 ^ net.nets }
    ensures { result ≡ first_alike net class words.now word }
{
    for (set, &read) in words.iter().enumerate() {
        if read == word && network::refusals::few_drivers(net, class, set as u64) {
            return Some(set as u64);
        }
    }
    None
}

// Each set of the class in ascending order, compared with all that are smaller.
pub fn plain_verdict(net: Network, class: u64, vectors: &[u64]) -> Verdict
    requires { (length vectors.now ≤ 64) × (net.nets ≤ 10) }
    ensures { result ≡ bounded_verdict net class vectors.now }
{
    let end = words::sets::bit_word(net.nets) as usize;
    let mut words = [0u64; ALL];
    fill_readings(net, vectors, &mut words);
    for b in 0..end {
        if network::refusals::few_drivers(net, class, b as u64) {
            if let Some(a) = first_alike(net, class, &words[..b], words[b]) {
                return Verdict::Pair(a, b as u64);
            }
        }
    }
    Verdict::Pass
}
