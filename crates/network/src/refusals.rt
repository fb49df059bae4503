// The refusal rows that calls share, a function a row. Helpers between crates: those that need the nets admitted by row
// 5 are methods of `Nets`.
ghost use Rattle.std.specs.Prelude.{◌≡◌, ℕ, ◌<◌, ◌≤◌, ◌^◌, length};
ghost use Rattle.words.specs.Bits.{at};
ghost use Rattle.network.specs.States.{few_drivers, has_wrong_reach, has_conflict, not_a_state};
ghost use Rattle.network.specs.Rows.{bad_net_count, bad_class, bad_level, bad_gate, bad_count, no_bit};
ghost use Rattle.network.specs.Rows.{bad_receivers, has_high_bit, bad_response_count, no_room};

use crate::Network;
use crate::admitting::Nets;

// Row 5: n below 2 or above 48.
pub fn bad_net_count(net: Network) -> bool
    ensures { result ≡ bad_net_count net }
{
    let n = net.nets;
    (n < 2) | (48 < n)
}

// Row 6: k not 1, 2, 3, n or, for n up to 10, one from 4 to n - 1; or above n.
pub fn bad_class(net: Network, class: u64) -> bool
    ensures { result ≡ bad_class net class }
{
    let n = net.nets;
    let of_small_board = (n <= 10) & ((4 <= class) & (class < n));
    let named = (class == 1) | ((class == 2) | ((class == 3) | ((class == n) | of_small_board)));
    !named | (n < class)
}

// Neither 0 nor 1.
fn no_bit(x: u64) -> bool
    ensures { result ≡ no_bit x }
{
    !((x == 0) | (x == 1))
}

// Row 17: the soft level neither 0 nor 1.
pub fn bad_level(net: Network) -> bool
    ensures { result ≡ bad_level net }
{
    no_bit(net.level)
}

// Row 20: the gate neither OR, 0, nor AND, 1.
pub fn bad_gate(net: Network) -> bool
    ensures { result ≡ bad_gate net }
{
    no_bit(net.gate)
}

// Row 7: fewer than 1 vector or more than 64, by their number.
pub fn bad_count(count: u64) -> bool
    ensures { result ≡ bad_count count }
{
    (count < 1) | (64 < count)
}

// Rows 8 and 10: a bit at or above the width. No word has one at or above 64.
pub fn has_high_bit(width: u64, words: &[u64]) -> bool
    requires { width ≤ 64 }
    ensures { result ≡ has_high_bit width words.now }
{
    let last = words::sets::low_ones(width);
    for &word in words {
        if last < word {
            return true;
        }
    }
    false
}

// At most k drivers: the count of ones decides.
pub fn few_drivers(net: Network, class: u64, set: u64) -> bool
    requires { set < 2 ^ net.nets }
    ensures { result ≡ few_drivers net class set }
{
    words::sets::count_of_ones(set) <= class
}

// Row 9: not as many responses as vectors.
pub fn bad_response_count(vectors: usize, responses: usize) -> bool
    ensures { result ≡ bad_response_count vectors responses }
{
    responses != vectors
}

// Row 12: a lent list shorter than the result.
pub fn no_room(res: usize, room: usize) -> bool
    ensures { result ≡ no_room res room }
{
    room < res
}

impl Nets {
    // Row 21: m below n or above 64, a receiver that names no net, or a net that has none. `named` has the nets of the
    // receivers so far.
    pub fn bad_receivers(self, receivers: &[u64]) -> bool
        ensures { result ≡ bad_receivers self.network receivers.now }
    {
        let nets = self.network.nets;
        let count = receivers.len() as u64;
        if (count < nets) | (64 < count) {
            return true;
        }
        let mut named: u64 = 0;
        for &owner in receivers {
            if nets <= owner {
                return true;
            }
            named |= words::sets::bit_word(owner);
        }
        named != self.all_drivers()
    }

    // A reach with a bit at or above n, or of more than k drivers.
    fn has_wrong_reach(self, class: u64, state: &[u64]) -> bool
        ensures { result ≡ has_wrong_reach self.network class state.now }
    {
        let end = words::sets::bit_word(self.network.nets);
        for &reach in state {
            if end <= reach {
                return true;
            }
            if !few_drivers(self.network, class, reach) {
                return true;
            }
        }
        false
    }

    // Two reaches that meet and differ. Reaches that do not are equal or disjoint, so each is known by its lowest
    // driver: `taken` has the drivers of the reaches so far, `holders` at a driver the reach whose lowest it is.
    fn has_conflict(self, state: &[u64]) -> bool
        requires { (i : ℕ) → i < length state.now → at state.now i < 2 ^ self.network.nets }
        ensures { result ≡ has_conflict self.network state.now }
    {
        let mut holders = [0u64; 48];
        let mut taken: u64 = 0;
        for &reach in state {
            if reach & taken != 0 {
                let holder = holders[words::sets::lowest_net(reach) as usize];
                if holder != reach {
                    return true;
                }
            } else if reach != 0 {
                holders[words::sets::lowest_net(reach) as usize] = reach;
            }
            taken |= reach;
        }
        false
    }

    // Row 11: not a wiring state of this many receivers and this class.
    pub fn not_a_state(self, receivers: usize, class: u64, state: &[u64]) -> bool
        ensures { result ≡ not_a_state self.network receivers class state.now }
    {
        if state.len() != receivers {
            return true;
        }
        if self.has_wrong_reach(class, state) {
            return true;
        }
        self.has_conflict(state)
    }
}
