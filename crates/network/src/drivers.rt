// Driver sets and vectors by name, and active bits. Helpers between crates: a word has at most 64 bits, and a net that is
// named is one of the network's.
ghost use Rattle.std.specs.Prelude.{◌≡◌, ◌↔◌, true, ◌&&◌, ℕ, ◌<◌, ◌≤◌, ◌^◌, eqb};
ghost use Rattle.words.specs.Bits.{has};
ghost use Rattle.network.specs.Joint.{ActiveBits};
ghost use Rattle.network.specs.Reading.{all_drivers, all_but, walking_vector, extra_vector, needs_extra};

use crate::Network;
use crate::admitting::Nets;
use words::Ptv;

// Whether there is an extra vector: at a wired OR and soft level 1, and at a wired AND and soft level 0.
pub fn needs_extra(net: Network) -> bool
    ensures { result ≡ needs_extra net }
{
    if net.gate == 1 {
        return net.level != 1;
    }
    net.level == 1
}

// Which of a word's lowest bits are active: its ones, or at a wired AND its zeros. What the bits above are is left
// open, but for a word that has none. Turned twice, the lowest bits are what they were.
pub fn active_bits(net: Network, word: u64, lowest: u64) -> u64
    requires { lowest ≤ 64 }
    ensures { ActiveBits net lowest word result × (word < 2 ^ lowest → result < 2 ^ lowest) }
{
    if net.gate == 1 {
        return word ^ words::sets::low_ones(lowest);
    }
    word
}

impl Nets {
    // All n drivers.
    pub fn all_drivers(self) -> u64
        ensures { result ≡ all_drivers self.network }
    {
        words::sets::bit_word(self.network.nets) - 1
    }

    // All drivers but i.
    pub fn all_but(self, i: u64) -> u64
        requires { i < self.network.nets }
        ensures { result ≡ all_but self.network i }
    {
        self.all_drivers() - words::sets::bit_word(i)
    }

    // The walking vector of net i.
    pub fn walking_vector(self, i: u64) -> Ptv
        requires { i < self.network.nets }
        ensures { result.0 ≡ walking_vector self.network i }
    {
        if self.network.gate == 1 {
            return Ptv(self.all_but(i));
        }
        Ptv(words::sets::bit_word(i))
    }

    // The vector that tells a floating receiver from one that is driven.
    pub fn extra_vector(self) -> Ptv
        ensures { result.0 ≡ extra_vector self.network }
    {
        if self.network.gate == 1 {
            return Ptv(self.all_drivers());
        }
        Ptv(0)
    }

    // Whether a vector is the extra vector, and there is one.
    pub fn is_extra(self, vector: u64) -> bool
        ensures { result ≡ needs_extra self.network && eqb vector (extra_vector self.network) }
    {
        let needed = needs_extra(self.network);
        let extra = self.extra_vector();
        needed & (vector == extra.0)
    }

    // The driver that a walking vector names, as a set; the empty set for any other vector. The trailing zeros of the
    // active bits are the net.
    pub fn walked_driver(self, vector: u64) -> u64
        ensures { (result < 2 ^ self.network.nets) × ((i : ℕ) → i < self.network.nets
            → (has result i ≡ true) ↔ (vector ≡ walking_vector self.network i)) }
    {
        let active = active_bits(self.network, vector, self.network.nets);
        let i = words::sets::lowest_net(active);
        if self.network.nets <= i {
            return 0;
        }
        let walking = self.walking_vector(i);
        if vector != walking.0 {
            return 0;
        }
        words::sets::bit_word(i)
    }
}
