// What receivers read. Helpers between crates: they require that reaches are sets of the network's drivers, and where
// words are put together that these have at most 64 bits.
ghost use Rattle.std.specs.Prelude.{◌≡◌, ℕ, ◌<◌, ◌≤◌, ◌^◌, length};
ghost use Rattle.words.specs.Bits.{at};
ghost use Rattle.words.specs.Answers.{lent_after, full};
ghost use Rattle.network.specs.Joint.{ActiveBits, no_drivers, with_driver};
ghost use Rattle.network.specs.Reading.{active, needs_extra, meets, reads, sequential_response, response_word, response};
ghost use Rattle.network.specs.OwnReceivers.{own_receivers};

use crate::Network;
use words::{Ptv, Stv};

// Whether some driver is in both sets.
fn meets(net: Network, a: u64, b: u64) -> bool
    requires { a < 2 ^ net.nets }
    ensures { result ≡ meets net a b }
{
    a & b != 0
}

// Whether a receiver of this reach reads the active value, by the active bits of a vector: a driver with such a bit is
// in its reach; or it floats, and the soft level is that value, as it is where there is an extra vector. There is no
// branch, since this is the innermost loop of all that compares responses.
fn reads_active(net: Network, reach: u64, bits: u64, extra: bool) -> bool
    requires { (reach < 2 ^ net.nets) × (extra ≡ needs_extra net) }
    ensures { (vector : ℕ) → ActiveBits net 64 vector bits → result ≡ active net (reads net reach vector) }
{
    let some = meets(net, reach, bits);
    ((reach == 0) & extra) | some
}

// Bit t is what a receiver of this reach reads on vector t: the active readings first, then turned to what is read.
pub fn sequential_response(net: Network, vectors: &[u64], reach: u64) -> Stv
    requires { (length vectors.now ≤ 64) × (reach < 2 ^ net.nets) }
    ensures { result.0 ≡ sequential_response net vectors.now reach }
{
    let extra = crate::drivers::needs_extra(net);
    let mut w: u64 = 0;
    for (t, &vector) in vectors.iter().enumerate() {
        let bits = crate::drivers::active_bits(net, vector, 64);
        if reads_active(net, reach, bits, extra) {
            w |= 1u64 << t;
        }
    }
    Stv(crate::drivers::active_bits(net, w, vectors.len() as u64))
}

// What no drivers drive together along the vectors.
pub fn no_drivers(net: Network, vectors: &[u64]) -> Stv
    requires { length vectors.now ≤ 64 }
    ensures { result.0 ≡ no_drivers net vectors.now }
{
    if net.gate == 1 {
        return Stv(words::sets::low_ones(vectors.len() as u64));
    }
    Stv(0)
}

// What some drivers drive together along the vectors, with one driver more.
pub fn with_driver(net: Network, word: Stv, column: Stv) -> Stv
    ensures { result.0 ≡ with_driver net word.0 column.0 }
{
    if net.gate == 1 {
        return Stv(word.0 & column.0);
    }
    Stv(word.0 | column.0)
}

// Bit i is what receiver i reads on the vector, in the same way.
pub fn response_word(net: Network, state: &[u64], vector: Ptv) -> Ptv
    requires { (length state.now ≤ 64) × ((i : ℕ) → i < length state.now → at state.now i < 2 ^ net.nets) }
    ensures { result.0 ≡ response_word net state.now vector.0 }
{
    let extra = crate::drivers::needs_extra(net);
    let bits = crate::drivers::active_bits(net, vector.0, 64);
    let mut w: u64 = 0;
    for (i, &reach) in state.iter().enumerate() {
        if reads_active(net, reach, bits, extra) {
            w |= 1u64 << i;
        }
    }
    Ptv(crate::drivers::active_bits(net, w, state.len() as u64))
}

// The number of each net into the front of `out`; the rest of `out` is kept.
pub fn fill_own(nets: u64, out: &mut [u64])
    requires { nets ≤ length out.old }
    ensures { out.new ≡ lent_after (full (own_receivers nets)) out.old }
{
    for i in 0..nets {
        out[i as usize] = i;
    }
}

// One response word a vector into the front of `out`; the rest of `out` is kept.
pub fn fill_response(net: Network, vectors: &[u64], state: &[u64], out: &mut [u64])
    requires { (length state.now ≤ 64) × ((i : ℕ) → i < length state.now → at state.now i < 2 ^ net.nets)
        × (length vectors.now ≤ length out.old) }
    ensures { out.new ≡ lent_after (full (response net state.now vectors.now)) out.old }
{
    for (written, &vector) in vectors.iter().enumerate() {
        let word = response_word(net, state, Ptv(vector));
        out[written] = word.0;
    }
}
