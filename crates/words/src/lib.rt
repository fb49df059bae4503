// Words of bits: parallel words across the nets, sequential words along the vectors.

#![tactic(auto)]

ghost use Rattle.std.specs.Prelude.{◌≡◌, ℕ};

pub mod lists;
pub mod ranks;
pub mod sets;
pub mod turning;

// A word of bits of one of the two kinds. Words of either kind, turned, are words of the other.
pub trait Word: Copy {
    type Turned;

    ghost bits_of: { Self → ℕ };

    fn of_bits(bits: u64) -> Self
        ensures { bits_of result ≡ bits };

    fn bits(self) -> u64
        ensures { result ≡ bits_of self };
}

// A parallel word, one bit a net: the source's PTV (parallel test vector).
#[derive(Clone, Copy, Debug, PartialEq, Eq)]
pub struct Ptv(pub u64);

impl Word for Ptv {
    type Turned = Stv;

    ghost bits_of = { λ w. w.0 };

    fn of_bits(bits: u64) -> Self {
        Ptv(bits)
    }

    fn bits(self) -> u64 {
        self.0
    }
}

// A sequential word, one bit a vector: the source's STV (sequential test vector), and SRV for a response.
#[derive(Clone, Copy, Debug, PartialEq, Eq)]
pub struct Stv(pub u64);

impl Word for Stv {
    type Turned = Ptv;

    ghost bits_of = { λ w. w.0 };

    fn of_bits(bits: u64) -> Self {
        Stv(bits)
    }

    fn bits(self) -> u64 {
        self.0
    }
}
