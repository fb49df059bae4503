// The kind of the vectors' body: the vectors themselves, or net by net their sequential words.
ghost use Rattle.std.specs.Prelude.{◌≡◌};
ghost use Rattle.jobfile.specs.BodyKind.{number_of_kind, KindRead};

use network::refusal::Refusal;

// Such a kind.
#[derive(Clone, Copy, Debug, PartialEq, Eq)]
pub enum BodyKind {
    Vectors,
    NetByNet,
}

impl TryFrom<u64> for BodyKind {
    type Error = Refusal;

    ghost try_from_gives = { KindRead };

    // Row 2: a kind that is neither 2 nor 4.
    fn try_from(kind: u64) -> Result<BodyKind, Refusal> {
        match kind {
            2 => Ok(BodyKind::Vectors),
            4 => Ok(BodyKind::NetByNet),
            _ => Err(Refusal::JobLayout),
        }
    }
}

impl From<BodyKind> for u8 {
    ghost from_gives = { λ kind number. number ≡ number_of_kind kind };

    fn from(kind: BodyKind) -> u8 {
        match kind {
            BodyKind::Vectors => 2,
            BodyKind::NetByNet => 4,
        }
    }
}
