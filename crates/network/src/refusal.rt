// The rows of the table of refusals, by what each says.
ghost use Rattle.std.specs.Prelude.{◌≡◌, true, false, OnOk, IfErr};
ghost use Rattle.network.specs.Refusing.{row_number};

// Why a call refuses. Each has the number of its row in the table.
#[derive(Clone, Copy, Debug, PartialEq, Eq)]
pub enum Refusal {
    JobMark,
    JobLayout,
    JobBodies,
    Record,
    NetCount,
    Class,
    VectorCount,
    VectorBits,
    ResponseCount,
    ResponseBits,
    State,
    Room,
    NotPassed,
    NoStateFits,
    Level,
    Chain,
    Tdo,
    Gate,
    Receivers,
}

impl From<Refusal> for u64 {
    ghost from_gives = { λ refusal number. number ≡ row_number refusal };

    fn from(refusal: Refusal) -> u64 {
        match refusal {
            Refusal::JobMark => 1,
            Refusal::JobLayout => 2,
            Refusal::JobBodies => 3,
            Refusal::Record => 4,
            Refusal::NetCount => 5,
            Refusal::Class => 6,
            Refusal::VectorCount => 7,
            Refusal::VectorBits => 8,
            Refusal::ResponseCount => 9,
            Refusal::ResponseBits => 10,
            Refusal::State => 11,
            Refusal::Room => 12,
            Refusal::NotPassed => 13,
            Refusal::NoStateFits => 14,
            Refusal::Level => 17,
            Refusal::Chain => 18,
            Refusal::Tdo => 19,
            Refusal::Gate => 20,
            Refusal::Receivers => 21,
        }
    }
}

// The refusal of a row that holds.
pub fn refuse_if(holds: bool, row: Refusal) -> Result<(), Refusal>
    ensures passed { OnOk result (holds ≡ false) }
    ensures refused { IfErr result (λ refusal. (refusal ≡ row) × (holds ≡ true)) }
{
    if holds { Err(row) } else { Ok(()) }
}
