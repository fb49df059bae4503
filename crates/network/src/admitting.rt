// What the rows with which calls begin admit, as types: each place that makes a value of one proves that they do.
ghost use Rattle.std.specs.Prelude.{◌≡◌, ◌≤◌, true, false, IfOk, IfErr, length};
ghost use Rattle.words.specs.Answers.{NoneHolds};
ghost use Rattle.network.specs.Rows.{bad_net_count, network_admission, set_admission, board_admission};
ghost use Rattle.network.specs.Rows.{board_only_admission, SetRows, AdmittedBoard, Row21};
ghost use Rattle.network.specs.Refusing.{admission_of};
ghost use Rattle.network.specs.declared.refusal.Refusal.TheVariants.{NetCount};

use crate::refusal::{Refusal, refuse_if};
use crate::{Network, refusals};

// A network that has no more nets than row 5 admits.
#[derive(Clone, Copy)]
pub struct Nets {
    pub network: Network,
    ghost few: { network.nets ≤ 48 },
}

// A network and the net of each of its receivers, which rows 5, 21, 17 and 20 admit.
#[derive(Clone, Copy)]
pub struct Board<'a> {
    pub nets: Nets,
    pub receivers: &'a [u64],
    ghost two: { 2 ≤ nets.network.nets },
    ghost admitted: { AdmittedBoard nets.network receivers.now },
}

// A test set of a network and a class that rows 5, 6, 17, 20, 7 and 8 admit.
#[derive(Clone, Copy)]
pub struct TestSet<'a> {
    pub nets: Nets,
    pub class: u64,
    pub vectors: &'a [u64],
    ghost admitted: { NoneHolds (SetRows nets.network class vectors.now) },
}

// Such a test set for a board, and the net of each of its receivers, which row 21 admits.
#[derive(Clone, Copy)]
pub struct BoardSet<'a> {
    pub receivers: &'a [u64],
    pub set: TestSet<'a>,
    ghost owned: { ¬ (Row21 set.nets.network receivers.now) },
}

// Row 5.
pub fn admit_nets(net: Network) -> Result<Nets, Refusal>
    ensures admitted { IfOk result (λ nets. (nets.network ≡ net) × (bad_net_count net ≡ false)) }
    ensures refused { IfErr result (λ refusal. (refusal ≡ NetCount) × (bad_net_count net ≡ true)) }
{
    refuse_if(refusals::bad_net_count(net), Refusal::NetCount)?;
    Ok(Nets { network: net })
}

// Rows 5, 6, 17 and 20, which stand before those of the vectors.
#[tactic(auto, unfolding(words::specs::Answers::by_tests))]
pub fn admit_network(net: Network, class: u64) -> Result<Nets, Refusal>
    ensures rows { admission_of result ≡ network_admission net class }
    ensures admitted { IfOk result (λ nets. nets.network ≡ net) }
{
    let nets = admit_nets(net)?;
    refuse_if(refusals::bad_class(net, class), Refusal::Class)?;
    refuse_if(refusals::bad_level(net), Refusal::Level)?;
    refuse_if(refusals::bad_gate(net), Refusal::Gate)?;
    Ok(nets)
}

// Rows 5, 6, 17, 20, 7 and 8, with which a call on a test set and a class begins that takes no receivers.
pub fn admit_set<'a>(net: Network, class: u64, vectors: &'a [u64]) -> Result<TestSet<'a>, Refusal>
    ensures rows { admission_of result ≡ set_admission net class vectors.now }
    ensures admitted { IfOk result
        (λ set. (set.nets.network ≡ net) × (set.class ≡ class) × (set.vectors.now ≡ vectors.now)) }
{
    let nets = admit_network(net, class)?;
    refuse_if(
        refusals::bad_count(vectors.len() as u64),
        Refusal::VectorCount,
    )?;
    refuse_if(
        refusals::has_high_bit(net.nets, vectors),
        Refusal::VectorBits,
    )?;
    Ok(TestSet {
        nets,
        class,
        vectors,
    })
}

// The same with row 21 after 5, for a call that takes receivers.
pub fn admit_board_set<'a>(
    net: Network,
    receivers: &'a [u64],
    class: u64,
    vectors: &'a [u64],
) -> Result<BoardSet<'a>, Refusal>
    ensures rows { admission_of result ≡ board_admission net receivers.now class vectors.now }
    ensures admitted { IfOk result
        (λ board. (board.receivers.now ≡ receivers.now) × (board.set.nets.network ≡ net)
        × (board.set.class ≡ class) × (board.set.vectors.now ≡ vectors.now)) }
{
    let nets = admit_nets(net)?;
    refuse_if(nets.bad_receivers(receivers), Refusal::Receivers)?;
    let set = admit_set(net, class, vectors)?;
    Ok(BoardSet { receivers, set })
}

// Rows 5, 21, 17 and 20, with which a call on a board and no class begins.
#[tactic(auto, unfolding(words::specs::Answers::by_tests))]
pub fn admit_board<'a>(net: Network, receivers: &'a [u64]) -> Result<Board<'a>, Refusal>
    ensures rows { admission_of result ≡ board_only_admission net receivers.now }
    ensures admitted { IfOk result
        (λ board. (board.nets.network ≡ net) × (board.receivers.now ≡ receivers.now)) }
{
    let nets = admit_nets(net)?;
    refuse_if(nets.bad_receivers(receivers), Refusal::Receivers)?;
    refuse_if(refusals::bad_level(net), Refusal::Level)?;
    refuse_if(refusals::bad_gate(net), Refusal::Gate)?;
    Ok(Board { nets, receivers })
}
