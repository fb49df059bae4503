// A network of nets, what its receivers read, and the calls that list own receivers and work out the response of a
// wiring state.

#![tactic(auto)]

ghost use Rattle.std.specs.Prelude.{◌≡◌, length};
ghost use Rattle.words.specs.Answers.{count_of, lent_after};
ghost use Rattle.network.specs.Reading.{network_of};
ghost use Rattle.network.specs.Respond.{response_answer};
ghost use Rattle.network.specs.Refusing.{answer_of};
ghost use Rattle.network.specs.OwnReceivers.{own_receivers_answer};

pub mod admitting;
pub mod drivers;
pub mod receivers;
pub mod refusal;
pub mod refusals;

use admitting::{admit_board_set, admit_nets};
use refusal::{Refusal, refuse_if};

// The nets of a network, n in document 01: each has one driver. The soft level is what a receiver reads that floats, 0
// or 1. The gate joins what several drivers drive: OR, 0, or AND, 1. A call that asks for the receivers takes a list of
// its own, with the net of each; a net has one or more.
#[derive(Clone, Copy, Debug, PartialEq, Eq)]
pub struct Network {
    pub nets: u64,
    pub level: u64,
    pub gate: u64,
}

impl Network {
    // The network of these nets at soft level 1 and gate OR.
    pub fn of(nets: u64) -> Network
        ensures { result ≡ network_of nets }
    {
        Network {
            nets,
            level: 1,
            gate: 0,
        }
    }
}

// The call *own receivers*: the list of receivers where each net has one, of its own number, into the front of `out`.
// Rows 5 and 12.
#[tactic(auto, unfolding(words::specs::Answers::by_tests, words::specs::Answers::count_of, words::specs::Answers::lent_after, crate::specs::OwnReceivers::own_receivers_answer))]
pub fn own_receivers(nets: u64, out: &mut [u64]) -> Result<u64, Refusal>
    ensures answer { answer_of result ≡ count_of (own_receivers_answer nets (length out.old)) }
    ensures list { out.new
        ≡ lent_after (own_receivers_answer nets (length out.old)) out.old }
{
    admit_nets(Network::of(nets))?;
    refuse_if(refusals::no_room(nets as usize, out.len()), Refusal::Room)?;
    receivers::fill_own(nets, out);
    Ok(nets)
}

// The call *response from a state*: one response word a vector into the front of `out`. `receivers` has the net of each
// receiver. Rows 5, 21, 6, 17, 20, 7, 8, 11, 12.
pub fn response_from_state(
    net: Network,
    receivers: &[u64],
    class: u64,
    vectors: &[u64],
    state: &[u64],
    out: &mut [u64],
) -> Result<u64, Refusal>
    ensures answer { answer_of result
        ≡ count_of (response_answer net receivers.now class vectors.now state.now
        (length out.old)) }
    ensures list { out.new
        ≡ lent_after (response_answer net receivers.now class vectors.now state.now
        (length out.old)) out.old }
{
    let board = admit_board_set(net, receivers, class, vectors)?;
    refuse_if(
        board.set.nets.not_a_state(receivers.len(), class, state),
        Refusal::State,
    )?;
    refuse_if(refusals::no_room(vectors.len(), out.len()), Refusal::Room)?;
    receivers::fill_response(net, vectors, state, out);
    Ok(vectors.len() as u64)
}
