// Shorter sets: vectors dropped from a passed set within a budget of checks, as long as it stays passed.

#![tactic(auto)]

ghost use Rattle.std.specs.Prelude.{◌≡◌, ◌≤◌, IfOk, length};
ghost use Rattle.words.specs.Answers.{lent_after};
ghost use Rattle.network.specs.Refusing.{answer_of, admission_of};
ghost use Rattle.shorter.specs.Shorten.{small_class_admission, shorten_answer, kept_of, counted};

mod dropping;
mod floors;

use network::Network;
use network::admitting::{TestSet, admit_nets, admit_set};
use network::refusal::{Refusal, refuse_if};

// What the call *shorten* answers besides the vectors: how many are kept, the checks made, and the floor.
#[derive(Clone, Copy, Debug, PartialEq, Eq)]
pub struct Shortened {
    pub kept: u64,
    pub checks: u64,
    pub floor: u64,
}

// Rows 5, 6, 17, 20, 7 and 8, with row 6 also for k above 3.
fn admit_small_class<'a>(
    net: Network,
    class: u64,
    vectors: &'a [u64],
) -> Result<TestSet<'a>, Refusal>
    ensures rows { admission_of result ≡ small_class_admission net class vectors.now }
    ensures admitted { IfOk result
        (λ set. (set.nets.network ≡ net) × (set.class ≡ class) × (set.vectors.now ≡ vectors.now) × (class ≤ 3)) }
{
    admit_nets(net)?;
    refuse_if(3 < class, Refusal::Class)?;
    let set = admit_set(net, class, vectors)?;
    Ok(set)
}

// The call *shorten*: the vectors kept, in the order given, into the front of `out`; `allowed` checks may be made. Rows
// 5, 6 (also for k above 3), 17, 20, 7, 8, 12 (room for all vectors given), 13.
pub fn shorten(
    net: Network,
    class: u64,
    vectors: &[u64],
    allowed: u64,
    out: &mut [u64],
) -> Result<Shortened, Refusal>
    ensures answer { answer_of result
        ≡ counted (shorten_answer net class vectors.now allowed (length out.old)) }
    ensures list { out.new
        ≡ lent_after (kept_of (shorten_answer net class vectors.now allowed (length out.old)))
        out.old }
{
    let set = admit_small_class(net, class, vectors)?;
    refuse_if(
        network::refusals::no_room(vectors.len(), out.len()),
        Refusal::Room,
    )?;
    let passed = checker::passed(set)?;
    let left = dropping::drop_vectors(passed, allowed);
    words::lists::copy_words(left.vectors.as_slice(), out);
    Ok(Shortened {
        kept: left.vectors.len() as u64,
        checks: left.checks,
        floor: floors::floor(set.nets, class),
    })
}
