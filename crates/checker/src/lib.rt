// The checker: whether a test set tells the wiring states of a class apart.

#![tactic(auto)]

ghost use Rattle.std.specs.Prelude.{◌≡◌, true, false, IfOk, IfErr};
ghost use Rattle.network.specs.Refusing.{answer_of};
ghost use Rattle.network.specs.declared.refusal.Refusal.TheVariants.{NotPassed};
ghost use Rattle.checker.specs.Rule.{verdict};
ghost use Rattle.checker.specs.Check.{check_answer};
ghost use Rattle.checker.specs.Passed.{passes};

pub mod bounded;
pub mod plain;
pub mod search;
mod unbounded;

use network::Network;
use network::admitting::{TestSet, admit_set};
use network::refusal::{Refusal, refuse_if};
use search::Search;

// What the checker's rule gives: pass, or the pair of driver sets that it shows. An enum of its own: a `None` that means
// pass would be no plainer.
#[derive(Clone, Copy, Debug, PartialEq, Eq)]
pub enum Verdict {
    Pass,
    Pair(u64, u64),
}

impl Verdict {
    // The rule on a test set.
    #[tactic(auto, unfolding(crate::specs::Rule::verdict))]
    pub fn of(set: TestSet) -> Verdict
        ensures { result ≡ verdict set.entry.nets.network set.entry.class set.entry.vectors.now }
    {
        let net = set.nets.network;
        if set.class == net.nets {
            return unbounded::full_verdict(set.nets, set.vectors);
        }
        match Search::of(set) {
            Some(search) => bounded::bounded_verdict(search),
            None => plain::plain_verdict(net, set.class, set.vectors),
        }
    }
}

// A test set that its rows admit and the rule passes.
#[derive(Clone, Copy)]
pub struct PassedSet<'a> {
    pub set: TestSet<'a>,
    ghost passed: { passes set.nets.network set.class set.vectors.now ≡ true },
}

// Row 13: a test set that the rule passes, or the refusal.
pub fn passed<'a>(set: TestSet<'a>) -> Result<PassedSet<'a>, Refusal>
    ensures passed { IfOk result (λ passed. (passed.set.nets.network ≡ set.entry.nets.network)
        × (passed.set.class ≡ set.entry.class) × (passed.set.vectors.now ≡ set.entry.vectors.now)
        × (passes set.entry.nets.network set.entry.class set.entry.vectors.now ≡ true)) }
    ensures refused { IfErr result (λ refusal. (refusal ≡ NotPassed)
        × (passes set.entry.nets.network set.entry.class set.entry.vectors.now ≡ false)) }
{
    refuse_if(Verdict::of(set) != Verdict::Pass, Refusal::NotPassed)?;
    Ok(PassedSet { set })
}

// The call *check*: whether the vectors tell the states of the class apart. Rows 5, 6, 17, 20, 7, 8.
#[tactic(auto, using(crate::proofs::Checking::check_refused, crate::proofs::Checking::check_full))]
pub fn check(net: Network, class: u64, vectors: &[u64]) -> Result<Verdict, Refusal>
    ensures { answer_of result ≡ check_answer net class vectors.now }
{
    let set = admit_set(net, class, vectors)?;
    Ok(Verdict::of(set))
}
