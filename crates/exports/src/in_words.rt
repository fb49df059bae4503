// Results that C gets as words in a list of fixed length.
ghost use Rattle.std.specs.Prelude.{◌≡◌, ℕ, List};
ghost use Rattle.network.specs.Refusing.{answer_of};
ghost use Rattle.packing.specs.Packed.{verdict_words};
ghost use Rattle.exports.specs.Exported.{code, in_words, fixed_after};
ghost use Rattle.exports.specs.Exported.{returned_shorter_words, returned_job_words, returned_size_words};

use checker::Verdict;
use network::refusal::Refusal;
use reader::Job;
use shorter::Shortened;

// A result of so many words.
pub trait InWords<const N: usize>: Copy {
    ghost in_words: { Self → List ℕ };

    fn in_words(self) -> [u64; N]
        ensures { result ≡ in_words self };
}

// 0 0 0 for pass, or 1 and the pair.
impl InWords<3> for Verdict {
    ghost in_words = { verdict_words };

    #[tactic(auto, unfolding(packing::specs::Packed::verdict_words))]
    fn in_words(self) -> [u64; 3] {
        match self {
            Verdict::Pass => [0, 0, 0],
            Verdict::Pair(a, b) => [1, a, b],
        }
    }
}

// How many vectors are kept, the checks made, the floor.
impl InWords<3> for Shortened {
    ghost in_words = { returned_shorter_words };

    fn in_words(self) -> [u64; 3] {
        [self.kept, self.checks, self.floor]
    }
}

// Nets, level, gate, class, kind, number of vectors, number of responses.
impl InWords<7> for Job {
    ghost in_words = { returned_job_words };

    fn in_words(self) -> [u64; 7] {
        [
            self.network.nets,
            self.network.level,
            self.network.gate,
            self.class,
            self.kind,
            self.vectors as u64,
            self.responses as u64,
        ]
    }
}

// How many bytes were written.
impl InWords<1> for u64 {
    ghost in_words = { returned_size_words };

    fn in_words(self) -> [u64; 1] {
        [self]
    }
}

// What a call returns, and its result into a lent list of fixed length, which a refusal leaves as it was.
#[tactic(auto, unfolding(crate::specs::Exported::code, crate::specs::Exported::in_words, crate::specs::Exported::fixed_after,))]
pub fn code_in_words<T: InWords<N>, const N: usize>(
    answered: Result<T, Refusal>,
    lent: &mut [u64; N],
) -> u64
    ensures code { result ≡ code (answer_of answered) }
    ensures words { lent.new ≡ fixed_after (in_words T.in_words (answer_of answered)) lent.old }
{
    match answered {
        Ok(full) => {
            *lent = full.in_words();
            0
        }
        Err(refusal) => u64::from(refusal),
    }
}
