// The calls for a record that the caller holds by value: the steps that the calls on a lent record stand above.
ghost use Rattle.std.specs.Prelude.{◌≡◌, length};
ghost use Rattle.words.specs.Answers.{lent_after};
ghost use Rattle.session.specs.Calls.{begin_answer, begun, first_answer, first_answered, second_answered};
ghost use Rattle.session.specs.Calls.{after_step, code_of};

use crate::Session;
use network::Network;
use network::refusal::Refusal;

// The call *begin*.
pub fn begin(
    session: Session,
    net: Network,
    receivers: &[u64],
    list: &mut [u64],
) -> Result<Session, Refusal>
    ensures session { after_step result session
        ≡ (begun session net receivers.now (length list.old)).session }
    ensures code { code_of result ≡ (begun session net receivers.now (length list.old)).code }
    ensures list { list.new
        ≡ lent_after (begin_answer net receivers.now (length list.old)) list.old }
{
    crate::begin_step(session, net, receivers, list)
}

// The call *first answers*.
pub fn first_answers(
    session: Session,
    answers: &[u64],
    list: &mut [u64],
) -> Result<Session, Refusal>
    ensures session { after_step result session
        ≡ (first_answered session answers.now (length list.old)).session }
    ensures code { code_of result ≡ (first_answered session answers.now (length list.old)).code }
    ensures list { list.new
        ≡ lent_after (first_answer session answers.now (length list.old)) list.old }
{
    crate::first_step(session, answers, list)
}

// The call *second answers*.
pub fn second_answers(session: Session, answers: &[u64]) -> Result<Session, Refusal>
    ensures session { after_step result session ≡ (second_answered session answers.now).session }
    ensures code { code_of result ≡ (second_answered session answers.now).code }
{
    crate::second_step(session, answers)
}
