// Writing job files.

#![tactic(auto)]

ghost use Rattle.std.specs.Prelude.{◌≡◌, length};
ghost use Rattle.words.specs.Answers.{count_of, lent_after};
ghost use Rattle.network.specs.Refusing.{answer_of};
ghost use Rattle.writer.specs.Writer.{write_answer};

mod content;
mod putting;

use content::Content;
use jobfile::kind::BodyKind;
use network::Network;
use network::admitting::admit_set;
use network::refusal::{Refusal, refuse_if};

// The call *write a job file*: its bytes into the front of `file`, the vectors' body of this kind, 2 or 4, and how many
// they are. Rows 2, 5, 6, 17, 20, 7, 8, 9, 10, 12; 9 and 10 only if there are responses.
pub fn write_job(
    kind: u64,
    net: Network,
    class: u64,
    vectors: &[u64],
    responses: &[u64],
    file: &mut [u8],
) -> Result<u64, Refusal>
    ensures answer { answer_of result
        ≡ count_of (write_answer kind net class vectors.now responses.now
        (length file.old)) }
    ensures list { file.new
        ≡ lent_after (write_answer kind net class vectors.now responses.now
        (length file.old)) file.old }
{
    let kind = BodyKind::try_from(kind)?;
    let set = admit_set(net, class, vectors)?;
    let given = 0 < responses.len();
    refuse_if(
        given & network::refusals::bad_response_count(vectors.len(), responses.len()),
        Refusal::ResponseCount,
    )?;
    refuse_if(
        given & network::refusals::has_high_bit(net.nets, responses),
        Refusal::ResponseBits,
    )?;
    let content = Content {
        kind,
        set,
        responses,
    };
    let size = content.size();
    refuse_if(network::refusals::no_room(size, file.len()), Refusal::Room)?;
    content.put(file);
    Ok(size as u64)
}
