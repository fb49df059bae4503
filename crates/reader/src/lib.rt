// Reading job files.

#![tactic(auto)]

ghost use Rattle.std.specs.Prelude.{◌≡◌, length};
ghost use Rattle.words.specs.Answers.{lent_after};
ghost use Rattle.network.specs.Refusing.{answer_of};
ghost use Rattle.reader.specs.Reader.{counted, read_answer, vectors_read, responses_read};

mod layout;
mod reading;
mod stored;

use network::Network;
use network::refusal::{Refusal, refuse_if};

// What the reader answers besides the words: the network, the class, the kind of the vectors' body, and how many
// vectors and responses were read.
#[derive(Clone, Copy, Debug, PartialEq, Eq)]
pub struct Job {
    pub network: Network,
    pub class: u64,
    pub kind: u64,
    pub vectors: usize,
    pub responses: usize,
}

// The call *read a job file*: the vectors into the front of `vectors`, the responses into the front of `responses`.
// Rows 1, 2, 3, 5, 6, 17, 20, 7, 8, 9, 10, 12.
pub fn read_job(file: &[u8], vectors: &mut [u64], responses: &mut [u64]) -> Result<Job, Refusal>
    ensures answer { answer_of result
        ≡ counted (read_answer file.now (length vectors.old)
        (length responses.old)) }
    ensures vectors { vectors.new
        ≡ lent_after (vectors_read
        (read_answer file.now (length vectors.old) (length responses.old)))
        vectors.old }
    ensures responses { responses.new
        ≡ lent_after (responses_read
        (read_answer file.now (length vectors.old) (length responses.old)))
        responses.old }
{
    let job = layout::admit_file(file)?;
    job.admit_job()?;
    let sent = job.vectors();
    let came = job.response_words();
    refuse_if(
        reading::no_room(sent.count, vectors.len(), came.len(), responses.len()),
        Refusal::Room,
    )?;
    sent.put(vectors);
    stored::put_words(came, responses);
    Ok(Job {
        network: job.network(),
        class: job.class(),
        kind: u64::from(u8::from(sent.kind)),
        vectors: sent.count,
        responses: came.len(),
    })
}
