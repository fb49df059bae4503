// The report on a job file, as text.

#![tactic(auto)]

ghost use Rattle.std.specs.Prelude.{◌≡◌, ◌++◌, ◌+◌, ◌≤◌, length, replicate};
ghost use Rattle.arrayvec.specs.ArrayVec.{array_vec_len};
ghost use Rattle.words.specs.Answers.{full, lent_after};
ghost use Rattle.network.specs.OwnReceivers.{own_receivers};
ghost use Rattle.diagnosis.specs.Diagnosis.{diagnosis_answer};
ghost use Rattle.listing.specs.Report.{diagnosis_text, content_text, report};

mod lines;

use checker::Verdict;
use decimal::Page;
use network::admitting::{Board, Nets, TestSet};

// A text: its bytes from the first on, this many, and zeros after them. 4,142 bytes hold the longest report: 110 for
// line one, and 84 for each of 48 nets. Arrays of a fixed length, as the contract of `report` has them.
#[derive(Clone, Copy, Debug, PartialEq, Eq)]
pub struct Text {
    pub count: usize,
    pub bytes: [u8; 4142],
}

// What the diagnosis says of nets with one receiver each. A helper: the text has room.
fn put_diagnosis(text: &mut Page, set: TestSet, responses: &[u64])
    requires { array_vec_len text.old + length (diagnosis_text set.nets.network
        (diagnosis_answer set.nets.network (own_receivers set.nets.network.nets) set.class set.vectors.now
        responses.now 48)) ≤ 4142 }
    ensures { text.new.items ≡ text.old.items ++ diagnosis_text set.entry.nets.network
        (diagnosis_answer set.entry.nets.network (own_receivers set.entry.nets.network.nets) set.entry.class
        set.entry.vectors.now responses.now 48) }
{
    let nets = set.nets;
    let n = nets.network.nets as usize;
    let mut own = [0u64; 48];
    network::receivers::fill_own(nets.network.nets, &mut own);
    let receivers = &own[..n];
    let mut state = [0u64; 48];
    let answer = diagnosis::diagnose(
        nets.network,
        receivers,
        set.class,
        set.vectors,
        responses,
        &mut state,
    );
    match answer {
        Err(refusal) => lines::put_refused(text, u64::from(refusal)),
        Ok(_) => lines::put_nets(text, Board { nets, receivers }, &state[..n]),
    }
}

// The report on the content of a job file. A helper: the text has room.
fn put_content(text: &mut Page, set: TestSet, responses: &[u64])
    requires { array_vec_len text.old
        + length (content_text set.nets.network set.class set.vectors.now responses.now) ≤ 4142 }
    ensures { text.new.items ≡ text.old.items
        ++ content_text set.entry.nets.network set.entry.class set.entry.vectors.now responses.now }
{
    let verdict = Verdict::of(set);
    let count = set.vectors.len() as u64;
    lines::put_verdict(text, set.nets.network, set.class, count, verdict);
    if !responses.is_empty() {
        put_diagnosis(text, set, responses);
    }
}

// The report on a file.
pub fn report_text(file: &[u8]) -> Page
    ensures { result.items ≡ report file.now }
{
    let mut vectors = [0u64; 64];
    let mut responses = [0u64; 64];
    let mut text = Page::new();
    match reader::read_job(file, &mut vectors, &mut responses) {
        Err(refusal) => lines::put_refused(&mut text, u64::from(refusal)),
        Ok(job) => {
            let set = TestSet {
                nets: Nets {
                    network: job.network,
                },
                class: job.class,
                vectors: &vectors[..job.vectors],
            };
            put_content(&mut text, set, &responses[..job.responses]);
        }
    }
    text
}

// The same in an array, with zeros after it.
pub fn report(file: &[u8]) -> Text
    ensures count { result.count ≡ length (report file.now) }
    ensures bytes { result.bytes ≡ lent_after (full (report file.now)) (replicate 4142 0) }
{
    let text = report_text(file);
    let mut bytes = [0u8; 4142];
    words::lists::copy_words(text.as_slice(), &mut bytes);
    Text {
        count: text.len(),
        bytes,
    }
}
