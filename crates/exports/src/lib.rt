// The calls for C and Rust, over numbers and lists alone: `exports_c` gives them to C. Each but `fontarelga_to_drive`,
// which returns a count, returns 0 if it is accepted, or the number of the refusal. What else it answers goes into lent
// lists; after a refusal they are as they were.

#![tactic(auto)]

ghost use Rattle.std.specs.Prelude.{◌≡◌, length};
ghost use Rattle.words.specs.Answers.{lent_after};
ghost use Rattle.network.specs.Reading.{network_with};
ghost use Rattle.network.specs.Respond.{response_answer};
ghost use Rattle.network.specs.Refusing.{answer_of};
ghost use Rattle.network.specs.OwnReceivers.{own_receivers_answer};
ghost use Rattle.turning.specs.Turn.{turn_answer, turn_back_answer};
ghost use Rattle.scan_chain.specs.Calls.{write_answer as clocks_written, read_answer as clocks_read};
ghost use Rattle.checker.specs.Check.{check_answer};
ghost use Rattle.diagnosis.specs.Diagnosis.{diagnosis_answer};
ghost use Rattle.shorter.specs.Shorten.{shorten_answer, kept_of};
ghost use Rattle.session.specs.Calls.{begin_answer, first_answer, second_answer};
ghost use Rattle.reader.specs.Reader.{read_answer, vectors_read, responses_read};
ghost use Rattle.writer.specs.Writer.{write_answer};
ghost use Rattle.packing.specs.Packed.{session_of};
ghost use Rattle.packing.specs.Packed.{verdict_words, shorter_words, finding_words, job_words, size_words};
ghost use Rattle.exports.specs.Exported.{code, in_words, fixed_after, findings_exported, session_begun};
ghost use Rattle.exports.specs.Exported.{session_first, session_second, drive_count};

use findings::Finding;
use in_words::code_in_words;
use network::Network;
use network::refusal::Refusal;

pub mod in_words;

// What a call returns: 0 if it was accepted, or the number of its refusal.
fn code_of<T: Copy>(answered: Result<T, Refusal>) -> u64
    ensures { result ≡ code (answer_of answered) }
{
    match answered {
        Ok(_) => 0,
        Err(refusal) => u64::from(refusal),
    }
}

// The call *check*. The verdict's 3 words: 0 0 0 for pass, or 1 and the pair. Rows 5, 6, 17, 20, 7, 8.
pub fn fontarelga_check(
    nets: u64,
    level: u64,
    gate: u64,
    class: u64,
    vectors: &[u64],
    verdict: &mut [u64; 3],
) -> u64
    ensures answer { result ≡ code (check_answer (network_with nets level gate) class vectors.now) }
    ensures verdict { verdict.new
        ≡ fixed_after (in_words verdict_words (check_answer (network_with nets level gate) class vectors.now))
        verdict.old }
{
    let net = Network { nets, level, gate };
    code_in_words(checker::check(net, class, vectors), verdict)
}

// The call *shorten*: the vectors kept of a passed set into the front of `kept`, with at most `allowed` checks. The 3
// words of `shortened`: how many are kept, the checks made, the floor. Rows 5, 6 (also for k above 3), 17, 20, 7, 8, 12
// (room for all vectors given), 13.
pub fn fontarelga_shorten(
    nets: u64,
    level: u64,
    gate: u64,
    class: u64,
    vectors: &[u64],
    allowed: u64,
    kept: &mut [u64],
    shortened: &mut [u64; 3],
) -> u64
    ensures answer { result
        ≡ code (shorten_answer (network_with nets level gate) class vectors.now allowed
        (length kept.old)) }
    ensures kept { kept.new
        ≡ lent_after (kept_of (shorten_answer (network_with nets level gate) class vectors.now allowed
        (length kept.old))) kept.old }
    ensures shortened { shortened.new
        ≡ fixed_after (in_words shorter_words (shorten_answer (network_with nets level gate) class
        vectors.now allowed (length kept.old))) shortened.old }
{
    let net = Network { nets, level, gate };
    code_in_words(
        shorter::shorten(net, class, vectors, allowed, kept),
        shortened,
    )
}

// The call *own receivers*: the list of receivers where each net has one, of its own number, into the front of
// `receivers`. Rows 5 and 12.
pub fn fontarelga_own_receivers(nets: u64, receivers: &mut [u64]) -> u64
    ensures answer { result ≡ code (own_receivers_answer nets (length receivers.old)) }
    ensures receivers { receivers.new
        ≡ lent_after (own_receivers_answer nets (length receivers.old)) receivers.old }
{
    code_of(network::own_receivers(nets, receivers))
}

// The call *response from a state*: one response word a vector into the front of `response`. Here and below `receivers`
// has the net of each receiver. Rows 5, 21, 6, 17, 20, 7, 8, 11, 12.
pub fn fontarelga_respond(
    nets: u64,
    level: u64,
    gate: u64,
    receivers: &[u64],
    class: u64,
    vectors: &[u64],
    state: &[u64],
    response: &mut [u64],
) -> u64
    ensures answer { result
        ≡ code (response_answer (network_with nets level gate) receivers.now class
        vectors.now state.now (length response.old)) }
    ensures response { response.new
        ≡ lent_after (response_answer (network_with nets level gate) receivers.now class
        vectors.now state.now (length response.old)) response.old }
{
    let net = Network { nets, level, gate };
    code_of(network::response_from_state(net, receivers, class, vectors, state, response))
}

// The call *diagnosis*: the state that gave the responses, into the front of `state`. Rows 5, 21, 6, 17, 20, 7, 8, 9,
// 10, 12, 13, 14.
pub fn fontarelga_diagnose(
    nets: u64,
    level: u64,
    gate: u64,
    receivers: &[u64],
    class: u64,
    vectors: &[u64],
    responses: &[u64],
    state: &mut [u64],
) -> u64
    ensures answer { result
        ≡ code (diagnosis_answer (network_with nets level gate) receivers.now class
        vectors.now responses.now (length state.old)) }
    ensures state { state.new
        ≡ lent_after (diagnosis_answer (network_with nets level gate) receivers.now class
        vectors.now responses.now (length state.old)) state.old }
{
    let net = Network { nets, level, gate };
    code_of(diagnosis::diagnose(net, receivers, class, vectors, responses, state))
}

// The call *findings*: kind, reach and partners of each receiver into the front of `table`. Rows 5, 21, 17, 20, 11 with
// k = n, and 12.
pub fn fontarelga_findings(
    nets: u64,
    level: u64,
    gate: u64,
    receivers: &[u64],
    state: &[u64],
    table: &mut [u64],
) -> u64
    ensures answer { result
        ≡ code (findings_exported (network_with nets level gate) receivers.now state.now
        (length table.old)) }
    ensures table { table.new
        ≡ lent_after (in_words finding_words
        (findings_exported (network_with nets level gate) receivers.now state.now
        (length table.old))) table.old }
{
    let net = Network { nets, level, gate };
    let mut records = [Finding {
        kind: 0,
        reach: 0,
        partners: 0,
    }; 64];
    if let Err(refusal) = findings::findings(net, receivers, state, &mut records) {
        return u64::from(refusal);
    }
    let m = receivers.len();
    if network::refusals::no_room(m, table.len() / 3) {
        return u64::from(Refusal::Room);
    }
    packing::table::put_findings(&records[..m], table);
    0
}

// The call *begin*: the vectors of step one into the front of `first`. Rows 5, 21, 17, 20 and 12.
pub fn fontarelga_begin(
    session: &mut [u64; 142],
    nets: u64,
    level: u64,
    gate: u64,
    receivers: &[u64],
    first: &mut [u64],
) -> u64
    ensures answer { result
        ≡ code (begin_answer (network_with nets level gate) receivers.now (length first.old)) }
    ensures session { session.new
        ≡ fixed_after (session_begun session.old (network_with nets level gate) receivers.now
        (length first.old)) session.old }
    ensures first { first.new
        ≡ lent_after (begin_answer (network_with nets level gate) receivers.now
        (length first.old)) first.old }
{
    let mut held = packing::record::session_of(session);
    let net = Network { nets, level, gate };
    let answered = session::begin(&mut held, net, receivers, first);
    *session = packing::record::words_of(held);
    code_of(answered)
}

// The call *first answers*: the vectors of step two into the front of `second`, if a net is unclear. Rows 4, 9, 10 and
// 12.
pub fn fontarelga_first_answers(
    session: &mut [u64; 142],
    answers: &[u64],
    second: &mut [u64],
) -> u64
    ensures answer { result
        ≡ code (first_answer (session_of session.old) answers.now
        (length second.old)) }
    ensures session { session.new
        ≡ fixed_after (session_first session.old answers.now (length second.old))
        session.old }
    ensures second { second.new
        ≡ lent_after (first_answer (session_of session.old) answers.now
        (length second.old)) second.old }
{
    let mut held = packing::record::session_of(session);
    let answered = session::first_answers(&mut held, answers, second);
    *session = packing::record::words_of(held);
    code_of(answered)
}

// The call *second answers*: the only state that fits both steps, into the session. Rows 4, 9, 10 and 14.
pub fn fontarelga_second_answers(session: &mut [u64; 142], answers: &[u64]) -> u64
    ensures answer { result ≡ code (second_answer (session_of session.old) answers.now) }
    ensures session { session.new
        ≡ fixed_after (session_second session.old answers.now) session.old }
{
    let mut held = packing::record::session_of(session);
    let answered = session::second_answers(&mut held, answers);
    *session = packing::record::words_of(held);
    code_of(answered)
}

// How many words to drive next, from the start of `first` in step 1 or of `second` in step 2; 0 if none.
pub fn fontarelga_to_drive<'a>(session: &[u64; 142], first: &'a [u64], second: &'a [u64]) -> u64
    ensures { result ≡ drive_count session.now first.now second.now }
{
    let held = packing::record::session_of(session);
    let driven = session::drive::to_drive(held, first, second);
    driven.len() as u64
}

// The call *turn*: the sequential words of the vectors, one for each net, into the front of `words`. Rows 5, 7, 8, 12.
pub fn fontarelga_turn(nets: u64, vectors: &[u64], words: &mut [u64]) -> u64
    ensures answer { result ≡ code (turn_answer nets vectors.now (length words.old)) }
    ensures words { words.new
        ≡ lent_after (turn_answer nets vectors.now (length words.old)) words.old }
{
    code_of(turning::turn(nets, vectors, words))
}

// The call *turn back*: from sequential words, one for each net, the vectors, as many as `count` says, into the front
// of `vectors`. Rows 5, 7, 8, 12.
pub fn fontarelga_turn_back(nets: u64, count: u64, words: &[u64], vectors: &mut [u64]) -> u64
    ensures answer { result
        ≡ code (turn_back_answer nets count words.now (length vectors.old)) }
    ensures vectors { vectors.new
        ≡ lent_after (turn_back_answer nets count words.now (length vectors.old))
        vectors.old }
{
    code_of(turning::turn_back(nets, count, words, vectors))
}

// The call *write clocks*: the clocks for a test set on a boundary-scan chain, one byte each, TMS in bit 0 and TDI in bit
// 1, into the front of `clocks`. `cells` is the number of cells, cell 0 nearest TDO; `driver_cells` has the cell of each
// net's driver, `receiver_cells` that of each receiver. Rows 5, 21, 7, 8, 18, 12.
pub fn fontarelga_write_clocks(
    nets: u64,
    receivers: &[u64],
    vectors: &[u64],
    cells: u64,
    driver_cells: &[u64],
    receiver_cells: &[u64],
    clocks: &mut [u8],
) -> u64
    ensures answer { result
        ≡ code (clocks_written nets receivers.now vectors.now cells driver_cells.now
        receiver_cells.now (length clocks.old)) }
    ensures clocks { clocks.new
        ≡ lent_after (clocks_written nets receivers.now vectors.now cells driver_cells.now
        receiver_cells.now (length clocks.old)) clocks.old }
{
    code_of(scan_chain::write_clocks(
        nets,
        receivers,
        vectors,
        cells,
        driver_cells,
        receiver_cells,
        clocks,
    ))
}

// The call *read clocks*: the responses to as many vectors as `count` says, from the TDO bits of their clocks, a byte 0
// or 1 for each clock, into the front of `responses`. Rows 5, 21, 7, 18, 19, 12.
pub fn fontarelga_read_clocks(
    nets: u64,
    receivers: &[u64],
    count: u64,
    cells: u64,
    driver_cells: &[u64],
    receiver_cells: &[u64],
    tdo: &[u8],
    responses: &mut [u64],
) -> u64
    ensures answer { result
        ≡ code (clocks_read nets receivers.now count cells driver_cells.now
        receiver_cells.now tdo.now (length responses.old)) }
    ensures responses { responses.new
        ≡ lent_after (clocks_read nets receivers.now count cells driver_cells.now
        receiver_cells.now tdo.now (length responses.old)) responses.old }
{
    code_of(scan_chain::read_clocks(
        nets,
        receivers,
        count,
        cells,
        driver_cells,
        receiver_cells,
        tdo,
        responses,
    ))
}

// The call *read a job file*. The job's 7 words: nets, level, gate, class, kind, number of vectors, number of
// responses. Rows 1, 2, 3, 5, 6, 17, 20, 7, 8, 9, 10, 12.
pub fn fontarelga_read_job(
    file: &[u8],
    vectors: &mut [u64],
    responses: &mut [u64],
    job: &mut [u64; 7],
) -> u64
    ensures answer { result
        ≡ code (read_answer file.now (length vectors.old) (length responses.old)) }
    ensures vectors { vectors.new
        ≡ lent_after (vectors_read
        (read_answer file.now (length vectors.old) (length responses.old)))
        vectors.old }
    ensures responses { responses.new
        ≡ lent_after (responses_read
        (read_answer file.now (length vectors.old) (length responses.old)))
        responses.old }
    ensures job { job.new
        ≡ fixed_after (in_words job_words
        (read_answer file.now (length vectors.old) (length responses.old)))
        job.old }
{
    code_in_words(reader::read_job(file, vectors, responses), job)
}

// The call *write a job file*. The size's only word: how many bytes were written. Rows 2, 5, 6, 17, 20, 7, 8, 9, 10
// and 12; 9 and 10 only if there are responses.
pub fn fontarelga_write_job(
    kind: u64,
    nets: u64,
    level: u64,
    gate: u64,
    class: u64,
    vectors: &[u64],
    responses: &[u64],
    file: &mut [u8],
    size: &mut [u64; 1],
) -> u64
    ensures answer { result
        ≡ code (write_answer kind (network_with nets level gate) class vectors.now responses.now
        (length file.old)) }
    ensures file { file.new
        ≡ lent_after (write_answer kind (network_with nets level gate) class vectors.now responses.now
        (length file.old)) file.old }
    ensures size { size.new
        ≡ fixed_after (in_words size_words
        (write_answer kind (network_with nets level gate) class vectors.now responses.now
        (length file.old))) size.old }
{
    let net = Network { nets, level, gate };
    code_in_words(
        writer::write_job(kind, net, class, vectors, responses, file),
        size,
    )
}
