// The C interface: the calls of `exports`, each with the same clauses. A list is a pointer and a length, and a list of a
// fixed length a pointer.

#![tactic(auto)]

ghost use Rattle.std.specs.Prelude.{◌≡◌, length};
ghost use Rattle.words.specs.Answers.{lent_after};
ghost use Rattle.network.specs.Reading.{network_with};
ghost use Rattle.network.specs.Respond.{response_answer};
ghost use Rattle.network.specs.OwnReceivers.{own_receivers_answer};
ghost use Rattle.turning.specs.Turn.{turn_answer, turn_back_answer};
ghost use Rattle.scan_chain.specs.Calls.{write_answer as clocks_written, read_answer as clocks_read};
ghost use Rattle.checker.specs.Check.{check_answer};
ghost use Rattle.diagnosis.specs.Diagnosis.{diagnosis_answer};
ghost use Rattle.shorter.specs.Shorten.{shorten_answer, kept_of};
ghost use Rattle.session.specs.Calls.{begin_answer, first_answer, second_answer};
ghost use Rattle.reader.specs.Reader.{read_answer, vectors_read, responses_read};
ghost use Rattle.writer.specs.Writer.{write_answer};
ghost use Rattle.packing.specs.Packed.{session_of};
ghost use Rattle.packing.specs.Packed.{verdict_words, shorter_words, finding_words, job_words, size_words};
ghost use Rattle.exports.specs.Exported.{code, in_words, fixed_after, findings_exported, session_begun};
ghost use Rattle.exports.specs.Exported.{session_first, session_second, drive_count};

#[unsafe(no_mangle)]
pub extern "C" fn fontarelga_check(
    nets: u64,
    level: u64,
    gate: u64,
    class: u64,
    vectors: &[u64],
    verdict: &mut [u64; 3],
) -> u64
    ensures answer { result ≡ code (check_answer (network_with nets level gate) class vectors.now) }
    ensures verdict { verdict.new
        ≡ fixed_after (in_words verdict_words (check_answer (network_with nets level gate) class vectors.now))
        verdict.old }
{
    exports::fontarelga_check(nets, level, gate, class, vectors, verdict)
}

#[unsafe(no_mangle)]
pub extern "C" fn fontarelga_shorten(
    nets: u64,
    level: u64,
    gate: u64,
    class: u64,
    vectors: &[u64],
    allowed: u64,
    kept: &mut [u64],
    shortened: &mut [u64; 3],
) -> u64
    ensures answer { result
        ≡ code (shorten_answer (network_with nets level gate) class vectors.now allowed
        (length kept.old)) }
    ensures kept { kept.new
        ≡ lent_after (kept_of (shorten_answer (network_with nets level gate) class vectors.now allowed
        (length kept.old))) kept.old }
    ensures shortened { shortened.new
        ≡ fixed_after (in_words shorter_words (shorten_answer (network_with nets level gate) class
        vectors.now allowed (length kept.old))) shortened.old }
{
    exports::fontarelga_shorten(nets, level, gate, class, vectors, allowed, kept, shortened)
}

#[unsafe(no_mangle)]
pub extern "C" fn fontarelga_own_receivers(nets: u64, receivers: &mut [u64]) -> u64
    ensures answer { result ≡ code (own_receivers_answer nets (length receivers.old)) }
    ensures receivers { receivers.new
        ≡ lent_after (own_receivers_answer nets (length receivers.old)) receivers.old }
{
    exports::fontarelga_own_receivers(nets, receivers)
}

#[unsafe(no_mangle)]
pub extern "C" fn fontarelga_respond(
    nets: u64,
    level: u64,
    gate: u64,
    receivers: &[u64],
    class: u64,
    vectors: &[u64],
    state: &[u64],
    response: &mut [u64],
) -> u64
    ensures answer { result
        ≡ code (response_answer (network_with nets level gate) receivers.now class
        vectors.now state.now (length response.old)) }
    ensures response { response.new
        ≡ lent_after (response_answer (network_with nets level gate) receivers.now class
        vectors.now state.now (length response.old)) response.old }
{
    exports::fontarelga_respond(
        nets, level, gate, receivers, class, vectors, state, response,
    )
}

#[unsafe(no_mangle)]
pub extern "C" fn fontarelga_diagnose(
    nets: u64,
    level: u64,
    gate: u64,
    receivers: &[u64],
    class: u64,
    vectors: &[u64],
    responses: &[u64],
    state: &mut [u64],
) -> u64
    ensures answer { result
        ≡ code (diagnosis_answer (network_with nets level gate) receivers.now class
        vectors.now responses.now (length state.old)) }
    ensures state { state.new
        ≡ lent_after (diagnosis_answer (network_with nets level gate) receivers.now class
        vectors.now responses.now (length state.old)) state.old }
{
    exports::fontarelga_diagnose(
        nets, level, gate, receivers, class, vectors, responses, state,
    )
}

#[unsafe(no_mangle)]
pub extern "C" fn fontarelga_findings(
    nets: u64,
    level: u64,
    gate: u64,
    receivers: &[u64],
    state: &[u64],
    table: &mut [u64],
) -> u64
    ensures answer { result
        ≡ code (findings_exported (network_with nets level gate) receivers.now state.now
        (length table.old)) }
    ensures table { table.new
        ≡ lent_after (in_words finding_words
        (findings_exported (network_with nets level gate) receivers.now state.now
        (length table.old))) table.old }
{
    exports::fontarelga_findings(nets, level, gate, receivers, state, table)
}

#[unsafe(no_mangle)]
pub extern "C" fn fontarelga_begin(
    session: &mut [u64; 142],
    nets: u64,
    level: u64,
    gate: u64,
    receivers: &[u64],
    first: &mut [u64],
) -> u64
    ensures answer { result
        ≡ code (begin_answer (network_with nets level gate) receivers.now (length first.old)) }
    ensures session { session.new
        ≡ fixed_after (session_begun session.old (network_with nets level gate) receivers.now
        (length first.old)) session.old }
    ensures first { first.new
        ≡ lent_after (begin_answer (network_with nets level gate) receivers.now
        (length first.old)) first.old }
{
    exports::fontarelga_begin(session, nets, level, gate, receivers, first)
}

#[unsafe(no_mangle)]
pub extern "C" fn fontarelga_first_answers(
    session: &mut [u64; 142],
    answers: &[u64],
    second: &mut [u64],
) -> u64
    ensures answer { result
        ≡ code (first_answer (session_of session.old) answers.now
        (length second.old)) }
    ensures session { session.new
        ≡ fixed_after (session_first session.old answers.now (length second.old))
        session.old }
    ensures second { second.new
        ≡ lent_after (first_answer (session_of session.old) answers.now
        (length second.old)) second.old }
{
    exports::fontarelga_first_answers(session, answers, second)
}

#[unsafe(no_mangle)]
pub extern "C" fn fontarelga_second_answers(session: &mut [u64; 142], answers: &[u64]) -> u64
    ensures answer { result ≡ code (second_answer (session_of session.old) answers.now) }
    ensures session { session.new
        ≡ fixed_after (session_second session.old answers.now) session.old }
{
    exports::fontarelga_second_answers(session, answers)
}

#[unsafe(no_mangle)]
pub extern "C" fn fontarelga_to_drive<'a>(
    session: &[u64; 142],
    first: &'a [u64],
    second: &'a [u64],
) -> u64
    ensures { result ≡ drive_count session.now first.now second.now }
{
    exports::fontarelga_to_drive(session, first, second)
}

#[unsafe(no_mangle)]
pub extern "C" fn fontarelga_turn(nets: u64, vectors: &[u64], words: &mut [u64]) -> u64
    ensures answer { result ≡ code (turn_answer nets vectors.now (length words.old)) }
    ensures words { words.new
        ≡ lent_after (turn_answer nets vectors.now (length words.old)) words.old }
{
    exports::fontarelga_turn(nets, vectors, words)
}

#[unsafe(no_mangle)]
pub extern "C" fn fontarelga_turn_back(
    nets: u64,
    count: u64,
    words: &[u64],
    vectors: &mut [u64],
) -> u64
    ensures answer { result
        ≡ code (turn_back_answer nets count words.now (length vectors.old)) }
    ensures vectors { vectors.new
        ≡ lent_after (turn_back_answer nets count words.now (length vectors.old))
        vectors.old }
{
    exports::fontarelga_turn_back(nets, count, words, vectors)
}

#[unsafe(no_mangle)]
pub extern "C" fn fontarelga_write_clocks(
    nets: u64,
    receivers: &[u64],
    vectors: &[u64],
    cells: u64,
    driver_cells: &[u64],
    receiver_cells: &[u64],
    clocks: &mut [u8],
) -> u64
    ensures answer { result
        ≡ code (clocks_written nets receivers.now vectors.now cells driver_cells.now
        receiver_cells.now (length clocks.old)) }
    ensures clocks { clocks.new
        ≡ lent_after (clocks_written nets receivers.now vectors.now cells driver_cells.now
        receiver_cells.now (length clocks.old)) clocks.old }
{
    exports::fontarelga_write_clocks(
        nets,
        receivers,
        vectors,
        cells,
        driver_cells,
        receiver_cells,
        clocks,
    )
}

#[unsafe(no_mangle)]
pub extern "C" fn fontarelga_read_clocks(
    nets: u64,
    receivers: &[u64],
    count: u64,
    cells: u64,
    driver_cells: &[u64],
    receiver_cells: &[u64],
    tdo: &[u8],
    responses: &mut [u64],
) -> u64
    ensures answer { result
        ≡ code (clocks_read nets receivers.now count cells driver_cells.now
        receiver_cells.now tdo.now (length responses.old)) }
    ensures responses { responses.new
        ≡ lent_after (clocks_read nets receivers.now count cells driver_cells.now
        receiver_cells.now tdo.now (length responses.old)) responses.old }
{
    exports::fontarelga_read_clocks(
        nets,
        receivers,
        count,
        cells,
        driver_cells,
        receiver_cells,
        tdo,
        responses,
    )
}

#[unsafe(no_mangle)]
pub extern "C" fn fontarelga_read_job(
    file: &[u8],
    vectors: &mut [u64],
    responses: &mut [u64],
    job: &mut [u64; 7],
) -> u64
    ensures answer { result
        ≡ code (read_answer file.now (length vectors.old) (length responses.old)) }
    ensures vectors { vectors.new
        ≡ lent_after (vectors_read
        (read_answer file.now (length vectors.old) (length responses.old)))
        vectors.old }
    ensures responses { responses.new
        ≡ lent_after (responses_read
        (read_answer file.now (length vectors.old) (length responses.old)))
        responses.old }
    ensures job { job.new
        ≡ fixed_after (in_words job_words
        (read_answer file.now (length vectors.old) (length responses.old)))
        job.old }
{
    exports::fontarelga_read_job(file, vectors, responses, job)
}

#[unsafe(no_mangle)]
pub extern "C" fn fontarelga_write_job(
    kind: u64,
    nets: u64,
    level: u64,
    gate: u64,
    class: u64,
    vectors: &[u64],
    responses: &[u64],
    file: &mut [u8],
    size: &mut [u64; 1],
) -> u64
    ensures answer { result
        ≡ code (write_answer kind (network_with nets level gate) class vectors.now responses.now
        (length file.old)) }
    ensures file { file.new
        ≡ lent_after (write_answer kind (network_with nets level gate) class vectors.now responses.now
        (length file.old)) file.old }
    ensures size { size.new
        ≡ fixed_after (in_words size_words
        (write_answer kind (network_with nets level gate) class vectors.now responses.now
        (length file.old))) size.old }
{
    exports::fontarelga_write_job(
        kind, nets, level, gate, class, vectors, responses, file, size,
    )
}
