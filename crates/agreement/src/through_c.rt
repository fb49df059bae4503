// The same for the calls of the C interface. Those on a session cite what the claim on them is proved of, `exported`
// and `drive_count`; the others cite the program, in words.
ghost use Rattle.std.specs.Prelude.{◌≡◌, ◌++◌};
ghost use Rattle.network.specs.Reading.{network_with};
ghost use Rattle.packing.specs.Packed.{verdict_words, finding_words};
ghost use Rattle.exports.specs.Exported.{code, in_words, fixed_after, drive_count};
ghost use Rattle.demands.specs.SessionCalls.{begin, first, second};
ghost use Rattle.demands.specs.Programs.{our_check, our_shorten, our_own_receivers, our_response};
ghost use Rattle.demands.specs.Programs.{our_diagnosis, our_findings, our_reader, our_writer};
ghost use Rattle.demands.specs.Programs.{our_turn, our_turn_back, our_write_clocks, our_read_clocks};
ghost use Rattle.demands.specs.ThroughC.{exported};
ghost use Rattle.exports.specs.Exported.{returned_shorter_words, returned_job_words, returned_size_words};
ghost use Rattle.agreement.specs.InWords.{records_of, rest_of};

// *check*
pub fn check(
    nets: u64,
    level: u64,
    gate: u64,
    class: u64,
    vectors: &[u64],
    verdict: &mut [u64; 3],
) -> u64
    ensures returned { result ≡ code (our_check (network_with nets level gate) class vectors.now) }
    ensures verdict { verdict.new
        ≡ fixed_after (in_words verdict_words (our_check (network_with nets level gate) class vectors.now))
        verdict.old }
{
    exports::fontarelga_check(nets, level, gate, class, vectors, verdict)
}

// *shorten*
pub fn shorten(
    nets: u64,
    level: u64,
    gate: u64,
    class: u64,
    vectors: &[u64],
    allowed: u64,
    kept: &mut [u64],
    shortened: &mut [u64; 3],
) -> u64
    ensures returned { result
        ≡ code (our_shorten (network_with nets level gate) class vectors.now allowed
        kept.old).returned }
    ensures kept { kept.new
        ≡ (our_shorten (network_with nets level gate) class vectors.now allowed kept.old).list }
    ensures shortened { shortened.new
        ≡ fixed_after (in_words returned_shorter_words
        (our_shorten (network_with nets level gate) class vectors.now allowed kept.old).returned)
        shortened.old }
{
    exports::fontarelga_shorten(nets, level, gate, class, vectors, allowed, kept, shortened)
}

// *own receivers*
pub fn own_receivers(nets: u64, receivers: &mut [u64]) -> u64
    ensures returned { result ≡ code (our_own_receivers nets receivers.old).returned }
    ensures receivers { receivers.new ≡ (our_own_receivers nets receivers.old).list }
{
    exports::fontarelga_own_receivers(nets, receivers)
}

// *response from a state*
pub fn respond(
    nets: u64,
    level: u64,
    gate: u64,
    receivers: &[u64],
    class: u64,
    vectors: &[u64],
    state: &[u64],
    response: &mut [u64],
) -> u64
    ensures returned { result
        ≡ code (our_response (network_with nets level gate) receivers.now class vectors.now
        state.now response.old).returned }
    ensures response { response.new
        ≡ (our_response (network_with nets level gate) receivers.now class vectors.now
        state.now response.old).list }
{
    exports::fontarelga_respond(
        nets, level, gate, receivers, class, vectors, state, response,
    )
}

// *diagnosis*
pub fn diagnose(
    nets: u64,
    level: u64,
    gate: u64,
    receivers: &[u64],
    class: u64,
    vectors: &[u64],
    responses: &[u64],
    state: &mut [u64],
) -> u64
    ensures returned { result
        ≡ code (our_diagnosis (network_with nets level gate) receivers.now class vectors.now
        responses.now state.old).returned }
    ensures state { state.new
        ≡ (our_diagnosis (network_with nets level gate) receivers.now class vectors.now
        responses.now state.old).list }
{
    exports::fontarelga_diagnose(
        nets, level, gate, receivers, class, vectors, responses, state,
    )
}

// *findings*
pub fn find(
    nets: u64,
    level: u64,
    gate: u64,
    receivers: &[u64],
    state: &[u64],
    table: &mut [u64],
) -> u64
    ensures returned { result
        ≡ code (our_findings (network_with nets level gate) receivers.now state.now
        (records_of table.old)).returned }
    ensures table { table.new
        ≡ finding_words (our_findings (network_with nets level gate) receivers.now state.now
        (records_of table.old)).list ++ rest_of table.old }
{
    exports::fontarelga_findings(nets, level, gate, receivers, state, table)
}

// *begin*
pub fn begin(
    session: &mut [u64; 142],
    nets: u64,
    level: u64,
    gate: u64,
    receivers: &[u64],
    list: &mut [u64],
) -> u64
    ensures returned { result
        ≡ (exported session.old
        (begin (network_with nets level gate) receivers.now list.old)).returned }
    ensures session { session.new
        ≡ (exported session.old
        (begin (network_with nets level gate) receivers.now list.old)).session }
    ensures list { list.new
        ≡ (exported session.old
        (begin (network_with nets level gate) receivers.now list.old)).list }
{
    exports::fontarelga_begin(session, nets, level, gate, receivers, list)
}

// *first answers*
pub fn first_answers(session: &mut [u64; 142], answers: &[u64], list: &mut [u64]) -> u64
    ensures returned { result ≡ (exported session.old (first answers.now list.old)).returned }
    ensures session { session.new
        ≡ (exported session.old (first answers.now list.old)).session }
    ensures list { list.new
        ≡ (exported session.old (first answers.now list.old)).list }
{
    exports::fontarelga_first_answers(session, answers, list)
}

// *second answers*
pub fn second_answers(session: &mut [u64; 142], answers: &[u64]) -> u64
    ensures returned { result ≡ (exported session.old (second answers.now)).returned }
    ensures session { session.new ≡ (exported session.old (second answers.now)).session }
{
    exports::fontarelga_second_answers(session, answers)
}

// the vectors to drive next
pub fn to_drive<'a>(session: &[u64; 142], one: &'a [u64], two: &'a [u64]) -> u64
    ensures { result ≡ drive_count session.now one.now two.now }
{
    exports::fontarelga_to_drive(session, one, two)
}

// *read a job file*
pub fn read_job(file: &[u8], vectors: &mut [u64], responses: &mut [u64], job: &mut [u64; 7]) -> u64
    ensures returned { result ≡ code (our_reader file.now vectors.old responses.old).returned }
    ensures vectors { vectors.new
        ≡ (our_reader file.now vectors.old responses.old).vectors }
    ensures responses { responses.new
        ≡ (our_reader file.now vectors.old responses.old).responses }
    ensures job { job.new
        ≡ fixed_after (in_words returned_job_words
        (our_reader file.now vectors.old responses.old).returned)
        job.old }
{
    exports::fontarelga_read_job(file, vectors, responses, job)
}

// *write a job file*
pub fn write_job(
    kind: u64,
    nets: u64,
    level: u64,
    gate: u64,
    class: u64,
    vectors: &[u64],
    responses: &[u64],
    file: &mut [u8],
    size: &mut [u64; 1],
) -> u64
    ensures returned { result
        ≡ code (our_writer kind (network_with nets level gate) class vectors.now responses.now
        file.old).returned }
    ensures file { file.new
        ≡ (our_writer kind (network_with nets level gate) class vectors.now responses.now
        file.old).list }
    ensures size { size.new
        ≡ fixed_after (in_words returned_size_words
        (our_writer kind (network_with nets level gate) class vectors.now responses.now
        file.old).returned) size.old }
{
    exports::fontarelga_write_job(
        kind, nets, level, gate, class, vectors, responses, file, size,
    )
}

// *turn*
pub fn turn(nets: u64, vectors: &[u64], words: &mut [u64]) -> u64
    ensures returned { result ≡ code (our_turn nets vectors.now words.old).returned }
    ensures words { words.new ≡ (our_turn nets vectors.now words.old).list }
{
    exports::fontarelga_turn(nets, vectors, words)
}

// *turn back*
pub fn turn_back(nets: u64, count: u64, words: &[u64], vectors: &mut [u64]) -> u64
    ensures returned { result
        ≡ code (our_turn_back nets count words.now vectors.old).returned }
    ensures vectors { vectors.new
        ≡ (our_turn_back nets count words.now vectors.old).list }
{
    exports::fontarelga_turn_back(nets, count, words, vectors)
}

// *write clocks*
pub fn write_clocks(
    nets: u64,
    receivers: &[u64],
    vectors: &[u64],
    cells: u64,
    driver_cells: &[u64],
    receiver_cells: &[u64],
    clocks: &mut [u8],
) -> u64
    ensures returned { result
        ≡ code (our_write_clocks nets receivers.now vectors.now cells driver_cells.now
        receiver_cells.now clocks.old).returned }
    ensures clocks { clocks.new
        ≡ (our_write_clocks nets receivers.now vectors.now cells driver_cells.now
        receiver_cells.now clocks.old).list }
{
    exports::fontarelga_write_clocks(
        nets,
        receivers,
        vectors,
        cells,
        driver_cells,
        receiver_cells,
        clocks,
    )
}

// *read clocks*
pub fn read_clocks(
    nets: u64,
    receivers: &[u64],
    count: u64,
    cells: u64,
    driver_cells: &[u64],
    receiver_cells: &[u64],
    tdo: &[u8],
    responses: &mut [u64],
) -> u64
    ensures returned { result
        ≡ code (our_read_clocks nets receivers.now count cells driver_cells.now
        receiver_cells.now tdo.now responses.old).returned }
    ensures responses { responses.new
        ≡ (our_read_clocks nets receivers.now count cells driver_cells.now
        receiver_cells.now tdo.now responses.old).list }
{
    exports::fontarelga_read_clocks(
        nets,
        receivers,
        count,
        cells,
        driver_cells,
        receiver_cells,
        tdo,
        responses,
    )
}
