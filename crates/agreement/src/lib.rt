// Each public call, held to the program that the demands are proved of: a thin function a call, whose contract cites
// that program and whose body is the call. So no call's contract can say less than the demands rest on. Nothing calls
// these.

#![tactic(auto)]

ghost use Rattle.std.specs.Prelude.{◌≡◌, ◌≤◌, length, replicate};
ghost use Rattle.words.specs.Answers.{full, lent_after};
ghost use Rattle.network.specs.Refusing.{answer_of};
ghost use Rattle.findings.specs.FindingsTable.{table_meaning};
ghost use Rattle.exports.specs.Exported.{code};
ghost use Rattle.demands.specs.SessionCalls.{begin, first, second};
ghost use Rattle.demands.specs.Programs.{our_check, our_plain_search, our_shorten, our_own_receivers};
ghost use Rattle.demands.specs.Programs.{our_turn, our_turn_back, our_write_clocks, our_read_clocks};
ghost use Rattle.demands.specs.Programs.{our_response, our_diagnosis, our_findings};
ghost use Rattle.demands.specs.Programs.{our_reader, our_writer, our_sessions, our_drive, our_report};

pub mod through_c;

use checker::Verdict;
use decimal::Page;
use findings::Finding;
use listing::Text;
use network::Network;
use network::refusal::Refusal;
use reader::Job;
use session::Session;
use shorter::Shortened;

// *check*
pub fn check(net: Network, class: u64, vectors: &[u64]) -> Result<Verdict, Refusal>
    ensures { answer_of result ≡ our_check net class vectors.now }
{
    checker::check(net, class, vectors)
}

// the plain search over all driver sets, which is no call: of at most 10 nets and 64 vectors
pub fn plain_search(net: Network, class: u64, vectors: &[u64]) -> Verdict
    requires { (length vectors.now ≤ 64) × (net.nets ≤ 10) }
    ensures { result ≡ our_plain_search net class vectors.now }
{
    checker::plain::plain_verdict(net, class, vectors)
}

// *shorten*
pub fn shorten(
    net: Network,
    class: u64,
    vectors: &[u64],
    allowed: u64,
    out: &mut [u64],
) -> Result<Shortened, Refusal>
    ensures returned { answer_of result
        ≡ (our_shorten net class vectors.now allowed out.old).returned }
    ensures list { out.new
        ≡ (our_shorten net class vectors.now allowed out.old).list }
{
    shorter::shorten(net, class, vectors, allowed, out)
}

// *own receivers*
pub fn own_receivers(nets: u64, out: &mut [u64]) -> Result<u64, Refusal>
    ensures returned { answer_of result ≡ (our_own_receivers nets out.old).returned }
    ensures list { out.new ≡ (our_own_receivers nets out.old).list }
{
    network::own_receivers(nets, out)
}

// *turn*
pub fn turn(nets: u64, vectors: &[u64], out: &mut [u64]) -> Result<u64, Refusal>
    ensures returned { answer_of result ≡ (our_turn nets vectors.now out.old).returned }
    ensures list { out.new ≡ (our_turn nets vectors.now out.old).list }
{
    turning::turn(nets, vectors, out)
}

// *turn back*
pub fn turn_back(nets: u64, count: u64, words: &[u64], out: &mut [u64]) -> Result<u64, Refusal>
    ensures returned { answer_of result
        ≡ (our_turn_back nets count words.now out.old).returned }
    ensures list { out.new ≡ (our_turn_back nets count words.now out.old).list }
{
    turning::turn_back(nets, count, words, out)
}

// *write clocks*
pub fn write_clocks(
    nets: u64,
    receivers: &[u64],
    vectors: &[u64],
    cells: u64,
    driver_cells: &[u64],
    receiver_cells: &[u64],
    out: &mut [u8],
) -> Result<u64, Refusal>
    ensures returned { answer_of result
        ≡ (our_write_clocks nets receivers.now vectors.now cells driver_cells.now
        receiver_cells.now out.old).returned }
    ensures list { out.new
        ≡ (our_write_clocks nets receivers.now vectors.now cells driver_cells.now
        receiver_cells.now out.old).list }
{
    scan_chain::write_clocks(
        nets,
        receivers,
        vectors,
        cells,
        driver_cells,
        receiver_cells,
        out,
    )
}

// *read clocks*
pub fn read_clocks(
    nets: u64,
    receivers: &[u64],
    count: u64,
    cells: u64,
    driver_cells: &[u64],
    receiver_cells: &[u64],
    tdo: &[u8],
    out: &mut [u64],
) -> Result<u64, Refusal>
    ensures returned { answer_of result
        ≡ (our_read_clocks nets receivers.now count cells driver_cells.now
        receiver_cells.now tdo.now out.old).returned }
    ensures list { out.new
        ≡ (our_read_clocks nets receivers.now count cells driver_cells.now
        receiver_cells.now tdo.now out.old).list }
{
    scan_chain::read_clocks(
        nets,
        receivers,
        count,
        cells,
        driver_cells,
        receiver_cells,
        tdo,
        out,
    )
}

// *response from a state*
pub fn respond(
    net: Network,
    receivers: &[u64],
    class: u64,
    vectors: &[u64],
    state: &[u64],
    out: &mut [u64],
) -> Result<u64, Refusal>
    ensures returned { answer_of result
        ≡ (our_response net receivers.now class vectors.now state.now
        out.old).returned }
    ensures list { out.new
        ≡ (our_response net receivers.now class vectors.now state.now
        out.old).list }
{
    network::response_from_state(net, receivers, class, vectors, state, out)
}

// *diagnosis*
pub fn diagnose(
    net: Network,
    receivers: &[u64],
    class: u64,
    vectors: &[u64],
    responses: &[u64],
    out: &mut [u64],
) -> Result<u64, Refusal>
    ensures returned { answer_of result
        ≡ (our_diagnosis net receivers.now class vectors.now responses.now
        out.old).returned }
    ensures list { out.new
        ≡ (our_diagnosis net receivers.now class vectors.now responses.now
        out.old).list }
{
    diagnosis::diagnose(net, receivers, class, vectors, responses, out)
}

// *findings*
pub fn find(
    net: Network,
    receivers: &[u64],
    state: &[u64],
    table: &mut [Finding],
) -> Result<(), Refusal>
    ensures returned { table_meaning (length receivers.now) result
        ≡ (our_findings net receivers.now state.now table.old).returned }
    ensures table { table.new
        ≡ (our_findings net receivers.now state.now table.old).list }
{
    findings::findings(net, receivers, state, table)
}

// *begin*
pub fn begin(
    held: &mut Session,
    net: Network,
    receivers: &[u64],
    list: &mut [u64],
) -> Result<(), Refusal>
    ensures returned { code (answer_of result)
        ≡ code (our_sessions held.old (begin net receivers.now list.old)).answer }
    ensures session { held.new
        ≡ (our_sessions held.old (begin net receivers.now list.old)).session }
    ensures list { list.new
        ≡ (our_sessions held.old (begin net receivers.now list.old)).list }
{
    session::begin(held, net, receivers, list)
}

// *first answers*
pub fn first_answers(held: &mut Session, answers: &[u64], list: &mut [u64]) -> Result<(), Refusal>
    ensures returned { code (answer_of result) ≡ code (our_sessions held.old (first answers.now list.old)).answer }
    ensures session { held.new ≡ (our_sessions held.old (first answers.now list.old)).session }
    ensures list { list.new ≡ (our_sessions held.old (first answers.now list.old)).list }
{
    session::first_answers(held, answers, list)
}

// *second answers*
pub fn second_answers(held: &mut Session, answers: &[u64]) -> Result<(), Refusal>
    ensures returned { code (answer_of result) ≡ code (our_sessions held.old (second answers.now)).answer }
    ensures session { held.new ≡ (our_sessions held.old (second answers.now)).session }
{
    session::second_answers(held, answers)
}

// the vectors to drive next
pub fn to_drive<'a>(held: Session, one: &'a [u64], two: &'a [u64]) -> &'a [u64]
    ensures { result.now ≡ our_drive held one.now two.now }
{
    session::drive::to_drive(held, one, two)
}

// *read a job file*
pub fn read_job(file: &[u8], vectors: &mut [u64], responses: &mut [u64]) -> Result<Job, Refusal>
    ensures returned { answer_of result
        ≡ (our_reader file.now vectors.old responses.old).returned }
    ensures vectors { vectors.new
        ≡ (our_reader file.now vectors.old responses.old).vectors }
    ensures responses { responses.new
        ≡ (our_reader file.now vectors.old responses.old).responses }
{
    reader::read_job(file, vectors, responses)
}

// *write a job file*
pub fn write_job(
    kind: u64,
    net: Network,
    class: u64,
    vectors: &[u64],
    responses: &[u64],
    file: &mut [u8],
) -> Result<u64, Refusal>
    ensures returned { answer_of result
        ≡ (our_writer kind net class vectors.now responses.now file.old).returned }
    ensures list { file.new
        ≡ (our_writer kind net class vectors.now responses.now file.old).list }
{
    writer::write_job(kind, net, class, vectors, responses, file)
}

// the report
pub fn report(file: &[u8]) -> Text
    ensures count { result.count ≡ length (our_report file.now) }
    ensures bytes { result.bytes ≡ lent_after (full (our_report file.now)) (replicate 4142 0) }
{
    listing::report(file)
}

// the same as the report program writes it
pub fn report_text(file: &[u8]) -> Page
    ensures { result.items ≡ our_report file.now }
{
    listing::report_text(file)
}
