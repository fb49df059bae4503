// The table of a job file: the tests of rows 1, 2 and 3, and the files that they admit. Helpers with a requires: each
// asks only that the bytes it reads are there.
ghost use Rattle.std.specs.Prelude.{◌≡◌, false, cond, [], ◌∷◌, ◌+◌, ◌-◌, ◌<◌, ◌≤◌, ◌^◌, eqb, length, take, drop, IfOk};
ghost use Rattle.words.specs.Answers.{by_tests};
ghost use Rattle.network.specs.Refusing.{admission_of};
ghost use Rattle.jobfile.specs.Bytes.{number_at};
ghost use Rattle.jobfile.specs.VectorsBody.{net_by_net, lead};
ghost use Rattle.jobfile.specs.Layout.{entry_kind, entry_count, bodies_at, body_offset, body_length};
ghost use Rattle.jobfile.specs.Layout.{bad_mark, bad_entry, bad_layout, bad_bodies};

use jobfile::NETS_SIZE;
use jobfile::kind::BodyKind;
use network::refusal::{Refusal, refuse_if};

// The number in the four bytes from an offset on, low byte first.
fn number_at(file: &[u8], offset: usize) -> usize
    requires { offset + 4 ≤ length file.now }
    ensures { (result ≡ number_at file.now offset 4) × (result < 2 ^ 32) }
{
    u32::from_le_bytes([
        file[offset],
        file[offset + 1],
        file[offset + 2],
        file[offset + 3],
    ]) as usize
}

// An entry of the table: the kind of its body, where the body begins, and how many bytes it has.
#[derive(Clone, Copy)]
pub struct Entry {
    pub kind: u8,
    pub offset: usize,
    pub length: usize,
}

impl Entry {
    // Entry i of a file.
    #[tactic(auto, unfolding(jobfile::specs::Layout::entry_kind, jobfile::specs::Layout::body_offset, jobfile::specs::Layout::body_length))]
    fn read(file: &[u8], i: usize) -> Entry
        requires { bodies_at (i + 1) ≤ length file.now }
        ensures kind { result.kind ≡ entry_kind file.now i }
        ensures offset { (result.offset ≡ body_offset file.now i) × (result.offset < 2 ^ 32) }
        ensures length { (result.length ≡ body_length file.now i) × (result.length < 2 ^ 32) }
    {
        Entry {
            kind: file[5 + 9 * i],
            offset: number_at(file, 6 + 9 * i),
            length: number_at(file, 10 + 9 * i),
        }
    }

    // Whether its body is of the kind that is stored net by net.
    pub fn net_by_net(self) -> bool
        ensures { result ≡ net_by_net self.kind }
    {
        self.kind == u8::from(BodyKind::NetByNet)
    }

    // How many bytes of its body stand before the words: net by net the count of the vectors.
    fn lead(self) -> usize
        ensures { result ≡ lead self.kind }
    {
        if self.net_by_net() { 1 } else { 0 }
    }
}

// The number of entries; 0 in a file that ends before it.
fn entry_count(file: &[u8]) -> usize
    ensures { (result ≡ entry_count file.now) × (result < 256) }
{
    match file.get(4) {
        Some(&count) => count as usize,
        None => 0,
    }
}

// Where the body of entry i has to begin: after the table, or after the body before it.
fn body_start(file: &[u8], i: usize) -> usize
    requires { (i < entry_count file.now) × (bodies_at (entry_count file.now) ≤ length file.now) }
    ensures { result ≡ cond (eqb i 0) (bodies_at (entry_count file.now))
        (body_offset file.now (i - 1) + body_length file.now (i - 1)) }
{
    if i == 0 {
        return 5 + 9 * entry_count(file);
    }
    let before = Entry::read(file, i - 1);
    before.offset + before.length
}

// Entry i breaks the layout: its kind, where its body begins, or where the last body ends.
fn bad_entry(file: &[u8], i: usize) -> bool
    requires { (i < entry_count file.now) × (bodies_at (entry_count file.now) ≤ length file.now) }
    ensures { result ≡ bad_entry file.now i }
{
    let entry = Entry::read(file, i);
    let offset = entry.offset;
    let start = body_start(file, i);
    let last = (i + 1 == entry_count(file)) & (offset + entry.length != file.len());
    let right = (entry.kind as usize == i + 1) | ((i == 1) & entry.net_by_net());
    !right | ((offset != start) | last)
}

// Row 2: over 2,048 bytes, or count, table, kinds, offsets, lengths or end break the layout.
fn bad_layout(file: &[u8]) -> bool
    ensures { result ≡ bad_layout file.now }
{
    let count = entry_count(file);
    let counted = (count == 2) | (count == 3);
    if (2048 < file.len()) | (!counted | (file.len() < 5 + 9 * count)) {
        return true;
    }
    for i in 0..count {
        if bad_entry(file, i) {
            return true;
        }
    }
    false
}

// A file that has the layout: row 2 does not hold.
#[derive(Clone, Copy)]
pub struct LaidOut<'a> {
    pub file: &'a [u8],
    ghost laid_out: { bad_layout file.now ≡ false },
    ghost two: { 2 ≤ entry_count file.now },
}

impl<'a> LaidOut<'a> {
    // The number of entries.
    pub fn entry_count(self) -> usize
        ensures { result ≡ entry_count self.entry.file.now }
    {
        entry_count(self.file)
    }

    // Entry i.
    pub fn entry(self, i: usize) -> Entry
        requires { i < entry_count self.file.now }
        ensures { (result.kind ≡ entry_kind self.entry.file.now i) × (result.offset ≡ body_offset self.entry.file.now i)
            × (result.length ≡ body_length self.entry.file.now i)
            × (result.offset + result.length ≤ length self.entry.file.now) }
    {
        Entry::read(self.file, i)
    }

    // Body i.
    pub fn body(self, i: usize) -> &'a [u8]
        requires { i < entry_count self.file.now }
        ensures { (result.now ≡ take (body_length self.entry.file.now i) (drop (body_offset self.entry.file.now i) self.entry.file.now))
            × (length result.now ≡ body_length self.entry.file.now i) }
    {
        let Entry { offset, length, .. } = self.entry(i);
        &self.file[offset..offset + length]
    }

    // Row 3: nets body not 4 bytes, or another not a multiple of 8, of kind 4 not 1 byte more than one.
    fn bad_bodies(self) -> bool
        ensures { result ≡ bad_bodies self.entry.file.now }
    {
        if self.entry(0).length != NETS_SIZE {
            return true;
        }
        for i in 1..self.entry_count() {
            let entry = self.entry(i);
            if entry.length % 8 != entry.lead() {
                return true;
            }
        }
        false
    }
}

// A file that is a job file: rows 2 and 3 do not hold.
#[derive(Clone, Copy)]
pub struct JobFile<'a> {
    pub laid_out: LaidOut<'a>,
    ghost complete: { bad_bodies laid_out.file.now ≡ false },
}

// Rows 1, 2 and 3.
#[tactic(auto, unfolding(words::specs::Answers::by_tests))]
pub fn admit_file(file: &[u8]) -> Result<JobFile<'_>, Refusal>
    ensures rows { admission_of result
        ≡ by_tests ((1, bad_mark file.now) ∷ (2, bad_layout file.now) ∷ (3, bad_bodies file.now) ∷ []) tt }
    ensures admitted { IfOk result (λ job. job.laid_out.file.now ≡ file.now) }
{
    refuse_if(jobfile::bad_mark(file), Refusal::JobMark)?;
    refuse_if(bad_layout(file), Refusal::JobLayout)?;
    let laid_out = LaidOut { file };
    refuse_if(laid_out.bad_bodies(), Refusal::JobBodies)?;
    Ok(JobFile { laid_out })
}
