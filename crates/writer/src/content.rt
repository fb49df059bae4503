// What a job file says, and its bytes. Helpers: those that put bytes into the front of a lent file, or of a part of one,
// ask for room.
ghost use Rattle.std.specs.Prelude.{◌≡◌, ◌∷◌, ◌+◌, ◌*◌, ◌≤◌, length};
ghost use Rattle.words.specs.Answers.{full, lent_after};
ghost use Rattle.words.specs.Turning.{transpose};
ghost use Rattle.jobfile.specs.Bytes.{word_bytes};
ghost use Rattle.jobfile.specs.Layout.{bodies_at, nets_bytes, nets_size};
ghost use Rattle.writer.specs.Writer.{entries_for, response_entry, head_of, bodies_of};
ghost use Rattle.jobfile.specs.BodyKind.{number_of_kind};

use crate::putting::{put_entry, put_words};
use jobfile::NETS_SIZE;
use jobfile::kind::BodyKind;
use network::admitting::TestSet;
use words::Ptv;

// What a job file says: a test set that the rows admit, and its responses, at most 64.
#[derive(Clone, Copy)]
pub struct Content<'a> {
    pub kind: BodyKind,
    pub set: TestSet<'a>,
    pub responses: &'a [u64],
    ghost few: { length responses.now ≤ 64 },
}

impl Content<'_> {
    ghost use Rattle.writer.specs.Content.{body_of, bytes_of_content};

    // How many entries the table has.
    fn entries(&self) -> usize
        ensures { (result ≡ entries_for self.now.responses.now) × (result ≤ 3) }
    {
        if self.responses.is_empty() { 2 } else { 3 }
    }

    // Where the bodies begin.
    fn start(&self) -> usize
        ensures { (result ≡ bodies_at (entries_for self.now.responses.now)) × (result ≤ 32) }
    {
        5 + 9 * self.entries()
    }

    // How many bytes the vectors' body has.
    fn vectors_size(&self) -> usize
        ensures { (result ≡ length (body_of self.now)) × (result ≤ 512) }
    {
        match self.kind {
            BodyKind::Vectors => 8 * self.set.vectors.len(),
            BodyKind::NetByNet => 1 + 8 * self.set.nets.network.nets as usize,
        }
    }

    // How many bytes the file has.
    pub fn size(&self) -> usize
        ensures { result ≡ length (bytes_of_content self.now) }
    {
        self.start() + NETS_SIZE + self.vectors_size() + 8 * self.responses.len()
    }

    // The entry of the responses, if there are any, with their body from `body` on.
    fn put_response_entry(&self, file: &mut [u8], body: usize)
        requires { length (response_entry body self.now.responses.now) ≤ length file.old }
        ensures { file.new ≡ lent_after (full (response_entry body self.now.responses.now)) file.old }
    {
        let count = self.responses.len();
        if 0 < count {
            put_entry(file, 3, body, 8 * count);
        }
    }

    // What stands before the bodies.
    fn put_head(&self, file: &mut [u8])
        requires { bodies_at (entries_for self.now.responses.now) ≤ length file.old }
        ensures { let size = length (body_of self.now) in file.new
            ≡ lent_after (full (head_of (number_of_kind self.now.kind) size self.now.responses.now)) file.old }
    {
        let entries = self.entries();
        let start = self.start();
        let size = self.vectors_size();
        jobfile::put_mark(file);
        file[4] = entries as u8;
        put_entry(&mut file[5..], 1, start, NETS_SIZE);
        put_entry(
            &mut file[14..],
            u8::from(self.kind),
            start + NETS_SIZE,
            size,
        );
        self.put_response_entry(&mut file[23..], start + NETS_SIZE + size);
    }

    // The nets body.
    fn put_nets(&self, file: &mut [u8])
        requires { nets_size ≤ length file.old }
        ensures { file.new ≡ lent_after (full (nets_bytes self.now.set.nets.network self.now.set.class)) file.old }
    {
        let net = self.set.nets.network;
        let bytes = [
            net.nets as u8,
            self.set.class as u8,
            net.level as u8,
            net.gate as u8,
        ];
        file[..NETS_SIZE].copy_from_slice(&bytes);
    }

    // The vectors' body net by net: their number, then the sequential words.
    fn put_turned(&self, file: &mut [u8])
        requires { 1 + 8 * self.now.set.nets.network.nets ≤ length file.old }
        ensures { let set = self.now.set in file.new ≡ lent_after
            (full (length set.vectors.now ∷ word_bytes (transpose set.nets.network.nets set.vectors.now))) file.old }
    {
        let nets = self.set.nets.network.nets;
        let mut turned = [0u64; 48];
        turning::fill::<Ptv>(self.set.vectors, nets, &mut turned);
        file[0] = self.set.vectors.len() as u8;
        put_words(&mut file[1..], &turned[..nets as usize]);
    }

    // The vectors' body.
    fn put_vectors(&self, file: &mut [u8])
        requires { length (body_of self.now) ≤ length file.old }
        ensures { file.new ≡ lent_after (full (body_of self.now)) file.old }
    {
        match self.kind {
            BodyKind::Vectors => put_words(file, self.set.vectors),
            BodyKind::NetByNet => self.put_turned(file),
        }
    }

    // The bodies.
    fn put_bodies(&self, file: &mut [u8])
        requires { nets_size + length (body_of self.now) + 8 * length self.now.responses.now ≤ length file.old }
        ensures { let set = self.now.set in file.new ≡ lent_after
            (full (bodies_of set.nets.network set.class (body_of self.now) self.now.responses.now)) file.old }
    {
        let size = self.vectors_size();
        self.put_nets(file);
        self.put_vectors(&mut file[NETS_SIZE..]);
        put_words(&mut file[NETS_SIZE + size..], self.responses);
    }

    // The whole file.
    pub fn put(&self, file: &mut [u8])
        requires { length (bytes_of_content self.now) ≤ length file.old }
        ensures { file.new ≡ lent_after (full (bytes_of_content self.now)) file.old }
    {
        let start = self.start();
        self.put_head(file);
        self.put_bodies(&mut file[start..]);
    }
}
