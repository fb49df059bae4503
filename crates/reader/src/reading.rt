// What a job file says: its content, and the rows of the test set and of the responses.
ghost use Rattle.std.specs.Prelude.{◌≡◌, true, false, ◌&&◌, ◌||◌, [], ◌∷◌, ◌++◌, ◌<◌, ◌≤◌, length, MatchOption, IfOk};
ghost use Rattle.words.specs.Answers.{by_tests};
ghost use Rattle.network.specs.Refusing.{admission_of};
ghost use Rattle.network.specs.Rows.{bad_response_count, has_high_bit, no_room};
ghost use Rattle.jobfile.specs.Layout.{file_kind, file_count, nets_size, nets_byte, file_network, file_class};
ghost use Rattle.jobfile.specs.Layout.{body_words, has_responses, file_responses};
ghost use Rattle.jobfile.specs.BodyKind.{number_of_kind};
ghost use Rattle.reader.specs.Stored.{stored_words};
ghost use Rattle.reader.specs.Reader.{file_body_tests};

use crate::layout::JobFile;
use crate::stored::{VectorsBody, words_in};
use jobfile::kind::BodyKind;
use network::Network;
use network::admitting::{Nets, admit_network};
use network::refusal::{Refusal, refuse_if};

impl<'a> JobFile<'a> {
    // Byte i of the nets body.
    fn nets_byte(self, i: usize) -> u64
        requires { i < nets_size }
        ensures { result ≡ nets_byte self.entry.laid_out.file.now i }
    {
        self.laid_out.body(0)[i] as u64
    }

    // The network: the first, the third and the fourth byte of the nets body.
    #[tactic(auto, unfolding(jobfile::specs::Layout::file_network))]
    pub fn network(self) -> Network
        ensures { result ≡ file_network self.entry.laid_out.file.now }
    {
        Network {
            nets: self.nets_byte(0),
            level: self.nets_byte(2),
            gate: self.nets_byte(3),
        }
    }

    // The class: the second byte of the nets body.
    #[tactic(auto, unfolding(jobfile::specs::Layout::file_class))]
    pub fn class(self) -> u64
        ensures { result ≡ file_class self.entry.laid_out.file.now }
    {
        self.nets_byte(1)
    }

    // The vectors' body.
    pub fn vectors(self) -> VectorsBody<'a>
        ensures kind { number_of_kind result.kind ≡ file_kind self.entry.laid_out.file.now }
        ensures count { result.count ≡ file_count self.entry.laid_out.file.now }
        ensures words { stored_words result.words.now ≡ body_words self.entry.laid_out.file.now 1 }
    {
        let body = self.laid_out.body(1);
        if self.laid_out.entry(1).net_by_net() {
            return VectorsBody {
                kind: BodyKind::NetByNet,
                count: body[0] as usize,
                words: words_in(&body[1..]),
            };
        }
        let words = words_in(body);
        VectorsBody {
            kind: BodyKind::Vectors,
            count: words.len(),
            words,
        }
    }

    // The words of the responses, if the file has a third entry.
    pub fn responses(self) -> Option<&'a [[u8; 8]]>
        ensures { MatchOption result (has_responses self.entry.laid_out.file.now ≡ false)
            (λ words. (has_responses self.entry.laid_out.file.now ≡ true)
            × (stored_words words.now ≡ file_responses self.entry.laid_out.file.now)) }
    {
        if self.laid_out.entry_count() != 3 {
            return None;
        }
        Some(words_in(self.laid_out.body(2)))
    }

    // The same, or no words.
    #[tactic(auto, using(crate::proofs::Bodies::responses_missing))]
    pub fn response_words(self) -> &'a [[u8; 8]]
        ensures { stored_words result.now ≡ file_responses self.entry.laid_out.file.now }
    {
        self.responses().unwrap_or(&[])
    }

    // The rows of the test set on the vectors' body. No word is read before rows 5, 6, 17, 20 and 7.
    fn admit_body(self) -> Result<Nets, Refusal>
        ensures rows { admission_of result ≡ by_tests (file_body_tests self.entry.laid_out.file.now) tt }
        ensures admitted { IfOk result (λ nets. nets.network ≡ file_network self.entry.laid_out.file.now) }
    {
        let nets = admit_network(self.network(), self.class())?;
        let vectors = self.vectors();
        refuse_if(vectors.bad_words(nets.network.nets), Refusal::VectorCount)?;
        let width = vectors.width(nets.network.nets);
        refuse_if(
            crate::stored::has_high_bit(width, vectors.words),
            Refusal::VectorBits,
        )?;
        Ok(nets)
    }

    // Row 9: a third entry that has not as many responses as there are vectors.
    fn bad_responses(self) -> bool
        ensures { result ≡ has_responses self.entry.laid_out.file.now
            && bad_response_count (file_count self.entry.laid_out.file.now)
            (length (file_responses self.entry.laid_out.file.now)) }
    {
        let sent = self.vectors().count;
        match self.responses() {
            Some(words) => network::refusals::bad_response_count(sent, words.len()),
            None => false,
        }
    }

    // Row 10: a third entry with a response that has a bit at or above n.
    fn wide_response(self, nets: Nets) -> bool
        ensures { result ≡ has_responses self.entry.laid_out.file.now
            && has_high_bit nets.network.nets (file_responses self.entry.laid_out.file.now) }
    {
        match self.responses() {
            Some(words) => crate::stored::has_high_bit(nets.network.nets, words),
            None => false,
        }
    }

    // The rows of the test set, 9 and 10. No word of a response is read before row 9.
    pub fn admit_job(self) -> Result<(), Refusal>
        ensures { let f = self.entry.laid_out.file.now in admission_of result
            ≡ by_tests (file_body_tests f ++ (9, has_responses f && bad_response_count (file_count f) (length (file_responses f)))
            ∷ (10, has_responses f && has_high_bit (file_network f).nets (file_responses f)) ∷ []) tt }
    {
        let nets = self.admit_body()?;
        refuse_if(self.bad_responses(), Refusal::ResponseCount)?;
        refuse_if(self.wide_response(nets), Refusal::ResponseBits)?;
        Ok(())
    }
}

// Row 12: either list shorter than its words.
pub fn no_room(vectors: usize, vectors_room: usize, responses: usize, responses_room: usize) -> bool
    ensures { result ≡ no_room vectors vectors_room || no_room responses responses_room }
{
    network::refusals::no_room(vectors, vectors_room)
        | network::refusals::no_room(responses, responses_room)
}
