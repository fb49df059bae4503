// The vectors to drive next.
ghost use Rattle.std.specs.Prelude.{◌≡◌};
ghost use Rattle.session.specs.Drive.{front, to_drive};

use crate::{Session, record};

// This many words from the start of a list, or none if it is shorter.
fn front(count: usize, words: &[u64]) -> &[u64]
    ensures { result.now ≡ front count words.now }
{
    if count <= words.len() {
        return &words[..count];
    }
    &words[..0]
}

// The vectors to drive next: of the first list or of the second, by what the record waits for.
pub fn to_drive<'a>(session: Session, first: &'a [u64], second: &'a [u64]) -> &'a [u64]
    ensures { result.now ≡ to_drive session first.now second.now }
{
    if let Some(board) = record::waiting_for_first(&session) {
        let p = steps::first::word_length(board.nets) as usize;
        return front(p, first);
    }
    if let Some(asked) = record::waiting_for_second(&session) {
        return front(asked.vectors.len(), second);
    }
    &first[..0]
}
