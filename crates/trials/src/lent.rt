// A list that a call is lent, and what is shown of it after the call.
ghost use Rattle.std.specs.Prelude.{◌≡◌, ◌<◌, MatchOption, replicate};

use crate::show;
use crate::show::Spaced;
use arrayvec::ArrayVec;
use network::refusal::Refusal;
use std::{fmt, io};

// The most entries of a lent list.
const MOST: usize = 64;

// What each entry holds before the call.
const MARKER: u64 = 99;

// A lent list.
pub type List = ArrayVec<u64, MOST>;

// The list of `room` entries before the call, if it may have so many.
pub fn list(room: u64) -> Option<List>
    ensures { MatchOption result (64 < room) (λ list. list.items ≡ replicate room 99) }
{
    if MOST < room as usize {
        return None;
    }
    let mut list = List::from([MARKER; MOST]);
    list.truncate(room as usize);
    Some(list)
}

// The entries that a call left, and whether they are as they were before it.
#[derive(Clone, Copy)]
struct Rest<'a>(&'a [u64]);

impl fmt::Display for Rest<'_> {
    fn fmt<W: fmt::Write>(&self, f: &mut fmt::Formatter<W>) -> fmt::Result {
        if self.0.is_empty() {
            return Ok(());
        }
        let is_kept = self.0.iter().all(|&entry| entry == MARKER);
        let state = if is_kept { "kept" } else { "changed" };
        write!(f, ", {state}{}", Spaced(self.0))
    }
}

// A result: the words written, and the entries that the call left.
pub fn wrote(rt: &impl Print, count: usize, list: &[u64]) -> io::Result<()> {
    let (written, rest) = list.split_at(count.min(list.len()));
    print!(rt; "{}{}", Spaced(written), Rest(rest))
}

// A refusal.
pub fn refused(rt: &impl Print, number: u64, list: &[u64]) -> io::Result<()> {
    show::refusal(rt, number)?;
    print!(rt; "{}", Rest(list))
}

// What a call answered that writes a list: how many words it wrote, or the refusal.
pub fn answered(rt: &impl Print, answer: Result<u64, Refusal>, list: &[u64]) -> io::Result<()> {
    match answer {
        Ok(count) => wrote(rt, count as usize, list),
        Err(refusal) => refused(rt, refusal.into(), list),
    }
}
