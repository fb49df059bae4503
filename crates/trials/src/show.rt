// What is shown of lists and sets, and of a line that is not read.
use std::{fmt, io};

// A list of more words than this is long.
const SHOWN: usize = 8;

// A line of the input that has not the form it should have.
pub fn unreadable(rt: &impl Print) -> io::Result<()> {
    print!(rt; "unreadable line")
}

// The same for a line that is no call's, and so has a line to itself.
pub fn unreadable_line(rt: &impl Print) -> io::Result<()> {
    unreadable(rt)?;
    println!(rt)
}

// A refusal.
pub fn refusal(rt: &impl Print, number: u64) -> io::Result<()> {
    print!(rt; " refused {number}")
}

// The words of a list, each with a space before it.
#[derive(Clone, Copy)]
pub struct Spaced<'a>(pub &'a [u64]);

impl fmt::Display for Spaced<'_> {
    fn fmt<W: fmt::Write>(&self, f: &mut fmt::Formatter<W>) -> fmt::Result {
        for word in self.0 {
            write!(f, " {word}")?;
        }
        Ok(())
    }
}

// A list with the name of its words. Of a long one the count and the last word.
#[derive(Clone, Copy)]
pub struct Named<'a>(pub &'a [u64], pub &'static str);

impl fmt::Display for Named<'_> {
    fn fmt<W: fmt::Write>(&self, f: &mut fmt::Formatter<W>) -> fmt::Result {
        let name = self.1;
        match self.0 {
            [] => write!(f, " no {name}"),
            [.., last] if SHOWN < self.0.len() => {
                write!(f, " {} {name} ending in {last}", self.0.len())
            }
            words => write!(f, "{}", Spaced(words)),
        }
    }
}

// The receivers of a call, the net of each; of a long list as of any list.
#[derive(Clone, Copy)]
pub struct Receivers<'a>(pub &'a [u64]);

impl fmt::Display for Receivers<'_> {
    fn fmt<W: fmt::Write>(&self, f: &mut fmt::Formatter<W>) -> fmt::Result {
        if (1..=SHOWN).contains(&self.0.len()) {
            return write!(f, "; receivers{}", Spaced(self.0));
        }
        write!(f, ";{}", Named(self.0, "receivers"))
    }
}

// A test set: n, k and the vectors.
#[derive(Clone, Copy)]
pub struct Set<'a>(pub u64, pub u64, pub &'a [u64]);

impl fmt::Display for Set<'_> {
    fn fmt<W: fmt::Write>(&self, f: &mut fmt::Formatter<W>) -> fmt::Result {
        write!(f, "{} {}:{}", self.0, self.1, Named(self.2, "vectors"))
    }
}
