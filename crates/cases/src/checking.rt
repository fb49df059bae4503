// The call *check*.
use checker::Verdict;
use network::refusal::Refusal;
use std::io;
use trials::read::Words;
use trials::setting::Setting;
use trials::show::Set;
use trials::{read, show};

fn answered(rt: &impl Print, answer: Result<Verdict, Refusal>) -> io::Result<()> {
    match answer {
        Ok(Verdict::Pass) => print!(rt; " pass"),
        Ok(Verdict::Pair(a, b)) => print!(rt; " pair {a} {b}"),
        Err(refusal) => show::refusal(rt, refusal.into()),
    }
}

// What a line gives: n and k, and after the colon the vectors.
fn given(line: &[u8]) -> Option<(u64, u64, Words)> {
    let ([nets, class], vectors) = read::with_list::<2>(line)?;
    Some((nets, class, vectors))
}

pub fn try_line(rt: &impl Print, setting: &Setting, line: &[u8]) -> io::Result<()> {
    let Some((nets, class, vectors)) = given(line) else {
        return show::unreadable(rt);
    };
    let vectors = vectors.as_slice();
    print!(rt; "check {} ->", Set(nets, class, vectors))?;
    answered(rt, checker::check(setting.network(nets), class, vectors))
}
