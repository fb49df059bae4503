// The call *findings* with a blank table of 64 records lent. A line gives n, then the reaches; with a receiver after n
// it asks for that receiver's record alone. Where there is one receiver a net, its number is the net's.
use findings::Finding;
use std::{fmt, io};
use trials::read::Words;
use trials::receivers::Receivers;
use trials::setting::Setting;
use trials::show::Named;
use trials::{read, show};

// Kind, reach and partners of each record.
#[derive(Clone, Copy)]
struct Records<'a>(&'a [Finding]);

impl fmt::Display for Records<'_> {
    fn fmt<W: fmt::Write>(&self, f: &mut fmt::Formatter<W>) -> fmt::Result {
        let mut comma = "";
        for finding in self.0 {
            write!(
                f,
                "{comma} {} {} {}",
                finding.kind, finding.reach, finding.partners
            )?;
            comma = ",";
        }
        Ok(())
    }
}

// How many records are left as they were, if all of them are.
#[derive(Clone, Copy)]
struct Rest<'a>(&'a [Finding]);

impl fmt::Display for Rest<'_> {
    fn fmt<W: fmt::Write>(&self, f: &mut fmt::Formatter<W>) -> fmt::Result {
        if self.0.iter().all(|&finding| finding == BLANK) {
            write!(f, ", kept {}", self.0.len())
        } else {
            write!(f, ", changed")
        }
    }
}

// A record with nothing in it.
const BLANK: Finding = Finding {
    kind: 0,
    reach: 0,
    partners: 0,
};

// Shows the call and its result: the refusal, or a record a receiver; then how many records are left as they were.
fn try_findings(rt: &impl Print, setting: &Setting, nets: u64, state: &[u64]) -> io::Result<()> {
    let receivers = setting.receivers.list(nets);
    let mut table = [BLANK; 64];
    let answer = findings::findings(
        setting.network(nets),
        receivers.as_slice(),
        state,
        &mut table,
    );
    print!(rt;
        "findings {nets}:{}{}; lent {} ->",
        Named(state, "reaches"),
        setting.receivers,
        table.len()
    )?;
    if let Err(refusal) = answer {
        show::refusal(rt, u64::from(refusal))?;
        return print!(rt; "{}", Rest(&table));
    }
    let (filled, rest) = table.split_at(receivers.len().min(table.len()));
    print!(rt; "{}{}", Records(filled), Rest(rest))
}

// Shows the call and receiver r's record of its result.
fn try_finding(
    rt: &impl Print,
    setting: &Setting,
    nets: u64,
    r: u64,
    state: &[u64],
) -> io::Result<()> {
    let receivers = setting.receivers.list(nets);
    let mut table = [BLANK; 64];
    let answer = findings::findings(
        setting.network(nets),
        receivers.as_slice(),
        state,
        &mut table,
    );
    let record_of = match setting.receivers {
        Receivers::Own => "net",
        Receivers::Given(_) => "receiver",
    };
    print!(rt;
        "finding {nets} {record_of} {r}:{}{} ->",
        Named(state, "reaches"),
        setting.receivers
    )?;
    if let Err(refusal) = answer {
        return show::refusal(rt, u64::from(refusal));
    }
    let mut filled = table.iter().take(receivers.len());
    match filled.nth(r as usize) {
        Some(finding) => print!(rt;
            " kind {}, reach {}, partners {}",
            finding.kind, finding.reach, finding.partners
        ),
        None => print!(rt; " no such receiver"),
    }
}

// What a line of all records gives: n, and after the colon the reaches.
fn given(line: &[u8]) -> Option<(u64, Words)> {
    let ([nets], reaches) = read::with_list::<1>(line)?;
    Some((nets, reaches))
}

// What a line of one record gives: n and a receiver, and after the colon the reaches.
fn given_one(line: &[u8]) -> Option<(u64, u64, Words)> {
    let ([nets, r], reaches) = read::with_list::<2>(line)?;
    Some((nets, r, reaches))
}

pub fn try_line(rt: &impl Print, setting: &Setting, line: &[u8]) -> io::Result<()> {
    if let Some((nets, reaches)) = given(line) {
        return try_findings(rt, setting, nets, reaches.as_slice());
    }
    if let Some((nets, r, reaches)) = given_one(line) {
        return try_finding(rt, setting, nets, r, reaches.as_slice());
    }
    show::unreadable(rt)
}
