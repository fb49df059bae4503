// The record that the calls are made on, and what is shown of them.
use crate::calls::{Call, Numbers};
use network::Network;
use session::{Session, drive};
use std::{fmt, io};
use trials::setting::Setting;
use trials::show::{Named, Spaced};
use trials::{Trial, lent, show};

#[derive(Clone, Copy)]
pub struct Record(Session);

// What an accepted call left: what the record waits for, or its reaches and the count spent.
#[derive(Clone, Copy)]
struct Standing<'a>(&'a Session);

impl fmt::Display for Standing<'_> {
    fn fmt<W: fmt::Write>(&self, f: &mut fmt::Formatter<W>) -> fmt::Result {
        let Session {
            step,
            receivers,
            reaches,
            spent,
            ..
        } = self.0;
        match step {
            1 => write!(f, " waits for first answers"),
            2 => write!(f, " waits for second answers"),
            _ => {
                let count = reaches.len().min(*receivers as usize);
                write!(f, " finished{}, spent {spent}", Spaced(&reaches[..count]))
            }
        }
    }
}

// The vectors to drive next.
#[derive(Clone, Copy)]
struct Next<'a>(&'a [u64]);

impl fmt::Display for Next<'_> {
    fn fmt<W: fmt::Write>(&self, f: &mut fmt::Formatter<W>) -> fmt::Result {
        match self.0 {
            [] => write!(f, " nothing to drive"),
            vectors => write!(f, " drive{}", Spaced(vectors)),
        }
    }
}

// The owners of a record: those that a list begins with, and 0 in the entries after it.
fn owners_of(list: &[u64]) -> [u64; 64] {
    let mut owners = [0; 64];
    let count = list.len().min(owners.len());
    owners[..count].copy_from_slice(&list[..count]);
    owners
}

impl Record {
    // A record that is no call's.
    pub fn junk() -> Record {
        Record(Session {
            step: 7,
            network: Network {
                nets: 9,
                level: 6,
                gate: 8,
            },
            receivers: 2,
            owners: [1; 64],
            first: [5; 8],
            reaches: [3; 64],
            spent: 4,
        })
    }

    // Makes a call and shows what it was given and what it answered.
    fn make(&mut self, rt: &impl Print, setting: &Setting, call: Call) -> io::Result<()> {
        match call {
            Call::Begin(nets, list) => self.begin(rt, setting, nets, list),
            Call::FirstAnswers(answers, list) => self.first_answers(rt, answers.as_slice(), list),
            Call::SecondAnswers(answers) => self.second_answers(rt, answers.as_slice()),
            Call::ToDrive(first, second) => self.to_drive(rt, first.as_slice(), second.as_slice()),
            Call::Fill(numbers) => self.fill(rt, setting, numbers),
        }
    }

    // The call *begin*: the list written is the first one.
    fn begin(
        &mut self,
        rt: &impl Print,
        setting: &Setting,
        nets: u64,
        mut list: lent::List,
    ) -> io::Result<()> {
        let receivers = setting.receivers.list(nets);
        print!(rt; "begin {nets}{}; lent {} ->", setting.receivers, list.len())?;
        let net = setting.network(nets);
        let answer = session::begin(&mut self.0, net, receivers.as_slice(), list.as_mut_slice());
        if let Err(refusal) = answer {
            return lent::refused(rt, u64::from(refusal), list.as_slice());
        }
        let vectors = drive::to_drive(self.0, list.as_slice(), &[]);
        self.accepted(rt, vectors, list.as_slice())
    }

    // The call *first answers*: the list written is the second one.
    fn first_answers(
        &mut self,
        rt: &impl Print,
        answers: &[u64],
        mut list: lent::List,
    ) -> io::Result<()> {
        print!(rt;
            "first answers:{}; lent {} ->",
            Named(answers, "words"),
            list.len()
        )?;
        let answer = session::first_answers(&mut self.0, answers, list.as_mut_slice());
        if let Err(refusal) = answer {
            return lent::refused(rt, u64::from(refusal), list.as_slice());
        }
        let vectors = drive::to_drive(self.0, &[], list.as_slice());
        self.accepted(rt, vectors, list.as_slice())
    }

    // An accepted call with a lent list: the words written, as many as are to be driven, and the entries left; then the
    // record.
    fn accepted(&self, rt: &impl Print, vectors: &[u64], list: &[u64]) -> io::Result<()> {
        if vectors.is_empty() {
            print!(rt; " no words")?;
        }
        lent::wrote(rt, vectors.len(), list)?;
        print!(rt; ";")?;
        self.advanced(rt, vectors)
    }

    // What the record says after an accepted call, and the vectors to drive next.
    fn advanced(&self, rt: &impl Print, vectors: &[u64]) -> io::Result<()> {
        print!(rt; "{};{}", Standing(&self.0), Next(vectors))
    }

    // The call *second answers*.
    fn second_answers(&mut self, rt: &impl Print, answers: &[u64]) -> io::Result<()> {
        print!(rt; "second answers:{} ->", Named(answers, "words"))?;
        if let Err(refusal) = session::second_answers(&mut self.0, answers) {
            return show::refusal(rt, u64::from(refusal));
        }
        let vectors = drive::to_drive(self.0, answers, answers);
        self.advanced(rt, vectors)
    }

    // The vectors to drive next, of these two lists.
    fn to_drive(&self, rt: &impl Print, first: &[u64], second: &[u64]) -> io::Result<()> {
        let vectors = drive::to_drive(self.0, first, second);
        print!(rt;
            "lists:{};{} ->{}",
            Named(first, "words"),
            Named(second, "words"),
            Next(vectors)
        )
    }

    // No call: the record with these numbers, which are shown, and the number of its receivers where it is given.
    fn fill(&mut self, rt: &impl Print, setting: &Setting, numbers: Numbers) -> io::Result<()> {
        let Numbers {
            step,
            nets,
            first,
            reach,
            spent,
            receivers,
        } = numbers;
        let list = setting.receivers.list(nets);
        self.0 = Session {
            step,
            network: setting.network(nets),
            receivers: receivers.unwrap_or(list.len() as u64),
            owners: owners_of(list.as_slice()),
            first: [first; 8],
            reaches: [reach; 64],
            spent,
        };
        print!(rt; "record: step {step}, nets {nets}")?;
        if let Some(count) = receivers {
            print!(rt; ", m {count}")?;
        }
        print!(rt;
            ", first answers all {first}, reaches all {reach}, spent {spent}{}",
            setting.receivers
        )
    }
}

impl Trial for Record {
    // A line `session` starts a record of junk, and so does one that is unreadable.
    fn name(&mut self, rt: &impl Print, line: &[u8]) -> io::Result<()> {
        *self = Record::junk();
        match line {
            b"session" => println!(rt; "session"),
            _ => show::unreadable_line(rt),
        }
    }

    fn call(&mut self, rt: &impl Print, setting: &Setting, line: &[u8]) -> io::Result<()> {
        match Call::read(line) {
            Some(call) => self.make(rt, setting, call),
            None => show::unreadable(rt),
        }
    }
}
