// The call *shorten*, which fills a lent list.
use network::refusal::Refusal;
use shorter::Shortened;
use std::io;
use trials::read::Words;
use trials::setting::Setting;
use trials::show::Set;
use trials::{lent, read, show};

// What a line gives: n, k, the length of the lent list, at most 64, and the checks allowed; after the colon the
// vectors.
#[derive(Drop)]
struct Given {
    nets: u64,
    class: u64,
    allowed: u64,
    vectors: Words,
    list: lent::List,
}

impl Given {
    fn read(line: &[u8]) -> Option<Given> {
        let ([nets, class, room, allowed], vectors) = read::with_list::<4>(line)?;
        let list = lent::list(room)?;
        Some(Given {
            nets,
            class,
            allowed,
            vectors,
            list,
        })
    }
}

// A result: the vectors kept and the entries that the call left, the checks made, and the floor.
fn answered(rt: &impl Print, answer: Result<Shortened, Refusal>, list: &[u64]) -> io::Result<()> {
    match answer {
        Ok(counts) => {
            lent::wrote(rt, counts.kept as usize, list)?;
            print!(rt; "; checks {}; floor {}", counts.checks, counts.floor)
        }
        Err(refusal) => lent::refused(rt, refusal.into(), list),
    }
}

pub fn try_line(rt: &impl Print, setting: &Setting, line: &[u8]) -> io::Result<()> {
    let Some(given) = Given::read(line) else {
        return show::unreadable(rt);
    };
    let Given {
        nets,
        class,
        allowed,
        vectors,
        mut list,
    } = given;
    let vectors = vectors.as_slice();
    print!(rt;
        "shorten {}; allowed {allowed}; lent {} ->",
        Set(nets, class, vectors),
        list.len()
    )?;
    let net = setting.network(nets);
    let answer = shorter::shorten(net, class, vectors, allowed, list.as_mut_slice());
    answered(rt, answer, list.as_slice())
}
