// The calls on a board and a test set that fill a lent list: *response from a state* and *diagnosis*.
use network::Network;
use network::refusal::Refusal;
use std::io;
use trials::read::Words;
use trials::setting::Setting;
use trials::show::{Named, Set};
use trials::{lent, read, show};

// What a line gives: n, k and the length of the lent list, at most 64; after the colon the vectors; after the semicolon
// the reaches, or the responses.
#[derive(Drop)]
struct Given {
    nets: u64,
    class: u64,
    vectors: Words,
    words: Words,
    list: lent::List,
}

impl Given {
    fn read(line: &[u8]) -> Option<Given> {
        let (head, lists) = read::split_once(line, b':')?;
        let [nets, class, room] = read::exactly::<3>(head)?;
        let (vectors, words) = read::two_lists(lists)?;
        let list = lent::list(room)?;
        Some(Given {
            nets,
            class,
            vectors,
            words,
            list,
        })
    }
}

// Tries a line by one of the two calls, of this name and with words of this name.
fn try_line<C>(
    rt: &impl Print,
    setting: &Setting,
    line: &[u8],
    name: &'static str,
    words_name: &'static str,
    call: C,
) -> io::Result<()>
where
    C: Fn(Network, &[u64], u64, &[u64], &[u64], &mut [u64]) -> Result<u64, Refusal>,
    requires { C.IsAlwaysCallable call }
{
    let Some(given) = Given::read(line) else {
        return show::unreadable(rt);
    };
    let Given {
        nets,
        class,
        vectors,
        words,
        mut list,
    } = given;
    print!(rt;
        "{name} {};{}{}; lent {} ->",
        Set(nets, class, vectors.as_slice()),
        Named(words.as_slice(), words_name),
        setting.receivers,
        list.len()
    )?;
    let answer = call(
        setting.network(nets),
        setting.receivers.list(nets).as_slice(),
        class,
        vectors.as_slice(),
        words.as_slice(),
        list.as_mut_slice(),
    );
    lent::answered(rt, answer, list.as_slice())
}

pub fn try_response(rt: &impl Print, setting: &Setting, line: &[u8]) -> io::Result<()> {
    let call = network::response_from_state;
    try_line(rt, setting, line, "response", "reaches", call)
}

pub fn try_diagnosis(rt: &impl Print, setting: &Setting, line: &[u8]) -> io::Result<()> {
    let call = diagnosis::diagnose;
    try_line(rt, setting, line, "diagnosis", "responses", call)
}
