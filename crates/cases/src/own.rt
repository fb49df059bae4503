// The call *own receivers*, which fills a lent list.
use std::io;
use trials::{lent, read, show};

// What a line gives: n, and the length of the lent list, at most 64.
fn given(line: &[u8]) -> Option<(u64, lent::List)> {
    let [nets, room] = read::exactly::<2>(line)?;
    Some((nets, lent::list(room)?))
}

pub fn try_line(rt: &impl Print, line: &[u8]) -> io::Result<()> {
    let Some((nets, mut list)) = given(line) else {
        return show::unreadable(rt);
    };
    print!(rt; "own receivers {nets}; lent {} ->", list.len())?;
    let answer = network::own_receivers(nets, list.as_mut_slice());
    lent::answered(rt, answer, list.as_slice())
}
