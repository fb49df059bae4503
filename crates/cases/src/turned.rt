// The calls *turn* and *turn back*, which fill a lent list.
use std::io;
use trials::read::Words;
use trials::show::Named;
use trials::{lent, read, show};

// What a line gives *turn*: n and the length of the lent list, at most 64; after the colon the vectors.
fn given(line: &[u8]) -> Option<(u64, Words, lent::List)> {
    let ([nets, room], vectors) = read::with_list::<2>(line)?;
    Some((nets, vectors, lent::list(room)?))
}

// What a line gives *turn back*: n, the number of vectors and the length of the lent list, at most 64; after the colon
// the words.
fn given_back(line: &[u8]) -> Option<(u64, u64, Words, lent::List)> {
    let ([nets, count, room], words) = read::with_list::<3>(line)?;
    Some((nets, count, words, lent::list(room)?))
}

pub fn try_turn(rt: &impl Print, line: &[u8]) -> io::Result<()> {
    let Some((nets, vectors, mut list)) = given(line) else {
        return show::unreadable(rt);
    };
    let vectors = vectors.as_slice();
    print!(rt;
        "turn {nets}:{}; lent {} ->",
        Named(vectors, "vectors"),
        list.len()
    )?;
    let answer = turning::turn(nets, vectors, list.as_mut_slice());
    lent::answered(rt, answer, list.as_slice())
}

pub fn try_turn_back(rt: &impl Print, line: &[u8]) -> io::Result<()> {
    let Some((nets, count, words, mut list)) = given_back(line) else {
        return show::unreadable(rt);
    };
    let words = words.as_slice();
    print!(rt;
        "turn back {nets} {count}:{}; lent {} ->",
        Named(words, "words"),
        list.len()
    )?;
    let answer = turning::turn_back(nets, count, words, list.as_mut_slice());
    lent::answered(rt, answer, list.as_slice())
}
