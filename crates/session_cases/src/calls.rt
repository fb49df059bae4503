// The calls on a session's record. A line is one of these:
//     1 n room                    begin, with the soft level, the gate and the receivers set; `room` is the length of
//                                 the list lent, at most 64
//     2 room: answers             first answers
//     3: answers                  second answers
//     4: words; words             the vectors to drive next, of these two lists
//     5 step n first reach spent  no call: the record is filled with these numbers, and with the level, the gate and
//                                 the receivers set, the owners after them 0; a seventh number is m, the number of
//                                 receivers, in place of the length of their list
use trials::read::Words;
use trials::{lent, read};

// The numbers of a record. Each entry of its first answers and of its reaches is the same.
#[derive(Clone, Copy, Debug)]
pub struct Numbers {
    pub step: u64,
    pub nets: u64,
    pub first: u64,
    pub reach: u64,
    pub spent: u64,
    pub receivers: Option<u64>,
}

// What a line gives.
#[derive(Drop)]
pub enum Call {
    Begin(u64, lent::List),
    FirstAnswers(Words, lent::List),
    SecondAnswers(Words),
    ToDrive(Words, Words),
    Fill(Numbers),
}

impl Call {
    // The call of a line, if it has its form.
    pub fn read(line: &[u8]) -> Option<Call> {
        match read::split_once(line, b':') {
            None => Call::of_numbers(line),
            Some((head, lists)) => Call::of_lists(head, lists),
        }
    }

    // The call of a line with no colon.
    fn of_numbers(line: &[u8]) -> Option<Call> {
        let numbers = read::numbers::<7>(line)?;
        match numbers.as_slice() {
            &[1, nets, room] => Some(Call::Begin(nets, lent::list(room)?)),
            [5, step, nets, first, reach, spent, receivers @ ..] => Some(Call::Fill(Numbers {
                step: *step,
                nets: *nets,
                first: *first,
                reach: *reach,
                spent: *spent,
                receivers: receivers.first().copied(),
            })),
            _ => None,
        }
    }

    // The call of a line with a colon, by what stands before it and after it.
    fn of_lists(head: &[u8], lists: &[u8]) -> Option<Call> {
        let head = read::numbers::<2>(head)?;
        match head.as_slice() {
            &[2, room] => Some(Call::FirstAnswers(read::numbers(lists)?, lent::list(room)?)),
            [3] => Some(Call::SecondAnswers(read::numbers(lists)?)),
            [4] => {
                let (first, second) = read::two_lists(lists)?;
                Some(Call::ToDrive(first, second))
            }
            _ => None,
        }
    }
}
