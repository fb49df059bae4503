// The bench examples for the session, its refusals, and records that no calls leave, with both gates at both soft
// levels, and with one receiver a net and several. Standard input has them, a call a line (calls.rt). After a line
// `session`, the lines are calls on one record, which is junk at first, the soft level is 1, the gate 0, and there is
// one receiver a net; a line `level L`, `gate G`, or `receivers` with the net of each receiver gives that of the lines
// after it, up to the next line of its name, and `receivers own` is one receiver a net. A line a call: what it was
// given, and what it answered; `session`, `level`, `gate` and `receivers` lines are shown too, and what has not its
// form as unreadable. The receivers of a call or of a record are shown unless they are one a net. `lent` gives the
// length of the list lent, and after `kept` stand its entries that the call left as they were; after an accepted call
// stand what the record then says, and the vectors to drive next.

#![tactic(auto)]

mod calls;
mod record;

use record::Record;
use std::io;

fn main(rt: HostRuntime) -> io::Result<()> {
    let mut buffer = [0; 65536];
    let count = trials::input(&rt, &mut buffer);
    trials::try_each(&rt, &mut Record::junk(), &buffer[..count])
}
