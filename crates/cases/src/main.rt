// The bench examples for the checker, the response from a state, the diagnosis and the findings, the refusals listed
// there, sets made shorter by dropping vectors, sets turned and turned back, and inputs at the limits, with both gates
// at both soft levels, and with one receiver a net and several. Standard input has them, a call a line (calls.rt). A
// line a call: what it was given, and what it answered; and a line `level`, `gate` or `receivers` where another soft
// level, another gate or other receivers begin. The receivers of a call are shown unless they are one a net. `lent`
// gives the length of the list lent, and after `kept` stand its entries that the call left as they were; of a table of
// findings their number. `allowed` gives the checks that *shorten* may make; after the vectors that it keeps, and the
// entries that it left, stand the checks that it made and the floor. On its lines too `kept` is of the lent list.

#![tactic(auto)]

mod calls;
mod checking;
mod finding;
mod own;
mod responding;
mod shortening;
mod turned;

use calls::Calls;
use std::io;

fn main(rt: HostRuntime) -> io::Result<()> {
    let mut buffer = [0; 65536];
    let count = trials::input(&rt, &mut buffer);
    trials::try_each(&rt, &mut Calls::default(), &buffer[..count])
}
