// The lines of the report, each put at the end of a text. Helpers: the text has room.
ghost use Rattle.std.specs.Prelude.{◌≡◌, ◌++◌, ◌+◌, ◌≤◌, length};
ghost use Rattle.arrayvec.specs.ArrayVec.{array_vec_len};
ghost use Rattle.network.specs.OwnReceivers.{own_receivers};
ghost use Rattle.network.specs.States.{State};
ghost use Rattle.listing.specs.Report.{refused_line, verdict_line, net_line, net_lines};

use checker::Verdict;
use decimal::Page;
use findings::Finding;
use network::Network;
use network::admitting::Board;

// The line of a refusal.
pub fn put_refused(text: &mut Page, number: u64)
    requires { array_vec_len text.old + length (refused_line number) ≤ 4142 }
    ensures { text.new.items ≡ text.old.items ++ refused_line number }
{
    decimal::append_line(text, b"refused", &[number]);
}

// Line one.
pub fn put_verdict(text: &mut Page, net: Network, class: u64, count: u64, verdict: Verdict)
    requires { array_vec_len text.old + length (verdict_line net class count verdict) ≤ 4142 }
    ensures { text.new.items ≡ text.old.items ++ verdict_line net class count verdict }
{
    match verdict {
        Verdict::Pass => decimal::append_line(text, b"pass", &[net.nets, class, count]),
        Verdict::Pair(a, b) => decimal::append_line(text, b"pair", &[net.nets, class, count, a, b]),
    }
}

// The line of a net.
fn put_net(text: &mut Page, net: u64, found: Finding)
    requires { array_vec_len text.old + length (net_line net found) ≤ 4142 }
    ensures { text.new.items ≡ text.old.items ++ net_line net found }
{
    decimal::append_decimal(text, net);
    decimal::append_numbers(text, &[found.kind, found.reach, found.partners]);
}

// The lines of all nets of a board's wiring state, from the table of its findings. The receivers are one a net, so that
// the table has a record a net.
pub fn put_nets(text: &mut Page, board: Board, state: &[u64])
    requires own { board.receivers.now ≡ own_receivers board.nets.network.nets }
    requires state { State board.nets.network (length board.receivers.now) board.nets.network.nets state.now }
    requires room { array_vec_len text.old
        + length (net_lines board.nets.network state.now 0 board.nets.network.nets) ≤ 4142 }
    ensures { text.new.items ≡ text.old.items
        ++ net_lines board.entry.nets.network state.now 0 board.entry.nets.network.nets }
{
    let mut table = [Finding {
        kind: 0,
        reach: 0,
        partners: 0,
    }; 64];
    let _accepted = findings::findings(board.nets.network, board.receivers, state, &mut table);
    for i in 0..board.nets.network.nets {
        put_net(text, i, table[i as usize]);
    }
}
