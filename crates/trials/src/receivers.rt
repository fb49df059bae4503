// The receivers of the calls of a table.
ghost use Rattle.std.specs.Prelude.{◌≤◌, length};

use crate::read::Words;
use crate::{read, show};
use std::fmt;

// A list with the net of each receiver, the first `count` of an array: unlike `Words`, it is copied, as a setting is.
#[derive(Clone, Copy)]
pub struct Owners {
    count: usize,
    nets: [u64; 65],
    ghost within: { count ≤ 65 },
}

impl Owners {
    fn of(list: &[u64]) -> Owners
        requires { length list.now ≤ 65 }
    {
        let mut nets = [0; 65];
        nets[..list.len()].copy_from_slice(list);
        Owners {
            count: list.len(),
            nets,
        }
    }

    pub(crate) fn as_slice(&self) -> &[u64] {
        &self.nets[..self.count]
    }
}

// One receiver a net, whatever the nets are; or a list. The names say more than an `Option` of a list would.
#[derive(Clone, Copy)]
pub enum Receivers {
    Own,
    Given(Owners),
}

// The list of one receiver a net by the call *own receivers*; none if the call refuses n.
fn own(nets: u64) -> Words {
    let mut list = Words::from([0; 65]);
    let count = network::own_receivers(nets, list.as_mut_slice()).unwrap_or(0);
    list.truncate(count as usize);
    list
}

impl Receivers {
    // What a line says of the receivers: after their name, `own`, or a space and the net of each receiver, or nothing.
    pub fn read(line: &[u8]) -> Option<Receivers> {
        match line.strip_prefix(b"receivers")? {
            b" own" => Some(Receivers::Own),
            list @ ([] | [b' ', ..]) => {
                let list: Words = read::numbers(list)?;
                Some(Receivers::Given(Owners::of(list.as_slice())))
            }
            _ => None,
        }
    }

    // The list that a call on n nets is given.
    pub fn list(&self, nets: u64) -> Words {
        match self {
            Receivers::Own => own(nets),
            Receivers::Given(owners) => {
                let mut list = Words::from(owners.nets);
                list.truncate(owners.count);
                list
            }
        }
    }
}

// What is shown of the receivers of a call: nothing if there is one a net.
impl fmt::Display for Receivers {
    fn fmt<W: fmt::Write>(&self, f: &mut fmt::Formatter<W>) -> fmt::Result {
        match self {
            Receivers::Own => Ok(()),
            Receivers::Given(owners) => write!(f, "{}", show::Receivers(owners.as_slice())),
        }
    }
}
