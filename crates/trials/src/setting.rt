// What lines of a table say of the networks and the receivers of the calls after them.
use crate::receivers::Receivers;
use crate::show::Spaced;
use crate::{read, show};
use network::Network;
use std::io;

// All that a call takes of a board but the number of its nets: the soft level, the gate and the receivers.
#[derive(Clone, Copy)]
pub struct Setting {
    pub level: u64,
    pub gate: u64,
    pub receivers: Receivers,
}

// The setting where no line says another: level 1, OR, and one receiver a net.
impl Default for Setting {
    fn default() -> Setting {
        Setting {
            level: 1,
            gate: 0,
            receivers: Receivers::Own,
        }
    }
}

// Whether a line is of those that this file reads: it begins with the name of a part of the setting.
pub fn is_setting(line: &[u8]) -> bool {
    line.starts_with(b"level") || line.starts_with(b"gate") || line.starts_with(b"receivers")
}

// The one number of a line after a name and a space.
fn number_after(line: &[u8], name: &[u8]) -> Option<u64> {
    let [number] = read::exactly::<1>(line.strip_prefix(name)?)?;
    Some(number)
}

impl Setting {
    // The network of n nets in this setting.
    pub fn network(&self, nets: u64) -> Network {
        Network {
            nets,
            level: self.level,
            gate: self.gate,
        }
    }

    // Takes what a line says that is of those that this file reads, and shows it. The line gives one part, and the
    // others stay; one that has not its form is shown as unreadable and changes nothing.
    pub fn change(&mut self, rt: &impl Print, line: &[u8]) -> io::Result<()> {
        if let Some(level) = number_after(line, b"level ") {
            self.level = level;
            return println!(rt; "level {level}");
        }
        if let Some(gate) = number_after(line, b"gate ") {
            self.gate = gate;
            return println!(rt; "gate {gate}");
        }
        match Receivers::read(line) {
            Some(receivers) => self.change_receivers(rt, receivers),
            None => show::unreadable_line(rt),
        }
    }

    fn change_receivers(&mut self, rt: &impl Print, receivers: Receivers) -> io::Result<()> {
        self.receivers = receivers;
        match &self.receivers {
            Receivers::Own => println!(rt; "receivers own"),
            Receivers::Given(owners) => println!(rt; "receivers{}", Spaced(owners.as_slice())),
        }
    }
}
