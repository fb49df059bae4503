// Trying the lines of a table. A line names the call that the lines after it make: `check`, `own receivers`, `respond`,
// `diagnose`, `findings`, `shorten`, `turn` or `turn back`. A line `level L` gives the soft level of the calls on the
// lines after it, a line `gate G` their gate, and a line `receivers` with the net of each receiver their receivers,
// each up to the next line of its name; `receivers own` is one receiver a net. At the start, and after a line that
// names a call, the level is 1, the gate 0, and there is one receiver a net. A line that has not the form of its call,
// or begins with `level` or `gate` and does not go on with a space and one number, or with `receivers` and goes on with
// no list, is shown as unreadable.
use crate::{checking, finding, own, responding, shortening, turned};
use std::io;
use trials::setting::Setting;
use trials::{Trial, show};

#[derive(Clone, Copy, Debug, PartialEq, Eq)]
enum Call {
    Check,
    OwnReceivers,
    Response,
    Diagnosis,
    Findings,
    Shortening,
    Turning,
    TurningBack,
}

impl Call {
    fn named(name: &[u8]) -> Option<Call> {
        match name {
            b"check" => Some(Call::Check),
            b"own receivers" => Some(Call::OwnReceivers),
            b"respond" => Some(Call::Response),
            b"diagnose" => Some(Call::Diagnosis),
            b"findings" => Some(Call::Findings),
            b"shorten" => Some(Call::Shortening),
            b"turn" => Some(Call::Turning),
            b"turn back" => Some(Call::TurningBack),
            _ => None,
        }
    }

    // Makes the call that a line gives.
    fn try_line(self, rt: &impl Print, setting: &Setting, line: &[u8]) -> io::Result<()> {
        match self {
            Call::Check => checking::try_line(rt, setting, line),
            Call::OwnReceivers => own::try_line(rt, line),
            Call::Response => responding::try_response(rt, setting, line),
            Call::Diagnosis => responding::try_diagnosis(rt, setting, line),
            Call::Findings => finding::try_line(rt, setting, line),
            Call::Shortening => shortening::try_line(rt, setting, line),
            Call::Turning => turned::try_turn(rt, line),
            Call::TurningBack => turned::try_turn_back(rt, line),
        }
    }
}

// The call that the lines make, where one is named.
#[derive(Clone, Copy, Debug, Default)]
pub struct Calls {
    call: Option<Call>,
}

impl Trial for Calls {
    fn name(&mut self, rt: &impl Print, line: &[u8]) -> io::Result<()> {
        self.call = Call::named(line);
        match self.call {
            Some(_) => Ok(()),
            None => show::unreadable_line(rt),
        }
    }

    fn call(&mut self, rt: &impl Print, setting: &Setting, line: &[u8]) -> io::Result<()> {
        match self.call {
            Some(call) => call.try_line(rt, setting, line),
            None => show::unreadable(rt),
        }
    }
}
