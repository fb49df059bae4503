// The report on the job file that standard input holds.

#![tactic(auto)]

ghost use Rattle.std.specs.Prelude.{◌≡◌, length};
ghost use Rattle.listing.specs.Report.{deciding_bytes};
ghost use Rattle.report.specs.Input.{Within};

use std::io::{self, Read};

// How many bytes were read: to the end of standard input, or to the end of the buffer. `Within` tells the two apart.
#[derive(Clone, Copy, Debug, PartialEq, Eq)]
enum Input {
    Ended(usize),
    Full(usize),
}

// Reads to the end of standard input, or until the buffer is full, in as many reads as it takes. A helper: the buffer
// has just as many bytes as decide the report.
fn read_input(reader: &mut impl Read, buffer: &mut [u8]) -> io::Result<Input>
    requires { length buffer.old ≡ deciding_bytes }
    ensures { Within result (length buffer.old) }
{
    let mut count: usize = 0;
    // A `while`: each read says how far it came.
    while count < buffer.len() {
        match reader.read(&mut buffer[count..])? {
            0 => return Ok(Input::Ended(count)),
            more => count += more,
        }
    }
    Ok(Input::Full(count))
}

// Writes the report on a file.
fn write_report(rt: &(impl Print + Eprint), file: &[u8]) {
    let text = listing::report_text(file);
    if rt.write_all(text.as_slice()).is_err() {
        let _ = eprintln!(rt; "report: standard output cannot be written");
    }
}

// A job file has at most 2,048 bytes: one more is enough to tell that a file has too many.
fn main(rt: HostRuntime) {
    let mut file = [0u8; 2049];
    match read_input(&mut rt.stdin(), &mut file) {
        Ok(Input::Ended(size)) => write_report(&rt, &file[..size]),
        Ok(Input::Full(size)) => write_report(&rt, &file[..size]),
        Err(_) => {
            let _ = eprintln!(rt; "report: standard input cannot be read");
        }
    }
}
