// What the programs that try tables of calls share: the input, the lines of a table, what they say of the networks and
// the receivers of the calls, the numbers in a line, and what is shown of a call.

#![tactic(auto)]

ghost use Rattle.std.specs.Counts.{IsPrefixLen};
ghost use Rattle.std.specs.Prelude.{IfOk, IfSome};

use setting::Setting;
use std::io;
use std::io::{Input, Read};

pub mod lent;
pub mod read;
pub mod receivers;
pub mod setting;
pub mod show;

// What a line of a table is.
#[derive(Clone, Copy, Debug, PartialEq, Eq)]
pub enum Line {
    Skipped,
    Setting,
    Name,
    Call,
}

// Empty lines and lines that begin with `#` are skipped. A line that begins with `level`, `gate` or `receivers` gives
// the soft level, the gate or the receivers of the calls on the lines after it (setting.rt). Any other that begins with
// a letter names those calls, or starts a record for them.
impl From<&[u8]> for Line {
    fn from(line: &[u8]) -> Line {
        match line {
            [] | [b'#', ..] => Line::Skipped,
            _ if setting::is_setting(line) => Line::Setting,
            [b'a'..=u8::MAX, ..] => Line::Name,
            _ => Line::Call,
        }
    }
}

// What a program does at the lines of a table: at one that names calls, or starts a record for them, and at one that
// gives a call; the line that is shown of it is ended after it.
pub trait Trial {
    fn name(&mut self, rt: &impl Print, line: &[u8]) -> io::Result<()>;

    fn call(&mut self, rt: &impl Print, setting: &Setting, line: &[u8]) -> io::Result<()>;
}

// Tries the lines of a table one by one. At the start, and after a line that names calls or starts a record, the
// setting is the usual one.
pub fn try_each<T: Trial>(rt: &impl Print, trial: &mut T, table: &[u8]) -> io::Result<()> {
    let mut setting = Setting::default();
    for line in table.split(|&byte| byte == b'\n') {
        match Line::from(line) {
            Line::Skipped => {}
            Line::Setting => setting.change(rt, line)?,
            Line::Name => {
                setting = Setting::default();
                trial.name(rt, line)?;
            }
            Line::Call => {
                trial.call(rt, &setting, line)?;
                println!(rt)?;
            }
        }
    }
    Ok(())
}

// Reads to the end, and returns how many bytes there are; nothing where the buffer is too short for them. A read after
// the end answers 0.
fn read_to_end(reader: &mut impl Read, buffer: &mut [u8]) -> io::Result<Option<usize>>
    ensures { IfOk result (λ read. IfSome read (λ count. IsPrefixLen count buffer.new)) }
{
    let mut count: usize = 0;
    // A `while`: each read says how far it came.
    while count < buffer.len() {
        match reader.read(&mut buffer[count..])? {
            0 => return Ok(Some(count)),
            more => count += more,
        }
    }
    let past = reader.read(&mut [0])?;
    Ok((past == 0).then_some(count))
}

// Reads standard input to its end, and returns how many bytes it has; none where the buffer is too short for it or a
// read fails, which is said on standard error.
pub fn input(rt: &(impl Input + Eprint), buffer: &mut [u8]) -> usize
    ensures { IsPrefixLen result buffer.new }
{
    if let Ok(Some(count)) = read_to_end(&mut rt.reader(), buffer) {
        return count;
    }
    let _ = eprintln!(rt; "standard input cannot be read to its end");
    0
}
