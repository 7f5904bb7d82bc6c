//! The program `idlc`: compiles IDL files to tables, checks tables, marshals values by them,
//! prints references to objects and serves calls to them.
#![tactic(auto)]

ghost use Rattle.std.specs.Prelude.{◌≡◌, ◌≢◌, ◌≤◌, ◌<◌, ◌⊎◌};
ghost use Rattle.std.specs.String.{string_bytes};
ghost use Rattle.std.specs.Io.KnownBytes.{Appends};
ghost use Rattle.idlc_main.specs.Fault.{status_of};
ghost use Rattle.command_words.specs.Ask.{Answer, Ask};
ghost use Rattle.command_words.specs.Words.{AsksFor, IsMistaken, texts};
ghost use Rattle.idlc_main.specs.Answer.{IsEndOf, MayServe};
ghost use Rattle.idlc_main.specs.Called.{status_of_end};

mod calls;
mod descriptions;
mod dumps;
mod fault;
mod known;
mod listener;
mod service;
mod tasks;
mod times;
mod told;

use crate::calls::{CallEnd, Concluded, called};
use crate::dumps::dumped;
use crate::fault::Fault;
use crate::known::known;
use crate::listener::ErrorReader;
use crate::service::run_service;
use crate::tasks::{done, file_in};
use broker_sockets::Totals;
use call_commands::ExceptionLine;
use command_tables::{Refusal, WholeFiles};
use command_words::{Said, parse};
use diagnostic_views::Look;
use giop_words::dump_commands::CaptureFiles;
use std::alloc::AllocError;
use std::env::VarError;
use std::io::IsTerminal;
use std::net::Net;
use std::process::ExitCode;
use std::rt::Env;
use std::time::Clock;
use std::{env, io};

/// The status of a run that did what was asked for, help included.
const DONE: u8 = 0;

/// That of a call that raised an exception of its operation.
const RAISED: u8 = 5;

/// That of a call that failed with a system exception.
const FAILED: u8 = 6;

/// Tells a listener who wants it what else is known of a fault, of the file of a name.
fn tell_known<R: WholeFiles + AllocGlobal, E: io::Write>(
    rt: &R,
    err: &mut E,
    fault: &Fault<'_>,
    file: Option<&str>,
    listener: ErrorReader,
) {
    if let Some(look) = listener.look()
        && let Ok(Some(lines)) = known(rt, fault, look, file)
    {
        let _ = writeln!(err, "{lines}");
    }
}

/// Tells a fault on standard error, and gives its status. Nobody hears of an error there.
fn failed<R: WholeFiles + AllocGlobal, E: io::Write>(
    rt: &R,
    err: &mut E,
    fault: &Fault<'_>,
    file: Option<&str>,
    listener: ErrorReader,
) -> u8
    ensures { result ≡ status_of fault.now }
{
    let _ = match fault {
        Fault::Words(mistake) => write!(err, "{mistake}"),
        fault if fault.is_of_output() => Ok(()),
        _ => writeln!(err, "idlc: {fault}"),
    };
    tell_known(rt, err, fault, file, listener);
    fault.status()
}

/// Puts an answer's text on standard output, tells on standard error what else is told, and gives
/// the status.
fn say<O: io::Write, E: io::Write>(out: &mut O, err: &mut E, answer: &told::TaskOutput) -> u8
    ensures range { (result ≡ 0) ⊎ (result ≡ 3) }
    ensures said { result ≡ 0 → Appends (O.contents out.old) (O.contents out.new) (string_bytes answer.now.text) }
{
    if out.write_all(answer.text.as_bytes()).is_err() || out.flush().is_err() {
        return Fault::Unwritten.status();
    }
    if let Some(notice) = answer.notice {
        let _ = writeln!(err, "idlc: {notice}");
    }
    DONE
}

/// Tells of the end of a call: a system exception on standard error, and the status.
fn tell_end<E: io::Write>(err: &mut E, end: &CallEnd) -> u8
    ensures status { result ≡ status_of_end end.now }
    ensures told { result ≢ 0 → 5 ≤ result }
    ensures range { result ≤ 6 }
{
    match end {
        CallEnd::Done => DONE,
        CallEnd::Raised => RAISED,
        CallEnd::Failed(exception) => {
            let _ = writeln!(err, "idlc: {}", ExceptionLine(exception));
            FAILED
        }
    }
}

/// Puts the text of calls on standard output, tells on standard error what else is told, and gives the
/// status.
fn conclude<O: io::Write, E: io::Write>(out: &mut O, err: &mut E, concluded: &Concluded) -> u8
    ensures status { (result ≡ 3) ⊎ (result ≡ status_of_end concluded.now.end) }
    ensures told { result ≢ 0 → 3 ≤ result }
    ensures memory { result ≢ 4 }
    ensures range { result ≤ 6 }
    ensures said { result ≢ 3 → Appends (O.contents out.old) (O.contents out.new) (string_bytes concluded.now.text) }
{
    if out.write_all(concluded.text.as_bytes()).is_err() || out.flush().is_err() {
        return Fault::Unwritten.status();
    }
    let status = tell_end(err, &concluded.end);
    if let Some(times) = &concluded.times {
        let _ = writeln!(err, "idlc: {times}");
    }
    status
}

/// Tells a person how much was served, and gives the status.
fn tell<E: io::Write>(err: &mut E, totals: &Totals, listener: ErrorReader) -> u8
    ensures { result ≡ 0 }
{
    if listener.is_person() {
        let _ = writeln!(err, "idlc: served: {totals}");
    }
    DONE
}

/// Runs the program on words, of which the first is its name, and gives its status: 0 where it did
/// what was asked for, 1 for refused input, 2 for usage, 3 for files and standard output, 4 for
/// want of memory; where an object is called, 5 for an exception of its operation and 6 for a system
/// exception. Standard output has the answer or nothing, where calls are served the line that says so;
/// a fault is told on standard error, with all that is known of it for a listener who wants that, and
/// to a person too how much was served.
pub fn run<
    R: WholeFiles + CaptureFiles + Net + Clock + Eprint + AllocGlobal,
    O: io::Write,
    E: io::Write,
>(rt: &R, words: &[&str], out: &mut O, err: &mut E, listener: ErrorReader) -> u8
    ensures range { result ≤ 6 }
    ensures asked { (ask : Ask) → AsksFor (texts words.now) (Answer ask)
        → IsEndOf (R.reads rt.now) (R.takes rt.now) ask result (O.contents out.old) (O.contents out.new) }
    ensures kept { (ask : Ask) → AsksFor (texts words.now) (Answer ask) → result ≢ 0 → result ≢ 3 → out.new ≡ out.old }
    ensures mistaken { IsMistaken (texts words.now) → ((result ≡ 2) ⊎ (result ≡ 4)) × (out.new ≡ out.old) }
    ensures silent { result ≢ 0 → result < 3 → out.new ≡ out.old }
    ensures memory { result ≡ 4 → MayServe (O.contents out.old) (O.contents out.new) }
{
    let line = match parse(rt.alloc(), words) {
        Ok(line) => line,
        Err(mistake) => return failed(rt, err, &Fault::Words(mistake), None, listener),
    };
    let listener = listener.asking(line.explains);
    match line.said {
        Said::Help(text) => say(out, err, &told::TaskOutput::plain(text)),
        Said::Do(task) => match done(rt, &task) {
            Ok(answer) => say(out, err, &answer),
            Err(fault) => failed(rt, err, &fault, file_in(&task), listener),
        },
        Said::Serve(service) => match run_service(rt, out, &service) {
            Ok(totals) => tell(err, &totals, listener),
            Err(fault) => failed(rt, err, &fault, Some(service.table), listener),
        },
        Said::Call(task) => match called(rt, &task, listener) {
            Ok(concluded) => conclude(out, err, &concluded),
            Err(fault) => failed(rt, err, &fault, Some(task.table), listener),
        },
        Said::Dump(task) => match dumped(rt, &task, out) {
            Ok(()) => DONE,
            Err(fault) => failed(rt, err, &fault, Some(task.table), listener),
        },
    }
}

/// Why the program's own words can't be had.
fn wordless(error: io::Error) -> Fault<'static> {
    match error.kind() {
        io::ErrorKind::OutOfMemory => Fault::Refused(Refusal::NoMemory),
        _ => Fault::NotText,
    }
}

/// The words of the command line.
fn own_words<R: Env + AllocGlobal>(rt: &R) -> Result<Vec<String>, Fault<'static>> {
    Ok(env::args(rt).map_err(wordless)?.collect(rt.alloc())?)
}

/// Who reads standard error: a person if it is a terminal. Colours are left out where the variable
/// `NO_COLOR` is there and isn't empty.
fn listener_at<R: Env + AllocGlobal, E: IsTerminal>(rt: &R, err: &E) -> ErrorReader {
    if !err.is_terminal() {
        return ErrorReader::Program;
    }
    match env::var(rt, "NO_COLOR") {
        Ok(text) if text.is_empty() => ErrorReader::Person(Look::Coloured),
        Err(VarError::NotPresent) => ErrorReader::Person(Look::Coloured),
        Ok(_) | Err(_) => ErrorReader::Person(Look::Plain),
    }
}

fn main(rt: HostRuntime) -> ExitCode {
    let mut out = rt.stdout();
    let mut err = rt.stderr();
    let listener = listener_at(&rt, &err);
    let words = match own_words(&rt) {
        Ok(words) => words,
        Err(fault) => return ExitCode::from(failed(&rt, &mut err, &fault, None, listener)),
    };
    let texts: Result<Vec<&str>, AllocError> = words
        .iter()
        .map(|word| word.as_str())
        .collect(rt.alloc());
    let status = match texts {
        Ok(texts) => run(&rt, texts.as_slice(), &mut out, &mut err, listener),
        Err(_) => failed(
            &rt,
            &mut err,
            &Fault::Refused(Refusal::NoMemory),
            None,
            listener,
        ),
    };
    ExitCode::from(status)
}
