//! Calls of objects.

ghost use Rattle.std.specs.Prelude.{◌≡◌, ◌++◌, codes, IfOk};
ghost use Rattle.std.specs.String.{string_bytes};
ghost use Rattle.idlc_main.specs.Called.{IsConclusion};

use crate::fault::Fault;
use crate::listener::ErrorReader;
use crate::times::Times;
use call_commands::{CallRefusal, CallTypes, Ending, TextCall, call_text};
use call_sockets::Dialler;
use command_files::load;
use command_tables::{WholeFiles, text_of};
use command_texts::Loaded;
use command_words::CallTask;
use giop::Giop;
use giop::reply_bodies::SystemException;
use reference_listing::spelled_references::read_reference;
use std::alloc::{AllocError, Global};
use std::net::Net;
use std::time::Clock;

/// The text of a call that has no arguments.
const NO_ARGUMENTS: &str = "[]";

/// So many reads may give octets: the time of the call ends them.
const READS: u64 = u64::MAX;

/// How the last call ended: with a result or none that was wanted, with an exception of its operation, or
/// with a system exception.
#[derive(Drop)]
pub enum CallEnd {
    Done,
    Raised,
    Failed(SystemException),
}

/// The text for standard output, how the last call ended, and of more than one how long they took.
#[derive(Drop)]
pub struct Concluded {
    pub text: String,
    pub end: CallEnd,
    pub times: Option<Times>,
}

/// What is asked for.
#[derive(Clone, Copy)]
struct Asked<'a, 't> {
    task: &'t CallTask<'a>,
    /// The text of the reference.
    reference: &'t str,
    value: &'t str,
    /// Who hears how far it is.
    listener: ErrorReader,
}

/// What is used by each of the calls.
#[derive(Clone, Copy)]
struct Calling<'a, 't> {
    asked: Asked<'a, 't>,
    types: CallTypes<'t>,
}

/// One call. The reference is read for it, since the call takes it.
fn once<'a, R: Net + Clock + AllocGlobal>(
    rt: &R,
    calling: Calling<'a, '_>,
    dialler: &mut Dialler<'_, R>,
    id: u32,
) -> Result<Ending, Fault<'a>> {
    let Calling { asked, types } = calling;
    let ior = match read_reference(types.giop.types(), rt.alloc(), asked.reference) {
        Ok(ior) => ior,
        Err(fault) => return Err(Fault::NotSpelled(fault)),
    };
    let ask = TextCall {
        operation: asked.task.operation,
        value: asked.value,
        order: asked.task.order,
        id,
        reads: READS,
    };
    match call_text(&types, rt.alloc(), dialler, ior, &ask) {
        Ok(ending) => Ok(ending),
        Err(CallRefusal::NoOperation) => Err(Fault::NoOperation {
            word: asked.task.operation,
        }),
        Err(refusal) => Err(Fault::NotCalled(refusal)),
    }
}

/// Whether a call did what it is for.
fn is_done(ending: &Ending) -> bool {
    match ending {
        Ending::Returned(_) | Ending::Sent => true,
        Ending::Raised(_) | Ending::Failed(_) => false,
    }
}

/// A text as a line.
fn line(alloc: Global, text: &str) -> Result<String, AllocError>
    ensures { IfOk result (λ line. string_bytes line ≡ text.now ++ codes "\n") }
{
    format!(in alloc; "{text}\n")
}

/// What is told of the end of the last call.
fn conclusion(alloc: Global, ending: Ending, times: Option<Times>) -> Result<Concluded, AllocError>
    ensures { IfOk result (IsConclusion ending) }
{
    let (text, end) = match ending {
        Ending::Returned(text) => (line(alloc, text.as_str())?, CallEnd::Done),
        Ending::Raised(text) => (line(alloc, text.as_str())?, CallEnd::Raised),
        Ending::Failed(exception) => (String::new(alloc), CallEnd::Failed(exception)),
        Ending::Sent => (String::new(alloc), CallEnd::Done),
    };
    Ok(Concluded { text, end, times })
}

/// Tells a person once a second how far the calls are.
fn tell_progress<R: Clock + Eprint>(rt: &R, times: &mut Times, listener: ErrorReader) {
    if listener.is_person() && times.is_due(rt) {
        let _ = eprintln!(rt; "idlc: {times}");
    }
}

/// Makes one call after the other, up to the first that raises an exception.
fn repeated<'a, R: Net + Clock + Eprint + AllocGlobal>(
    rt: &R,
    calling: Calling<'a, '_>,
) -> Result<Concluded, Fault<'a>> {
    let task = calling.asked.task;
    let mut dialler = Dialler::new(rt, rt.alloc(), task.wait);
    let mut times = Times::new(rt);
    let mut ending = Ending::Sent;
    for count in 0..task.repeat {
        times.begin(rt);
        ending = once(rt, calling, &mut dialler, count + 1)?;
        times.end(rt);
        tell_progress(rt, &mut times, calling.asked.listener);
        if !is_done(&ending) {
            break;
        }
        dialler.go_on();
    }
    let times = if task.repeat > 1 { Some(times) } else { None };
    Ok(conclusion(rt.alloc(), ending, times)?)
}

/// Makes the calls. What is large is let go of in few places, so each stands in a function of its own.
fn called_with<'a, R: Net + Clock + Eprint + AllocGlobal>(
    rt: &R,
    asked: Asked<'a, '_>,
    loaded: &Loaded,
) -> Result<Concluded, Fault<'a>> {
    match Giop::new(rt.alloc()) {
        Ok(giop) => {
            let types = CallTypes {
                giop: &giop,
                table: &loaded.table,
                names: &loaded.names,
            };
            repeated(rt, Calling { asked, types })
        }
        Err(error) => Err(Fault::from(error)),
    }
}

/// Calls an object with the table that was loaded.
fn called_by<'a, R: WholeFiles + Net + Clock + Eprint + AllocGlobal>(
    rt: &R,
    task: &CallTask<'a>,
    loaded: &Loaded,
    listener: ErrorReader,
) -> Result<Concluded, Fault<'a>> {
    let reference = text_of(rt, task.reference).map_err(Fault::Refused)?;
    let value = text_of(rt, task.value.unwrap_or(NO_ARGUMENTS)).map_err(Fault::Refused)?;
    let asked = Asked {
        task,
        reference: reference.as_str().trim_ascii(),
        value: value.as_str(),
        listener,
    };
    called_with(rt, asked, loaded)
}

/// Calls an object by the table of a name, as often as is asked for.
pub fn called<'a, R: WholeFiles + Net + Clock + Eprint + AllocGlobal>(
    rt: &R,
    task: &CallTask<'a>,
    listener: ErrorReader,
) -> Result<Concluded, Fault<'a>> {
    match load(rt, task.table) {
        Ok(loaded) => called_by(rt, task, &loaded, listener),
        Err(fault) => Err(Fault::from(fault)),
    }
}
