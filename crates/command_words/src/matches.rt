//! What `clap` found for the words of a command.

ghost use Rattle.std.specs.Prelude.{◌≡◌, ◌<◌, ◌^◌, ◌↔◌, Bool, Err, IfOk, IfSome, IsOkAnd, IsSome, IsSomeAnd, ℕ, List, Option, codes, Some, None};
ghost use Rattle.std.specs.Str.Parse.{IsNumeral, digits_value, without_leading_plus};
ghost use Rattle.clap.specs.Words.{rows_of, Row, Text, subcommand_rows_of};
ghost use Rattle.clap.specs.Matches.{found_of, first_value, one_text};
ghost use Rattle.command_words.specs.Ask.{Answer, Ask, Asked, CallAsk, Check, Compile, DumpAsk, Description, Explanation, Reference, ReferenceAsk, Show, Upgrade, Value, ValueAsk, ask_of, asked_of, asking_command, call_ask_of, command_of, dump_ask_of};
ghost use Rattle.command_words.specs.Words.{IsUnclear, Tells, TellsAsked, TellsCall, TellsCompile, TellsDump, TellsDescription, TellsExplain, TellsPlace, TellsReference, TellsRefusal, TellsShow, TellsTable, TellsUpgrade, TellsValue};

use crate::mistake::Mistake;
use crate::requests::{Form, ReferenceRequest, ValueRequest, Way};
use crate::task::{
    CallTask, DumpTask, Line, ReferenceTask, Said, Service, TableTask, Task, ValueTask,
};
use clap::ArgMatches;
use type_graph::Order;

fn asked_in<'a>(
    way: Way,
    form: Form,
    matches: &ArgMatches<'a>,
    input: &'a str,
) -> Option<ValueTask<'a>>
    ensures way { IfSome result (λ asked. asked.request.way ≡ way) }
    ensures form { IfSome result (λ asked. asked.form ≡ form) }
    ensures input { IfSome result (λ asked. asked.input.now ≡ input.entry.now) }
    ensures table { IfSome result (λ asked.
        first_value (found_of matches.now) (codes "T") ≡ Some asked.table.now) }
    ensures name { IfSome result (λ asked.
        first_value (found_of matches.now) (codes "NAME") ≡ Some asked.request.name.now) }
    ensures order { IfSome result (λ asked. (asked.request.order ≡ Order.Little)
        ↔ (first_value (found_of matches.now) (codes "ORDER") ≡ Some (codes "little"))) }
    ensures pos { IfSome result (λ asked. (text : List ℕ)
        → one_text (found_of matches.now) (codes "POS") ≡ Some text
        → digits_value 10 (without_leading_plus text) ≡ asked.request.pos) }
    ensures whole { IsSome (first_value (found_of matches.now) (codes "T"))
        → IsSome (first_value (found_of matches.now) (codes "NAME"))
        → IsSome (first_value (found_of matches.now) (codes "ORDER"))
        → (text : List ℕ) → one_text (found_of matches.now) (codes "POS") ≡ Some text
        → IsNumeral 10 (without_leading_plus text)
        → digits_value 10 (without_leading_plus text) < 2 ^ 64 → IsSome result }
{
    let order = match matches.get_str("ORDER")? {
        "little" => Order::Little,
        _ => Order::Big,
    };
    Some(ValueTask {
        table: matches.get_str("T")?,
        form,
        request: ValueRequest {
            way,
            name: matches.get_str("NAME")?,
            order,
            pos: matches.get_one::<u64>("POS")?,
        },
        input,
    })
}

fn value<'a>(way: Way, form: Form, words: &ArgMatches<'a>, input: &'a str) -> Option<Task<'a>>
    ensures { (ask : ValueAsk) → way ≡ ask.value.way → form ≡ ask.form → input.entry.now ≡ ask.value.input
        → TellsPlace (rows_of (found_of words.now)) ask
        → IsSomeAnd result (λ task. ask_of task ≡ Value ask) }
{
    let asked = asked_in(way, form, words, input)?;
    Some(Task::Table(TableTask::Value(asked)))
}

/// A value to encode, by its tape or its text: by one of them.
fn to_encode<'a>(words: &ArgMatches<'a>) -> Option<Task<'a>>
    ensures asked { (ask : ValueAsk) → ask.value.way ≡ Way.Encode → TellsValue (rows_of (found_of words.now)) ask
        → IsSomeAnd result (λ task. ask_of task ≡ Value ask) }
    ensures unclear { IsUnclear (rows_of (found_of words.now)) → result ≡ None }
{
    match (words.get_str("HEX"), words.get_str("text")) {
        (Some(hex), None) => value(Way::Encode, Form::Hex, words, hex),
        (None, Some(text)) => value(Way::Encode, Form::Text, words, text),
        (Some(_), Some(_)) => None,
        (None, None) => None,
    }
}

/// Octets to decode, to a tape or to text.
fn to_decode<'a>(words: &ArgMatches<'a>) -> Option<Task<'a>>
    ensures { (ask : ValueAsk) → ask.value.way ≡ Way.Decode → TellsValue (rows_of (found_of words.now)) ask
        → IsSomeAnd result (λ task. ask_of task ≡ Value ask) }
{
    let hex = words.get_str("HEX")?;
    if words.get_flag("text") {
        value(Way::Decode, Form::Text, words, hex)
    } else {
        value(Way::Decode, Form::Hex, words, hex)
    }
}

fn reference_in<'a>(matches: &ArgMatches<'a>) -> Option<ReferenceTask<'a>>
    ensures table { IfSome result (λ asked.
        first_value (found_of matches.now) (codes "T") ≡ Some asked.table.now) }
    ensures host { IfSome result (λ asked.
        first_value (found_of matches.now) (codes "host") ≡ Some asked.wanted.host.now) }
    ensures port { IfSome result (λ asked. (text : List ℕ)
        → one_text (found_of matches.now) (codes "port") ≡ Some text
        → digits_value 10 (without_leading_plus text) ≡ asked.wanted.port) }
    ensures object { IfSome result (λ asked.
        first_value (found_of matches.now) (codes "object") ≡ Some asked.wanted.object.now) }
    ensures whole { IsSome (first_value (found_of matches.now) (codes "T"))
        → IsSome (first_value (found_of matches.now) (codes "host"))
        → IsSome (first_value (found_of matches.now) (codes "object"))
        → (text : List ℕ) → one_text (found_of matches.now) (codes "port") ≡ Some text
        → IsNumeral 10 (without_leading_plus text)
        → digits_value 10 (without_leading_plus text) < 2 ^ 16 → IsSome result }
{
    Some(ReferenceTask {
        table: matches.get_str("T")?,
        wanted: ReferenceRequest {
            host: matches.get_str("host")?,
            port: matches.get_one::<u16>("port")?,
            object: matches.get_str("object")?,
        },
    })
}

fn reference<'a>(words: &ArgMatches<'a>) -> Option<Task<'a>>
    ensures { (ask : ReferenceAsk) → TellsReference (rows_of (found_of words.now)) ask
        → IsSomeAnd result (λ task. ask_of task ≡ Reference ask) }
{
    let asked = reference_in(words)?;
    Some(Task::Table(TableTask::Reference(asked)))
}

fn explain<'a>(words: &ArgMatches<'a>) -> Task<'a>
    ensures { (word : Option (List ℕ)) → TellsRefusal (rows_of (found_of words.now)) word
        → ask_of result ≡ Explanation word }
{
    Task::Explain {
        word: words.get_str("REFUSAL"),
    }
}

fn describe<'a>(words: &ArgMatches<'a>) -> Option<Task<'a>>
    ensures { (reference : List ℕ) → TellsDescription (rows_of (found_of words.now)) reference
        → IsSomeAnd result (λ task. ask_of task ≡ Description reference) }
{
    Some(Task::Describe {
        reference: words.get_str("IOR")?,
    })
}

fn upgrade<'a>(words: &ArgMatches<'a>) -> Option<Task<'a>>
    ensures { (table output : List ℕ) → TellsUpgrade (rows_of (found_of words.now)) table output
        → IsSomeAnd result (λ task. ask_of task ≡ Upgrade table output) }
{
    Some(Task::Upgrade {
        table: words.get_str("T")?,
        output: words.get_str("o")?,
    })
}

fn compile<'a>(words: &ArgMatches<'a>) -> Option<Task<'a>>
    ensures { (source output : List ℕ) → TellsCompile (rows_of (found_of words.now)) source output
        → IsSomeAnd result (λ task. ask_of task ≡ Compile source output) }
{
    Some(Task::Compile {
        source: words.get_str("F")?,
        output: words.get_str("o")?,
    })
}

fn check<'a>(words: &ArgMatches<'a>) -> Option<Task<'a>>
    ensures { (table : List ℕ) → TellsTable (rows_of (found_of words.now)) table
        → IsSomeAnd result (λ task. ask_of task ≡ Check table) }
{
    let table = words.get_str("T")?;
    Some(Task::Table(TableTask::Check { table }))
}

fn show<'a>(words: &ArgMatches<'a>) -> Option<Task<'a>>
    ensures { (table : List ℕ) (types : Bool) → TellsShow (rows_of (found_of words.now)) table types
        → IsSomeAnd result (λ task. ask_of task ≡ Show table types) }
{
    let types = words.get_flag("types");
    Some(Task::Table(TableTask::Show {
        table: words.get_str("T")?,
        types,
    }))
}

fn serve<'a>(words: &ArgMatches<'a>) -> Option<Service<'a>> {
    Some(Service {
        table: words.get_str("T")?,
        port: words.get_one::<u16>("port")?,
        object: words.get_str("object")?,
        connections: words.get_one::<u32>("connections")?,
        at_once: words.get_one::<u8>("at-once"),
        idle: words.get_one::<u32>("idle").unwrap_or(0),
    })
}

/// The byte order that the option says, or else big.
fn order_in(words: &ArgMatches<'_>) -> Order
    ensures { (result ≡ Order.Little) ↔ (first_value (found_of words.now) (codes "order") ≡ Some (codes "little")) }
{
    match words.get_str("order") {
        Some("little") => Order::Little,
        _ => Order::Big,
    }
}

/// The number that an option says, or else that of none.
fn number_in(words: &ArgMatches<'_>, id: &str, of_none: u32) -> u32
    ensures some { (text : List ℕ) → one_text (found_of words.now) id.now ≡ Some text
        → IsNumeral 10 (without_leading_plus text) → digits_value 10 (without_leading_plus text) < 2 ^ 32
        → digits_value 10 (without_leading_plus text) ≡ result }
    ensures none { one_text (found_of words.now) id.now ≡ None → result ≡ of_none }
{
    words.get_one::<u32>(id).unwrap_or(of_none)
}

fn call<'a>(words: &ArgMatches<'a>) -> Option<CallTask<'a>>
    ensures { (ask : CallAsk) → TellsCall (rows_of (found_of words.now)) ask
        → IsSomeAnd result (λ task. call_ask_of task ≡ ask) }
{
    let order = order_in(words);
    let wait = number_in(words, "wait", 30);
    let repeat = number_in(words, "repeat", 1);
    Some(CallTask {
        table: words.get_str("T")?,
        reference: words.get_str("IOR")?,
        operation: words.get_str("OP")?,
        value: words.get_str("VALUE"),
        order,
        wait,
        repeat,
    })
}

fn dump<'a>(words: &ArgMatches<'a>) -> Option<DumpTask<'a>>
    ensures { (ask : DumpAsk) → TellsDump (rows_of (found_of words.now)) ask
        → IsSomeAnd result (λ task. dump_ask_of task ≡ ask) }
{
    Some(DumpTask {
        table: words.get_str("T")?,
        file: words.get_str("FILE"),
        back: words.get_str("BACK"),
        follow: words.get_flag("follow"),
    })
}

/// What the words of a command ask for that isn't a call, a capture or to serve. `clap` has seen to it
/// that none is missing.
fn task_in<'a>(name: &str, words: &ArgMatches<'a>) -> Option<Task<'a>>
    ensures asked { (ask : Ask) → name.now ≡ command_of ask → Tells (rows_of (found_of words.now)) ask
        → IsSomeAnd result (λ task. ask_of task ≡ ask) }
    ensures unclear { name.now ≡ codes "encode" → IsUnclear (rows_of (found_of words.now)) → result ≡ None }
{
    match name {
        "encode" => to_encode(words),
        "decode" => to_decode(words),
        "check" => check(words),
        "show" => show(words),
        "upgrade" => upgrade(words),
        "compile" => compile(words),
        "ior" => reference(words),
        "explain" => Some(explain(words)),
        "reference" => describe(words),
        _ => None,
    }
}

/// What the words of a command say.
fn said_in<'a>(name: &str, words: &ArgMatches<'a>) -> Option<Said<'a>>
    ensures asked { (asked : Asked) → name.now ≡ asking_command asked → TellsAsked (rows_of (found_of words.now)) asked
        → IsSomeAnd result (λ said. asked_of said ≡ Some asked) }
    ensures unclear { name.now ≡ codes "encode" → IsUnclear (rows_of (found_of words.now)) → result ≡ None }
{
    match name {
        "serve" => Some(Said::Serve(serve(words)?)),
        "call" => Some(Said::Call(call(words)?)),
        "dump" => Some(Said::Dump(dump(words)?)),
        _ => Some(Said::Do(task_in(name, words)?)),
    }
}

/// What the words say. Of words that ask for nothing it is told what is wrong with them: of a value to
/// encode that it is there twice, or not at all.
pub(crate) fn line_in<'a>(matches: &ArgMatches<'a>) -> Result<Line<'a>, Mistake>
    ensures asked { (asked : Asked) (rows : List Row)
        → subcommand_rows_of matches.now ≡ Some (asking_command asked, rows) → TellsAsked rows asked
        → IsOkAnd result (λ line. asked_of line.said ≡ Some asked) }
    ensures explains { (name : Text) (rows : List Row) (flag : Bool)
        → subcommand_rows_of matches.now ≡ Some (name, rows) → TellsExplain rows flag
        → IfOk result (λ line. line.explains ≡ flag) }
    ensures unclear { (rows : List Row) → subcommand_rows_of matches.now ≡ Some (codes "encode", rows)
        → IsUnclear rows → result ≡ Err Mistake.HexOrText }
{
    let Some((name, words)) = matches.subcommand() else {
        return Err(Mistake::NoWord);
    };
    match said_in(name, words) {
        Some(said) => Ok(Line {
            said,
            explains: words.get_flag("explain"),
        }),
        None if name == "encode" => Err(Mistake::HexOrText),
        None => Err(Mistake::NoWord),
    }
}
