//! The commands, as `clap` is told of them.

ghost use Rattle.std.specs.Prelude.{◌≡◌, pos, codes, IfOk, Some, None, false};
ghost use Rattle.clap.specs.Words.{app_of, new_rule, rule_of};
ghost use Rattle.clap.specs.declared.builder.value_parser.ValueParser.TheVariants.{Names, Signed, Unsigned};
ghost use Rattle.command_words.specs.Commands.{at_once_rule, call_app, called_app, compile_app, decode_app, describe_app, dump_app, encode_app, explain_app, explain_rule, first_app, follow_rule, idle_rule, objects_app, option_rule, order_rule, output, place_app, program_app, reference_app, repeat_rule, serve_app, served_app, show_app, table_app, tables_app, text_flag as flag_of_text, text_rule, types_rule, upgrade_app, value_app, wait_rule, wanted};

use clap::{Arg, ArgAction, Command, value_parser};
use std::alloc::{AllocError, Global};

/// A word that has to be there.
fn wanted<'a>(alloc: Global, id: &'a str, help: &'a str) -> Arg<'a>
    ensures rule { rule_of result ≡ wanted id.entry.now None }
    ensures local { result.global ≡ false }
{
    Arg::new(alloc, id).help(help).required(true)
}

const TABLE: &str = "A table file, an IDL file (not for upgrade), or builtin, the sample table";

const VERSION: &str = "0.2.0";

/// What `compile` serves of IDL, and what it doesn't.
const SERVED: &str = "Served: modules, interfaces and their bases, operations, oneway ones too, \
    attributes, exceptions, constants, enumerations, structures, unions, typedefs, arrays, \
    sequences and strings with bounds and without, Object, declarations ahead, the pragmas prefix, \
    ID and version.\nNot served: any, floating and fixed point, wide characters and strings, \
    valuetypes, abstract and local interfaces, native, contexts, components, import, the \
    operator ~. #include and #define are refused: run a preprocessor first.";

/// The word for the byte order.
fn order_word<'a>(alloc: Global, orders: &'a [&'a str]) -> Arg<'a>
    ensures rule { rule_of result ≡ wanted (codes "ORDER") (Some (Names orders.entry)) }
    ensures local { result.global ≡ false }
{
    wanted(alloc, "ORDER", "The byte order").value_parser(orders)
}

/// The word for the position.
fn pos_word<'a>(alloc: Global) -> Arg<'a>
    ensures rule { rule_of result ≡ wanted (codes "POS") (Some (Unsigned 0 18446744073709551615)) }
    ensures local { result.global ≡ false }
{
    wanted(alloc, "POS", "The position of the first octet").value_parser(value_parser!(u64))
}

/// The flag for what else is known of a fault.
fn explain_flag<'a>(alloc: Global) -> Arg<'a>
    ensures rule { rule_of result ≡ explain_rule }
    ensures local { result.global ≡ false }
{
    Arg::new(alloc, "explain")
        .long("explain")
        .help("Shows the line of a fault, and what is known of it")
        .action(ArgAction::SetTrue)
}

/// The commands that marshal a value take the same words for its type and its place.
fn value_command<'a>(
    alloc: Global,
    orders: &'a [&'a str],
    name: &'a str,
) -> Result<Command<'a>, AllocError>
    ensures { IfOk result (λ command. app_of command ≡ place_app (Names orders.entry) name.entry.now) }
{
    Command::new(alloc, name)
        .arg(wanted(alloc, "T", TABLE))?
        .arg(wanted(alloc, "NAME", "The name of a type of the table"))?
        .arg(order_word(alloc, orders))?
        .arg(pos_word(alloc))?
        .arg(explain_flag(alloc))
}

/// The word for a tape, in place of which a text may stand.
fn tape_word<'a>(alloc: Global) -> Arg<'a>
    ensures rule { rule_of result ≡ new_rule (codes "HEX") }
    ensures local { result.global ≡ false }
{
    Arg::new(alloc, "HEX").help("The value's tape, or use --text")
}

/// The option for the text of a value.
fn text_option<'a>(alloc: Global) -> Arg<'a>
    ensures rule { rule_of result ≡ text_rule }
    ensures local { result.global ≡ false }
{
    Arg::new(alloc, "text").long("text").value_name("TEXT").help(
        "The value as text; @FILE: that of a file; -: that of standard input",
    )
}

/// The flag for a text in place of a tape.
fn text_flag<'a>(alloc: Global) -> Arg<'a>
    ensures rule { rule_of result ≡ flag_of_text }
    ensures local { result.global ≡ false }
{
    Arg::new(alloc, "text")
        .long("text")
        .help("Prints the value as text")
        .action(ArgAction::SetTrue)
}

fn encode_command<'a>(alloc: Global, orders: &'a [&'a str]) -> Result<Command<'a>, AllocError>
    ensures { IfOk result (λ command. app_of command ≡ encode_app (Names orders.entry)) }
{
    value_command(alloc, orders, "encode")?
        .arg(tape_word(alloc))?
        .arg(text_option(alloc))
}

fn decode_command<'a>(alloc: Global, orders: &'a [&'a str]) -> Result<Command<'a>, AllocError>
    ensures { IfOk result (λ command. app_of command ≡ decode_app (Names orders.entry)) }
{
    value_command(alloc, orders, "decode")?
        .arg(wanted(alloc, "HEX", "The octets"))?
        .arg(text_flag(alloc))
}

/// A command that asks of a table alone.
fn table_command<'a>(alloc: Global, name: &'a str) -> Result<Command<'a>, AllocError>
    ensures { IfOk result (λ command. app_of command ≡ table_app name.entry.now) }
{
    Command::new(alloc, name)
        .arg(wanted(alloc, "T", TABLE))?
        .arg(explain_flag(alloc))
}

/// The option for the file that is written.
fn output_option<'a>(alloc: Global, value: &'a str) -> Arg<'a>
    ensures rule { rule_of result ≡ output }
    ensures local { result.global ≡ false }
{
    Arg::new(alloc, "o")
        .short('o')
        .value_name(value)
        .help("The file that the table is written to")
        .required(true)
}

/// The flag for what the texts of values look like.
fn types_flag<'a>(alloc: Global) -> Arg<'a>
    ensures rule { rule_of result ≡ types_rule }
    ensures local { result.global ≡ false }
{
    Arg::new(alloc, "types")
        .long("types")
        .help("Also shows what the text of a value of each type looks like")
        .action(ArgAction::SetTrue)
}

fn show_command<'a>(alloc: Global) -> Result<Command<'a>, AllocError>
    ensures { IfOk result (λ command. app_of command ≡ show_app) }
{
    table_command(alloc, "show")?.arg(types_flag(alloc))
}

fn upgrade_command<'a>(alloc: Global) -> Result<Command<'a>, AllocError>
    ensures { IfOk result (λ command. app_of command ≡ upgrade_app) }
{
    table_command(alloc, "upgrade")?.arg(output_option(alloc, "U"))
}

fn compile_command<'a>(alloc: Global) -> Result<Command<'a>, AllocError>
    ensures { IfOk result (λ command. app_of command ≡ compile_app) }
{
    Command::new(alloc, "compile")
        .arg(wanted(alloc, "F", "An IDL file, as a preprocessor leaves it"))?
        .arg(output_option(alloc, "T"))?
        .arg(explain_flag(alloc))
}

/// The command that makes tables.
fn first_command<'a>(alloc: Global) -> Result<Command<'a>, AllocError>
    ensures { IfOk result (λ program. app_of program ≡ first_app) }
{
    let compile = compile_command(alloc)?;
    Command::new(alloc, "idlc")
        .about("Compiles IDL files to tables, and marshals values in CDR by them")
        .version(VERSION)
        .subcommand_required(true)
        .subcommand(
            compile
                .about("Writes the table of an IDL file")
                .after_help(SERVED),
        )
}

/// The command that makes tables, and those that marshal a value.
fn value_commands<'a>(alloc: Global, orders: &'a [&'a str]) -> Result<Command<'a>, AllocError>
    ensures { IfOk result (λ program. app_of program ≡ value_app (Names orders.entry)) }
{
    let first = first_command(alloc)?;
    let encode = encode_command(alloc, orders)?;
    let decode = decode_command(alloc, orders)?;
    first
        .subcommand(encode.about("Writes the octets of a value"))?
        .subcommand(decode.about("Reads a value from octets"))
}

/// An option that has to be there.
fn option<'a>(alloc: Global, name: &'a str, value: &'a str, help: &'a str) -> Arg<'a>
    ensures rule { rule_of result ≡ option_rule name.entry.now None }
    ensures local { result.global ≡ false }
{
    Arg::new(alloc, name)
        .long(name)
        .value_name(value)
        .help(help)
        .required(true)
}

/// The option for the port.
fn port_option<'a>(alloc: Global) -> Arg<'a>
    ensures rule { rule_of result ≡ option_rule (codes "port") (Some (Signed (pos 0) (pos 65535))) }
    ensures local { result.global ≡ false }
{
    option(alloc, "port", "P", "The port of the object").value_parser(value_parser!(u16))
}

/// The option for an object.
fn object_option<'a>(alloc: Global) -> Arg<'a>
    ensures rule { rule_of result ≡ option_rule (codes "object") None }
    ensures local { result.global ≡ false }
{
    let help = "The key of the object, and its interface";
    option(alloc, "object", "KEY=NAME", help)
}

/// The command for references.
fn reference_command<'a>(alloc: Global) -> Result<Command<'a>, AllocError>
    ensures { IfOk result (λ command. app_of command ≡ reference_app) }
{
    table_command(alloc, "ior")?
        .arg(option(alloc, "host", "H", "The host of the object"))?
        .arg(port_option(alloc))?
        .arg(object_option(alloc))
}

/// The option for the number of connections.
fn connections_option<'a>(alloc: Global) -> Arg<'a>
    ensures rule { rule_of result ≡ option_rule (codes "connections") (Some (Signed (pos 0) (pos 4294967295))) }
    ensures local { result.global ≡ false }
{
    let help = "The number of connections to serve";
    option(alloc, "connections", "N", help).value_parser(value_parser!(u32))
}

/// The option for the number of connections that are served at the same time.
fn at_once_option<'a>(alloc: Global) -> Arg<'a>
    ensures rule { rule_of result ≡ at_once_rule }
    ensures local { result.global ≡ false }
{
    Arg::new(alloc, "at-once")
        .long("at-once")
        .value_name("M")
        .help("How many connections are served at a time, 1 to 64; 1 by default")
        .value_parser(value_parser!(u8).range(1..65))
}

/// The option for the seconds that a connection may be idle.
fn idle_option<'a>(alloc: Global) -> Arg<'a>
    ensures rule { rule_of result ≡ idle_rule }
    ensures local { result.global ≡ false }
{
    Arg::new(alloc, "idle")
        .long("idle")
        .value_name("S")
        .help(
            "Ends a connection that is silent or slow for S seconds, at most 86400; by default none",
        )
        .value_parser(value_parser!(u32).range(0..86401))
}

/// The command that serves calls.
fn serve_command<'a>(alloc: Global) -> Result<Command<'a>, AllocError>
    ensures { IfOk result (λ command. app_of command ≡ serve_app) }
{
    table_command(alloc, "serve")?
        .arg(port_option(alloc))?
        .arg(object_option(alloc))?
        .arg(connections_option(alloc))?
        .arg(at_once_option(alloc))?
        .arg(idle_option(alloc))
}

/// The word for the number or the name of a refusal, which may be left out.
fn refusal_word<'a>(alloc: Global) -> Arg<'a>
    ensures rule { rule_of result ≡ new_rule (codes "REFUSAL") }
    ensures local { result.global ≡ false }
{
    Arg::new(alloc, "REFUSAL").help(
        "The number of the refusal, or its name; all are listed without",
    )
}

fn explain_command<'a>(alloc: Global) -> Result<Command<'a>, AllocError>
    ensures { IfOk result (λ command. app_of command ≡ explain_app) }
{
    Command::new(alloc, "explain").arg(refusal_word(alloc))
}

/// The commands that marshal a value, and those that ask of a table alone.
fn commands_of_tables<'a>(alloc: Global, orders: &'a [&'a str]) -> Result<Command<'a>, AllocError>
    ensures { IfOk result (λ program. app_of program ≡ tables_app (Names orders.entry)) }
{
    let marshals = value_commands(alloc, orders)?;
    let check = table_command(alloc, "check")?;
    let checks = marshals.subcommand(check.about("Checks a table"))?;
    let show = show_command(alloc)?;
    let lists = checks.subcommand(show.about("Lists the routines of a table"))?;
    let upgrade = upgrade_command(alloc)?;
    lists.subcommand(upgrade.about("Writes a table in the newest version"))
}

/// All commands of tables and of their objects.
fn commands_of_objects<'a>(alloc: Global, orders: &'a [&'a str]) -> Result<Command<'a>, AllocError>
    ensures { IfOk result (λ program. app_of program ≡ served_app (Names orders.entry)) }
{
    let tables = commands_of_tables(alloc, orders)?;
    let reference = reference_command(alloc)?;
    let refers = tables.subcommand(reference.about("Prints a reference to an object"))?;
    let serve = serve_command(alloc)?;
    refers.subcommand(serve.about("Serves calls to an object that keeps its attributes"))
}

/// The word for a reference.
fn reference_word<'a>(alloc: Global) -> Arg<'a>
    ensures rule { rule_of result ≡ wanted (codes "IOR") None }
    ensures local { result.global ≡ false }
{
    wanted(
        alloc,
        "IOR",
        "A reference; @FILE: that of a file; -: that of standard input",
    )
}

fn describe_command<'a>(alloc: Global) -> Result<Command<'a>, AllocError>
    ensures { IfOk result (λ command. app_of command ≡ describe_app) }
{
    Command::new(alloc, "reference")
        .arg(reference_word(alloc))?
        .arg(explain_flag(alloc))
}

/// The option for the byte order of a request.
fn order_option<'a>(alloc: Global, orders: &'a [&'a str]) -> Arg<'a>
    ensures rule { rule_of result ≡ order_rule (Names orders.entry) }
    ensures local { result.global ≡ false }
{
    Arg::new(alloc, "order")
        .long("order")
        .value_name("ORDER")
        .help("The byte order of the request; big by default")
        .value_parser(orders)
}

/// The option for the seconds that a call may take.
fn wait_option<'a>(alloc: Global) -> Arg<'a>
    ensures rule { rule_of result ≡ wait_rule }
    ensures local { result.global ≡ false }
{
    Arg::new(alloc, "wait")
        .long("wait")
        .value_name("S")
        .help("The seconds that a call may take, 1 to 86400; 30 by default")
        .value_parser(value_parser!(u32).range(1..86401))
}

/// The option for how often it is called.
fn repeat_option<'a>(alloc: Global) -> Arg<'a>
    ensures rule { rule_of result ≡ repeat_rule }
    ensures local { result.global ≡ false }
{
    Arg::new(alloc, "repeat")
        .long("repeat")
        .value_name("N")
        .help("The number of calls; prints how long they took")
        .value_parser(value_parser!(u32).range(1..4294967296))
}

/// The words of a call, but for its options.
fn called_command<'a>(alloc: Global) -> Result<Command<'a>, AllocError>
    ensures { IfOk result (λ command. app_of command ≡ called_app) }
{
    let value = "The arguments as one text; @FILE: that of a file; -: that of standard input";
    table_command(alloc, "call")?
        .arg(reference_word(alloc))?
        .arg(wanted(alloc, "OP", "The operation, or in full A::I::op"))?
        .arg(Arg::new(alloc, "VALUE").help(value))
}

fn call_command<'a>(alloc: Global, orders: &'a [&'a str]) -> Result<Command<'a>, AllocError>
    ensures { IfOk result (λ command. app_of command ≡ call_app (Names orders.entry)) }
{
    called_command(alloc)?
        .arg(order_option(alloc, orders))?
        .arg(wait_option(alloc))?
        .arg(repeat_option(alloc))
}

/// A word that names a capture, which may be left out.
fn capture_word<'a>(alloc: Global, id: &'a str, help: &'a str) -> Arg<'a>
    ensures rule { rule_of result ≡ new_rule id.entry.now }
    ensures local { result.global ≡ false }
{
    Arg::new(alloc, id).help(help)
}

/// The flag for captures that go on.
fn follow_flag<'a>(alloc: Global) -> Arg<'a>
    ensures rule { rule_of result ≡ follow_rule }
    ensures local { result.global ≡ false }
{
    Arg::new(alloc, "follow")
        .long("follow")
        .help("Waits for more at the end of FILE and of BACK, until it is killed")
        .action(ArgAction::SetTrue)
}

fn dump_command<'a>(alloc: Global) -> Result<Command<'a>, AllocError>
    ensures { IfOk result (λ command. app_of command ≡ dump_app) }
{
    let file = "A capture; -, or none: standard input";
    let back = "The octets of the other direction, where FILE has those of one";
    table_command(alloc, "dump")?
        .arg(capture_word(alloc, "FILE", file))?
        .arg(capture_word(alloc, "BACK", back))?
        .arg(follow_flag(alloc))
}

/// The commands but the last one.
fn commands_of_calls<'a>(alloc: Global, orders: &'a [&'a str]) -> Result<Command<'a>, AllocError>
    ensures { IfOk result (λ program. app_of program ≡ objects_app (Names orders.entry)) }
{
    let objects = commands_of_objects(alloc, orders)?;
    let explain = explain_command(alloc)?;
    let explains = objects.subcommand(explain.about("Says what a refusal means"))?;
    let describe = describe_command(alloc)?;
    let describes = explains.subcommand(describe.about("Lists what a reference says"))?;
    let call = call_command(alloc, orders)?;
    describes.subcommand(call.about("Calls an operation of an object, and prints the reply"))
}

/// The whole program.
pub(crate) fn program<'a>(alloc: Global, orders: &'a [&'a str]) -> Result<Command<'a>, AllocError>
    ensures { IfOk result (λ program. app_of program ≡ program_app (Names orders.entry)) }
{
    let calls = commands_of_calls(alloc, orders)?;
    let dump = dump_command(alloc)?;
    calls.subcommand(dump.about("Prints the messages of a capture"))
}
