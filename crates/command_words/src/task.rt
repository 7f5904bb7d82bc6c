//! What a run of the program may be asked to do.

ghost use Rattle.std.specs.Prelude.{◌≡◌};

use crate::requests::{Form, ReferenceRequest, ValueRequest};
use type_graph::Order;

/// A value of a table.
#[derive(Clone, Copy)]
pub struct ValueTask<'a> {
    /// The name of the table.
    pub table: &'a str,
    pub form: Form,
    pub request: ValueRequest<'a>,
    /// The value to encode in its form, or where that is text what it is had from; else the octets to
    /// decode, in hexadecimal.
    pub input: &'a str,
}

/// A reference to an object of a table's interface.
#[derive(Clone, Copy)]
pub struct ReferenceTask<'a> {
    /// The name of the table.
    pub table: &'a str,
    pub wanted: ReferenceRequest<'a>,
}

/// Calls to an object of a table's interface, that come by a socket.
#[derive(Clone, Copy)]
pub struct Service<'a> {
    /// The name of the table.
    pub table: &'a str,
    pub port: u16,
    /// The key of the object, an equals sign, and the name of its interface.
    pub object: &'a str,
    /// So many connections are served.
    pub connections: u32,
    /// So many of them at most at the same time, 1 to 64; else one after the other.
    pub at_once: Option<u8>,
    /// A connection ends on which no octets move for so many seconds. 0: none does.
    pub idle: u32,
}

/// A call of an object.
#[derive(Clone, Copy)]
pub struct CallTask<'a> {
    /// The name of the table.
    pub table: &'a str,
    /// The reference to the object, or what it is had from.
    pub reference: &'a str,
    pub operation: &'a str,
    /// The arguments as one text, or what it is had from, where there are any.
    pub value: Option<&'a str>,
    /// The byte order of the request, big where none is named.
    pub order: Order,
    /// It may take so many seconds, 1 to 86,400; 30 where none are named.
    pub wait: u32,
    /// So often it is called, from 1 on; once where nothing is named.
    pub repeat: u32,
}

/// A capture of the messages of a connection.
#[derive(Clone, Copy)]
pub struct DumpTask<'a> {
    /// The name of the table.
    pub table: &'a str,
    /// The file that has it, standard input where none is named.
    pub file: Option<&'a str>,
    /// The file of the other direction, where the first has one alone.
    pub back: Option<&'a str>,
    /// Whether the files may go on behind their ends.
    pub follow: bool,
}

/// What is asked of a table.
#[derive(Clone, Copy)]
pub enum TableTask<'a> {
    Value(ValueTask<'a>),
    Reference(ReferenceTask<'a>),
    Check {
        table: &'a str,
    },
    Show {
        table: &'a str,
        /// Whether it is told too what the texts of values look like.
        types: bool,
    },
}

impl<'a> TableTask<'a> {
    ghost use Rattle.command_words.specs.Ask.{table_of};

    /// The name of the table.
    pub fn table(&self) -> &'a str
        ensures { result.now ≡ table_of self.now }
    {
        match self {
            TableTask::Value(asked) => asked.table,
            TableTask::Reference(asked) => asked.table,
            TableTask::Check { table } | TableTask::Show { table, .. } => table,
        }
    }
}

/// What a run is asked to do.
#[derive(Clone, Copy)]
pub enum Task<'a> {
    Table(TableTask<'a>),
    /// What the refusals of a number or a name mean, or which there are.
    Explain { word: Option<&'a str> },
    /// What a reference says.
    Describe { reference: &'a str },
    Upgrade { table: &'a str, output: &'a str },
    /// The table of an IDL file, in another file.
    Compile { source: &'a str, output: &'a str },
}

/// What the words say.
#[derive(Drop)]
pub enum Said<'a> {
    /// The text of asked-for help.
    Help(String),
    Do(Task<'a>),
    Serve(Service<'a>),
    Call(CallTask<'a>),
    Dump(DumpTask<'a>),
}

/// A command line.
#[derive(Drop)]
pub struct Line<'a> {
    pub said: Said<'a>,
    /// Whether what else is known of a fault is asked for, by `--explain`.
    pub explains: bool,
}
