//! The words of a command line, and what they ask for, as `clap` reads them.
#![tactic(auto)]

mod commands;
mod line;
mod matches;
mod mistake;
pub mod requests;
mod spoken;
mod task;

pub use line::parse;
pub use mistake::Mistake;
pub use task::{
    CallTask, DumpTask, Line, ReferenceTask, Said, Service, TableTask, Task, ValueTask,
};
