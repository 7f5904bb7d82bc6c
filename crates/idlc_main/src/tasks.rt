//! What the commands do.

ghost use Rattle.std.specs.Prelude.{◌≡◌, IfErr, IfOk, OnOk, None, Some};
ghost use Rattle.std.specs.String.{string_bytes};
ghost use Rattle.command_words.specs.Ask.{Compile, Explanation, Upgrade, ask_of, value_ask_of};
ghost use Rattle.idl_compiler.specs.Files.{IsCompiledFile};
ghost use Rattle.command_tables.specs.Named.{IsUnwritten};
ghost use Rattle.idlc_main.specs.Answer.{IsAnswer};
ghost use Rattle.idlc_main.specs.Fault.{IsTold};
ghost use Rattle.idlc_main.specs.Tables.{Answers, AnswersBy, IsRefusalBy, Refuses, RefusesBy};

use crate::descriptions::described;
use crate::fault::Fault;
use crate::told::{Notice, TaskOutput};
use command_files::load;
use command_tables::{
    Refusal, WholeFiles, input_of, read_file, reference_line, upgrade, write_file,
};
use command_texts::{Loaded, shown, value_line};
use command_words::{TableTask, Task, ValueTask};
use diagnostic_texts::{explanations, headings};
use idl_compiler::{CompiledFile, compile_file};
use position_checker::accepted_line;

/// The line of a value, whose word may have its text from a file.
fn value<'a, R: WholeFiles + AllocGlobal>(
    rt: &R,
    asked: &ValueTask<'a>,
    loaded: &Loaded,
) -> Result<String, Refusal<'a>>
    ensures line { IfOk result (λ line. AnswersBy (R.reads rt.now) (value_ask_of asked.now) (string_bytes line)
        loaded.now.table loaded.now.names) }
    ensures refused { IfErr result (λ refusal. RefusesBy (R.reads rt.now) (value_ask_of asked.now) refusal
        loaded.now.table loaded.now.names) }
{
    let input = input_of(rt, asked.form, asked.request.way, asked.input)?;
    value_line(
        rt.alloc(),
        loaded,
        asked.form,
        &asked.request,
        input.as_str(),
    )
}

/// The line that a table answers with that was loaded.
fn line_by<'a, R: WholeFiles + AllocGlobal>(
    rt: &R,
    task: &TableTask<'a>,
    loaded: &Loaded,
) -> Result<String, Refusal<'a>>
    ensures line { IfOk result (λ line. Answers (R.reads rt.now) task.now (string_bytes line)
        loaded.now.table loaded.now.names) }
    ensures refused { IfErr result (λ refusal. Refuses (R.reads rt.now) task.now refusal
        loaded.now.table loaded.now.names) }
{
    match task {
        TableTask::Value(asked) => value(rt, asked, loaded),
        TableTask::Reference(asked) => reference_line(rt.alloc(), &loaded.table, &asked.wanted),
        TableTask::Check { .. } => Ok(accepted_line(rt.alloc(), &loaded.table)?),
        TableTask::Show { types, .. } => Ok(shown(rt.alloc(), loaded, *types)?),
    }
}

/// What is answered by a table that was loaded.
fn answered<'a, R: WholeFiles + AllocGlobal>(
    rt: &R,
    task: &TableTask<'a>,
    loaded: &Loaded,
) -> Result<TaskOutput, Fault<'a>>
    ensures line { IfOk result (λ answer. Answers (R.reads rt.now) task.now (string_bytes answer.text)
        loaded.now.table loaded.now.names) }
    ensures refused { IfErr result (IsRefusalBy (Refuses (R.reads rt.now) task.now) loaded.now.table loaded.now.names) }
    ensures told { IfErr result IsTold }
{
    match line_by(rt, task, loaded) {
        Ok(line) => Ok(TaskOutput::plain(line)),
        Err(refusal) => Err(Fault::Refused(refusal)),
    }
}

/// The line of a table that was written anew.
fn upgraded<'a, R: WholeFiles + AllocGlobal>(
    rt: &R,
    name: &'a str,
    output: &'a str,
) -> Result<TaskOutput, Fault<'a>>
    ensures answers { IsAnswer (R.reads rt.now) (R.takes rt.now) (Upgrade name.now output.now) result }
    ensures told { IfErr result IsTold }
{
    match upgrade(rt, name, output) {
        Ok(line) => Ok(TaskOutput::plain(line)),
        Err(refusal) => Err(Fault::Refused(refusal)),
    }
}

/// The texts of the refusals that a word means.
fn explained<'a, R: WholeFiles + AllocGlobal>(
    rt: &R,
    word: &'a str,
) -> Result<TaskOutput, Fault<'a>>
    ensures answers { IsAnswer (R.reads rt.now) (R.takes rt.now) (Explanation (Some word.now)) result }
    ensures told { IfErr result IsTold }
{
    let texts = explanations(rt.alloc(), word)?;
    if texts.is_empty() {
        return Err(Fault::NoRefusal { word });
    }
    Ok(TaskOutput::plain(texts))
}

/// The numbers and names of all refusals.
fn listed<'a, R: WholeFiles + AllocGlobal>(rt: &R) -> Result<TaskOutput, Fault<'a>>
    ensures answers { IsAnswer (R.reads rt.now) (R.takes rt.now) (Explanation None) result }
    ensures told { IfErr result IsTold }
{
    Ok(TaskOutput::plain(headings(rt.alloc())?))
}

/// Writes the table file of an IDL file. It is handed no other octets.
fn put_compiled<'a, R: WholeFiles>(
    rt: &R,
    output: &'a str,
    source: &[u8],
    file: &CompiledFile,
) -> Result<(), Refusal<'a>>
    requires { IsCompiledFile source.now file.now }
    ensures taken { OnOk result (R.takes rt.now output.now file.now.octets.items) }
    ensures refused { IfErr result (IsUnwritten output.now) }
{
    write_file(rt, output, file.octets.as_slice())
}

/// The table of an IDL file, in another file; then how many routines it has.
fn compile<'a, R: WholeFiles + AllocGlobal>(
    rt: &R,
    name: &'a str,
    output: &'a str,
) -> Result<TaskOutput, Fault<'a>>
    ensures answers { IsAnswer (R.reads rt.now) (R.takes rt.now) (Compile name.now output.now) result }
    ensures told { IfErr result IsTold }
{
    let source = match read_file(rt, name) {
        Ok(octets) => octets,
        Err(refusal) => return Err(Fault::Refused(refusal)),
    };
    let file = match compile_file(rt.alloc(), source.as_slice()) {
        Ok(file) => file,
        Err(fault) => return Err(Fault::NotCompiled { fault, source }),
    };
    match put_compiled(rt, output, source.as_slice(), &file) {
        Ok(()) => Ok(TaskOutput {
            text: file.line,
            notice: if file.is_planned {
                None
            } else {
                Some(Notice::PlanUnused)
            },
        }),
        Err(refusal) => Err(Fault::Refused(refusal)),
    }
}

/// The name of the table or the IDL file that a task is about.
pub fn file_in<'a>(task: &Task<'a>) -> Option<&'a str> {
    match task {
        Task::Table(task) => Some(task.table()),
        Task::Upgrade { table, .. } => Some(table),
        Task::Compile { source, .. } => Some(source),
        Task::Explain { .. } | Task::Describe { .. } => None,
    }
}

/// Does what is asked for, and gives the text for standard output.
pub fn done<'a, R: WholeFiles + AllocGlobal>(
    rt: &R,
    task: &Task<'a>,
) -> Result<TaskOutput, Fault<'a>>
    ensures answers { IsAnswer (R.reads rt.now) (R.takes rt.now) (ask_of task.now) result }
    ensures told { IfErr result IsTold }
{
    match task {
        Task::Table(task) => match load(rt, task.table()) {
            Ok(loaded) => answered(rt, task, &loaded),
            Err(fault) => Err(Fault::from(fault)),
        },
        Task::Explain { word: Some(word) } => explained(rt, word),
        Task::Explain { word: None } => listed(rt),
        Task::Describe { reference } => described(rt, reference),
        Task::Upgrade { table, output } => upgraded(rt, table, output),
        Task::Compile { source, output } => compile(rt, source, output),
    }
}
