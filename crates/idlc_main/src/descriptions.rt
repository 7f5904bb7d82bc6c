//! What references say.

ghost use Rattle.std.specs.Prelude.{IfErr, IfOk};
ghost use Rattle.std.specs.String.{string_bytes};
ghost use Rattle.command_words.specs.Ask.{Description};
ghost use Rattle.command_tables.specs.Texts.{IsTextFor};
ghost use Rattle.idlc_main.specs.Answer.{IsAnswer};
ghost use Rattle.idlc_main.specs.Descriptions.{IsDescribed, IsDescriptionFault};
ghost use Rattle.idlc_main.specs.Fault.{IsTold};

use crate::fault::Fault;
use crate::told::TaskOutput;
use command_tables::{Refusal, WholeFiles, text_of};
use giop_types::GiopTypes;
use reference_listing::spelled_references::{SpellingFault, described_reference};

/// The lines of the reference that a text spells, which a word stands for.
fn described_text<'a, R: WholeFiles + AllocGlobal>(
    rt: &R,
    word: &str,
    text: &str,
) -> Result<TaskOutput, Fault<'a>>
    requires { IsTextFor (R.reads rt.now) word.now text.now }
    ensures described { IfOk result (λ answer.
        IsDescribed (R.reads rt.now) word.now (string_bytes answer.text)) }
    ensures refused { IfErr result (IsDescriptionFault (R.reads rt.now) word.now) }
{
    let types = GiopTypes::new(rt.alloc())?;
    match described_reference(&types, rt.alloc(), text.trim_ascii()) {
        Ok(lines) => Ok(TaskOutput::plain(lines)),
        Err(fault) => Err(Fault::NotSpelled(fault)),
    }
}

/// What the reference says for which a word stands.
pub fn described<'a, R: WholeFiles + AllocGlobal>(
    rt: &R,
    word: &'a str,
) -> Result<TaskOutput, Fault<'a>>
    ensures answers { IsAnswer (R.reads rt.now) (R.takes rt.now) (Description word.now) result }
    ensures told { IfErr result IsTold }
{
    match text_of(rt, word) {
        Ok(text) => described_text(rt, word, text.as_str()),
        Err(Refusal::Unsaid(_)) => Err(Fault::NotSpelled(SpellingFault::BadIor)),
        Err(refusal) => Err(Fault::Refused(refusal)),
    }
}
