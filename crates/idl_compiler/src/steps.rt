//! The steps from a text to its table.

ghost use Rattle.std.specs.Prelude.{◌≡◌, IfErr, IfOk};
ghost use Rattle.idl_compiler.specs.Compiled.{ArePartsOf, IsModelOf, IsNamedTable, IsTableOf};
ghost use Rattle.idl_compiler.specs.Refused.{HasNoTableBut, IsFaultOf, IsRefused};
ghost use Rattle.idl_compiler.specs.inner.Modelled.{IsBuilt};
ghost use Rattle.idl_compiler.specs.declared.fault.CompileFault.TheVariants.{NoMemory};

use crate::choice::{Settled, settle};
use crate::fault::CompileFault;
use crate::laws::refused_has_no_table;
use generator::plain;
use idl_lexer::lex;
use idl_parser::parse;
use idl_tree::spec::Spec;
use model_builder::{Built, build};
use optimiser::planned;
use scoped_names::bind;
use std::alloc::Global;
use type_model::Model;
use type_model::part_names::PartNames;

/// A table, and the names of the parts of its types by the numbers of their nodes.
#[derive(Drop)]
pub struct NamedTable {
    pub settled: Settled,
    pub names: PartNames,
}

/// What has a model whose types have parts with names. A tree is one. (A borrow of a tree that a
/// function has itself costs the borrow checker more steps than it may take; one of a value of any
/// type doesn't.)
trait HasModel {
    ghost use Rattle.std.specs.Prelude.{ℕ, List};
    ghost use Rattle.type_model.specs.ModelRules.{Parts};
    ghost use Rattle.idl_compiler.specs.declared.fault.CompileFault.{CompileFault};

    ghost shows: { Self → Parts → Type 0 };

    ghost names: { Self → List (List (List ℕ)) → Type 0 };

    ghost lacks: { Self → CompileFault → Type 0 };

    fn built(&self, alloc: Global) -> Result<Built, CompileFault>
        ensures shown { IfOk result (λ built. shows self.now built.model) }
        ensures named { IfOk result (λ built. names self.now built.parts) }
        ensures faults { IfErr result (lacks self.now) };
}

impl<'a> HasModel for Spec<'a> {
    ghost shows = { λ spec. IsModelOf spec.definitions.items };

    ghost names = { λ spec. ArePartsOf spec.definitions.items };

    ghost lacks = { λ spec. IsFaultOf spec.definitions.items };

    fn built(&self, alloc: Global) -> Result<Built, CompileFault> {
        let names = bind(alloc, self)?;
        Ok(build(alloc, self, &names)?)
    }
}

/// The table of a model: with the planned program, where the checker accepts that, else with the
/// plain one alone.
fn table_of_model(alloc: Global, model: Model) -> Result<Settled, CompileFault>
    ensures table { IfOk result (IsTableOf model) }
    ensures memory { IfErr result (λ fault. fault ≡ NoMemory) }
{
    let first = plain(alloc, &model)?;
    let second = planned(alloc, &model);
    Ok(settle(alloc, model, first, second)?)
}

/// The model of what has one, which is let go, and the names of the parts of its types.
fn built_of<T: HasModel + Drop>(alloc: Global, whole: T) -> Result<Built, CompileFault>
    ensures shown { IfOk result (λ built. T.shows whole built.model) }
    ensures named { IfOk result (λ built. T.names whole built.parts) }
    ensures faults { IfErr result (T.lacks whole) }
{
    whole.built(alloc)
}

// Tokens are let go before the model is made, and the tree before the table is.

/// The model of a text with the names of the parts of its types, or the fault of the first step that
/// refuses it.
fn built_of_text(alloc: Global, source: &str) -> Result<Built, CompileFault>
    ensures built { IfOk result (IsBuilt source.now) }
    ensures refused { IfErr result (IsRefused source.now) }
{
    let tokens = lex(alloc, source)?;
    let spec = parse(alloc, &tokens)?;
    drop(tokens);
    built_of(alloc, spec)
}

/// The table of a text.
fn table_of_text(alloc: Global, source: &str) -> Result<NamedTable, CompileFault>
    ensures compiled { IfOk result (IsNamedTable source.now) }
    ensures refused { IfErr result (IsRefused source.now) }
{
    let Built { model, parts } = built_of_text(alloc, source)?;
    let settled = table_of_model(alloc, model)?;
    Ok(NamedTable {
        settled,
        names: parts,
    })
}

/// The table of an IDL file (ISO/IEC 19500-1), as a preprocessor leaves it, that the checker
/// accepted: its types with their names, its interfaces, operations and exceptions, and the
/// programs that marshal its values; with the names of members, enumerators, parameters and results.
///
/// # Errors
/// The first fault with its line, tokens before grammar, grammar before names, names before types;
/// want of memory.
pub fn compile(alloc: Global, source: &str) -> Result<NamedTable, CompileFault>
    ensures compiled { IfOk result (IsNamedTable source.now) }
    ensures refused { IfErr result (IsRefused source.now) }
    ensures none { IfErr result (HasNoTableBut source.now) }
{
    refused_has_no_table();
    table_of_text(alloc, source)
}
