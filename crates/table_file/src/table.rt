//! A table: a model, two programs, and which of them serves each name.

ghost use Rattle.std.specs.Prelude.{◌≡◌, ◌↔◌, ◌<◌, IfOk, IfErr, IsTrue, length};
ghost use Rattle.marshal_program.specs.declared.fault.TableFault.TheVariants.{BadNumber};
ghost use Rattle.marshal_program.specs.ProgramRules.{IsProgram};
ghost use Rattle.type_model.specs.ModelRules.{IsModel};
ghost use Rattle.table_file.specs.Table.{AreUses, IsTable, program_at, table_of};

use crate::uses::are_uses;
use marshal_program::{Program, TableFault};
use type_graph::Items;
use type_model::Model;

/// Which of a table's two programs serves a name.
#[derive(Clone, Copy, Debug, Drop, PartialEq, Eq)]
pub enum Which {
    First,
    Second,
}

impl Which {
    ghost use Rattle.table_file.specs.Table.{program_number};

    /// 0 for the first program, 1 for the second.
    pub fn number(self) -> u8
        ensures { result ≡ program_number self }
    {
        match self {
            Which::First => 0,
            Which::Second => 1,
        }
    }
}

/// A model, two programs, and for each name of the model, in order, the program that serves it.
#[derive(Drop)]
pub struct Table {
    model: Model,
    first: Program,
    second: Program,
    uses: Items<Which>,
}

impl std::marker::Model for Table {
    ghost use Rattle.table_file.specs.Table.{TableParts, IsTable, table_of};

    ghost Value = { TableParts };

    ghost view = { λ t. table_of t.model t.first t.second t.uses };

    ghost invariant = { λ t. IsTable (table_of t.model t.first t.second t.uses) };
}

impl Table {
    /// The table of just these parts. Takes no memory.
    ///
    /// # Errors
    /// `BadNumber` exactly where there isn't a use for each name, or names of one node have unlike
    /// uses.
    pub fn new(
        model: Model,
        first: Program,
        second: Program,
        uses: Items<Which>,
    ) -> Result<Table, TableFault>
        ensures kept { IfOk result (λ table. table ≡ table_of model first second uses) }
        ensures rules { IfOk result IsTable }
        ensures refused { IfErr result (λ fault. (fault ≡ BadNumber) × (AreUses model.names uses → ⊥)) }
    {
        if !are_uses(model.names(), uses.as_slice()) {
            return Err(TableFault::BadNumber);
        }
        Ok(Table {
            model,
            first,
            second,
            uses,
        })
    }

    /// Gives the parts back: the model, both programs and the uses. Takes no memory.
    pub fn parts(self) -> (Model, Program, Program, Items<Which>)
        ensures { table_of result.0 result.1 result.2 result.3 ≡ self }
    {
        (self.model, self.first, self.second, self.uses)
    }

    pub fn model(&self) -> &Model
        ensures value { result.now ≡ self.now.model }
        ensures rules { IsTable self.now }
    {
        &self.model
    }

    /// The program that serves the names of the first use.
    pub fn first(&self) -> &Program
        ensures value { result.now ≡ self.now.first }
        ensures rules { IsTable self.now }
    {
        &self.first
    }

    /// The program that serves the names of the second use.
    pub fn second(&self) -> &Program
        ensures value { result.now ≡ self.now.second }
        ensures rules { IsTable self.now }
    {
        &self.second
    }

    /// The program that serves the names of a use.
    pub fn program(&self, which: Which) -> &Program
        ensures value { result.now ≡ program_at self.now which }
        ensures rules { IsTable self.now }
    {
        match which {
            Which::First => self.first(),
            Which::Second => self.second(),
        }
    }

    /// A use for each name, in order.
    pub fn uses(&self) -> &[Which]
        ensures value { result.now ≡ self.now.uses }
        ensures rules { IsTable self.now }
    {
        self.uses.as_slice()
    }
}
