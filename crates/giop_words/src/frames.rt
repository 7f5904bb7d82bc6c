//! The types of the bodies of requests and replies.

ghost use Rattle.std.specs.Prelude.{IfSome};
ghost use Rattle.giop_types.specs.GiopModel.{giop_table};
ghost use Rattle.type_model.specs.Names.{IsNamed};

use crate::names::Named;
use giop::Giop;
use giop_types::{BOOLEAN_RESULT, ID_ARGUMENT, NO_ARGUMENT};
use position_checker::Accepted;
use type_model::part_names::PartNames;

/// What messages are told by: the types of GIOP, a table with the names of the parts of its types, and the
/// names of none.
#[derive(Clone, Copy)]
pub struct MessageTypes<'t> {
    pub giop: &'t Giop,
    pub table: &'t Accepted,
    pub names: &'t PartNames,
    pub nameless: &'t PartNames,
}

/// The frames of an operation's arguments and of its result, and the exceptions that it may raise.
#[derive(Clone, Copy)]
pub(crate) struct Frames<'t> {
    pub(crate) table: &'t Accepted,
    pub(crate) names: &'t PartNames,
    pub(crate) request: u32,
    pub(crate) reply: u32,
    pub(crate) exceptions: &'t [u32],
}

impl<'t> MessageTypes<'t> {
    fn of_table(&self, number: usize) -> Option<Frames<'t>>
        ensures request { IfSome result (λ f. IsNamed f.table.now.model.names f.request) }
        ensures reply { IfSome result (λ f. IsNamed f.table.now.model.names f.reply) }
    {
        match self.table.table().model().operations().get(number) {
            Some(operation) => Some(Frames {
                table: self.table,
                names: self.names,
                request: operation.request,
                reply: operation.reply,
                exceptions: operation.exceptions.as_slice(),
            }),
            None => None,
        }
    }

    /// Those of an operation that every object has, which answers with a boolean.
    fn own(&self, request: u32) -> Frames<'t>
        requires { IsNamed giop_table.model.names request }
        ensures request { IsNamed result.table.now.model.names result.request }
        ensures reply { IsNamed result.table.now.model.names result.reply }
    {
        Frames {
            table: self.giop.table(),
            names: self.nameless,
            request,
            reply: BOOLEAN_RESULT,
            exceptions: &[],
        }
    }

    /// Those of an operation that has neither arguments nor a result of a table.
    pub(crate) fn own_frames(&self) -> Frames<'t>
        ensures request { IsNamed result.table.now.model.names result.request }
        ensures reply { IsNamed result.table.now.model.names result.reply }
    {
        self.own(NO_ARGUMENT)
    }

    /// Those of an operation.
    pub(crate) fn frames(&self, named: Named) -> Option<Frames<'t>>
        ensures request { IfSome result (λ f. IsNamed f.table.now.model.names f.request) }
        ensures reply { IfSome result (λ f. IsNamed f.table.now.model.names f.reply) }
    {
        match named {
            Named::OfTable(number) => self.of_table(number),
            Named::IsA => Some(self.own(ID_ARGUMENT)),
            Named::NonExistent => Some(self.own(NO_ARGUMENT)),
            Named::Unknown => None,
        }
    }
}
