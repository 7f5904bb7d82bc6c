//! Interfaces, operations and exceptions of a model.

ghost use Rattle.std.specs.Fmt.{◌++?◌};
ghost use Rattle.table_file.specs.Octets.{spelled_list, spelled_word};
ghost use Rattle.table_file.specs.inner.Reading.{Writes};

use crate::cursor::Cursor;
use crate::part::Part;
use crate::tail::Tail;
use marshal_program::TableFault;
use type_graph::Items;
use type_model::{Exception, Interface, Name, Operation};

impl Part for Interface {
    ghost use Rattle.table_file.specs.Spelling.{spelled_interface};
    ghost use Rattle.table_file.specs.inner.PartCodes.{interface_code};
    ghost use Rattle.table_file.specs.inner.Ones.{one_interface};

    ghost spelled = { spelled_interface };

    fn read(cursor: &mut Cursor<'_>) -> Result<Self, TableFault> {
        let (name, (id, (bases, operations))) = <(Name, (Name, (Items<Name>, Items<u32>)))>::read(
            cursor,
        )?;
        Ok(Interface {
            name,
            id,
            bases,
            operations,
        })
    }

    fn skim(cursor: &mut Cursor<'_>) -> Result<usize, TableFault> {
        match <(Name, (Name, (Items<Name>, Items<u32>)))>::skim(cursor) {
            Ok(_) => Ok(0),
            Err(fault) => Err(fault),
        }
    }

    fn write(&self, out: &mut Vec<u8>) -> Result<(), TableFault> {
        self.name.write(out)?;
        self.id.write(out)?;
        self.bases.write(out)?;
        self.operations.write(out)
    }

    fn pass(tail: &mut Tail<'_>) -> bool {
        <(Name, (Name, (Items<Name>, Items<u32>)))>::pass(tail)
    }

    ghost is_code = { interface_code };

    ghost has_one = { one_interface };
}

impl Part for Operation {
    ghost use Rattle.table_file.specs.Spelling.{spelled_operation};
    ghost use Rattle.table_file.specs.inner.PartCodes.{operation_code};
    ghost use Rattle.table_file.specs.inner.Ones.{one_operation};

    ghost spelled = { spelled_operation };

    fn read(cursor: &mut Cursor<'_>) -> Result<Self, TableFault> {
        let (name, (oneway, (request, (reply, exceptions)))) = <(
            Name,
            (bool, (u32, (u32, Items<u32>))),
        )>::read(cursor)?;
        Ok(Operation {
            name,
            oneway,
            request,
            reply,
            exceptions,
        })
    }

    fn write(&self, out: &mut Vec<u8>) -> Result<(), TableFault> {
        self.name.write(out)?;
        self.oneway.write(out)?;
        write_frames(self.request, self.reply, &self.exceptions, out)
    }

    fn pass(tail: &mut Tail<'_>) -> bool {
        <(Name, (bool, (u32, (u32, Items<u32>))))>::pass(tail)
    }

    ghost is_code = { operation_code };

    ghost has_one = { one_operation };
}

/// Puts the frames and exceptions of an operation behind what was written before.
fn write_frames(
    request: u32,
    reply: u32,
    exceptions: &Items<u32>,
    out: &mut Vec<u8>,
) -> Result<(), TableFault>
    ensures { Writes (spelled_word request ++? spelled_word reply
        ++? spelled_list spelled_word exceptions.now) result out.old.items out.new.items }
{
    request.write(out)?;
    reply.write(out)?;
    exceptions.write(out)
}

impl Part for Exception {
    ghost use Rattle.table_file.specs.Spelling.{spelled_exception};
    ghost use Rattle.table_file.specs.inner.PartCodes.{exception_code};
    ghost use Rattle.table_file.specs.inner.Ones.{one_exception};

    ghost spelled = { spelled_exception };

    fn read(cursor: &mut Cursor<'_>) -> Result<Self, TableFault> {
        let (name, (id, frame)) = <(Name, (Name, u32))>::read(cursor)?;
        Ok(Exception { name, id, frame })
    }

    fn write(&self, out: &mut Vec<u8>) -> Result<(), TableFault> {
        self.name.write(out)?;
        self.id.write(out)?;
        self.frame.write(out)
    }

    fn pass(tail: &mut Tail<'_>) -> bool {
        <(Name, (Name, u32))>::pass(tail)
    }

    ghost is_code = { exception_code };

    ghost has_one = { one_exception };
}
