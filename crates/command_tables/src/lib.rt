//! What the commands of the program do with a table: how files are read and written whole, how a
//! table is had from octets, shown as text, and what is answered to one who asks it for a value or
//! for a reference to an object of its interfaces.
#![tactic(auto)]

mod builtin;
mod escaped;
mod named;
mod object;
mod reference;
mod refusal;
mod shown_instr;
mod shown_program;
mod shown_table;
mod source;
mod text;
mod values;
mod whole_files;
mod whole_read;
mod whole_write;

pub use builtin::sample;
pub use escaped::{Escaped, Plain};
pub use named::{SAMPLE, read_file, table_of, upgrade, write_file};
pub use object::{interface_place, object_in};
pub use reference::reference_line;
pub use refusal::Refusal;
pub use shown_instr::ShownInstr;
pub use shown_table::listing;
pub use source::{accepted, upgraded};
pub use text::{input_of, text_of};
pub use values::{marshal, octets_line, octets_of};
pub use whole_files::WholeFiles;
pub use whole_read::ReadFault;
pub use whole_write::WriteFault;
