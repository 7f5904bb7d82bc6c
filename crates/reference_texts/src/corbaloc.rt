//! Where an object is, as a corbaloc URL says (CORBA Naming Service, object URLs):
//! `corbaloc:iiop:1.2@HOST:PORT/KEY`.

mod address;
mod cut;
mod fault;
mod key;
mod location;

pub use fault::CorbalocFault;
pub use location::{Location, read_corbaloc};
