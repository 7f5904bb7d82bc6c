//! Tapes, the form in which values travel inside the product, read and written part by part
//! without a value tree: numbers in big order, counted octets, and lists of tagged octets.

pub(crate) mod fault;
pub(crate) mod reading;
pub(crate) mod writing;
