//! Reading the parts of a tree. Each function takes from the cursor what its part spells; `room` is how many
//! levels may stand inside.

pub(crate) mod constructed;
pub(crate) mod declarations;
pub(crate) mod definitions;
pub(crate) mod expressions;
pub(crate) mod interfaces;
pub(crate) mod lists;
pub(crate) mod names;
pub(crate) mod types;
