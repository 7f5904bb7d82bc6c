//! Why a file has no model.

ghost use Rattle.std.specs.Prelude.{◌≡◌};
ghost use Rattle.model_builder.specs.declared.fault.ModelFault.TheVariants.{NoMemory};

use lowered_types::TypeFault;
use std::alloc::AllocError;
use thiserror::Error;

/// Why a file has no model. The text of a fault is its number and name, with its line.
#[derive(Debug, Drop, Error)]
pub enum ModelFault {
    /// The first fault of its types.
    #[error("{0}")]
    Types(TypeFault),
    #[error("no memory")]
    NoMemory,
}

impl From<AllocError> for ModelFault {
    ghost from_gives = { λ _ e. e ≡ NoMemory };

    fn from(_error: AllocError) -> ModelFault {
        ModelFault::NoMemory
    }
}
