//! Reads definitions of IDL from tokens (ISO/IEC 19500-1, IDL grammar).
#![tactic(auto)]

/// What was read; where reading stopped, the function stops too.
macro_rules! got {
    ($read:expr) => {
        match $read {
            Ok(part) => part,
            Err(stop) => return Err(stop),
        }
    };
}

mod cursor;
mod read;
mod stop;
mod whole;

pub use cursor::Cursor;
pub use stop::Stop;
pub use whole::read_all;
