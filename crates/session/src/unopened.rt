// Why a desk was not opened.
ghost use Rattle.std.specs.Prelude.{◌≡◌};
ghost use Rattle.session.specs.declared.unopened.Unopened.TheVariants.{NoMemory};

use std::alloc::AllocError;
use thiserror::Error;
use wire::Refusal;

/// The size is refused, or there is no memory.
#[derive(Clone, Copy, Debug, Drop, PartialEq, Eq, Error)]
pub enum Unopened {
    #[error("{0}")]
    Refused(Refusal),
    #[error("there is no memory")]
    NoMemory,
}

impl From<AllocError> for Unopened {
    ghost from_gives = { λ _ why. why ≡ NoMemory };

    fn from(_: AllocError) -> Self {
        Unopened::NoMemory
    }
}
