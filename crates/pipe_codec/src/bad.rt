// Why bytes are refused.

use pipe_base::NoMemory;
use thiserror::Error;

/// What is wrong with bytes, in the order in which it is looked for.
#[derive(Clone, Copy, Debug, PartialEq, Eq, Error)]
pub enum Bad {
    #[error("shorter than a header")]
    Short,
    #[error("another version")]
    Version,
    #[error("no such kind")]
    Kind,
    /// Fields that no packet or message of the kind has.
    #[error("fields that do not go together")]
    Field,
    #[error("more or fewer bytes than the length says")]
    Length,
}

/// Why no control message was read.
#[derive(Clone, Copy, Debug, PartialEq, Eq, Error)]
pub enum ControlFault {
    #[error("{0}")]
    Bad(Bad),
    #[error("no memory")]
    NoMemory,
}

impl From<Bad> for ControlFault {
    ghost use Rattle.std.specs.Prelude.{◌≡◌};
    ghost use Rattle.pipe_codec.specs.declared.bad.ControlFault.TheVariants.{Bad};

    ghost from_gives = { λ bad e. e ≡ Bad bad };

    fn from(bad: Bad) -> Self {
        ControlFault::Bad(bad)
    }
}

impl From<NoMemory> for ControlFault {
    ghost use Rattle.std.specs.Prelude.{◌≡◌};
    ghost use Rattle.pipe_codec.specs.declared.bad.ControlFault.TheVariants.{NoMemory};

    ghost from_gives = { λ _ e. e ≡ NoMemory };

    fn from(_: NoMemory) -> Self {
        ControlFault::NoMemory
    }
}
