// What a message carries.
ghost use Rattle.std.specs.Prelude.{◌≡◌, ◌<◌, ◌≤◌, ◌↔◌, ℕ, [], length, IfOk};
ghost use Rattle.pipe_base.specs.Limits.{most_body};

use crate::{NoMemory, SharedList};
use std::alloc::{AllocError, Global};
use std::marker::Model;
use thiserror::Error;

/// The most bytes that a body has.
pub const BODY_LIMIT: usize = 1024;

/// The bytes of a message, at most `BODY_LIMIT`. Copies share them: a copy takes constant time and no memory.
#[derive(Debug, Drop)]
pub struct Body {
    bytes: SharedList<u8>,
}

impl Model for Body {
    ghost use Rattle.std.specs.Prelude.{List, ℕ, ◌≤◌, length};
    ghost use Rattle.pipe_base.specs.Limits.{most_body};

    ghost Value = { List ℕ };

    ghost view = { λ b. b.bytes };

    ghost invariant = { λ b. length b.bytes ≤ most_body };
}

impl Clone for Body {
    ghost use Rattle.std.specs.Prelude.{◌≡◌};

    ghost is_clone = { λ body copy. copy ≡ body };

    fn clone(&self) -> Result<Body, AllocError> {
        Ok(Body {
            bytes: self.bytes.clone()?,
        })
    }
}

/// Why there is no body.
#[derive(Clone, Copy, Debug, PartialEq, Eq, Error)]
pub enum BodyFault {
    #[error("{len} bytes are more than a body has")]
    TooLong { len: usize },
    #[error("no memory")]
    NoMemory,
}

impl From<NoMemory> for BodyFault {
    ghost use Rattle.std.specs.Prelude.{◌≡◌};
    ghost use Rattle.pipe_base.specs.declared.body.BodyFault.TheVariants.{NoMemory};

    ghost from_gives = { λ _ e. e ≡ NoMemory };

    fn from(_: NoMemory) -> Self {
        BodyFault::NoMemory
    }
}

impl Body {
    pub fn new(alloc: Global, bytes: &[u8]) -> Result<Body, BodyFault>
        ensures ok { IfOk result (λ body. body ≡ bytes.now) }
        ensures too_long { (n : ℕ) → (result ≡ Err (BodyFault.TooLong n)) ↔ ((most_body < length bytes.now)
            × (n ≡ length bytes.now)) }
    {
        if bytes.len() > BODY_LIMIT {
            return Err(BodyFault::TooLong { len: bytes.len() });
        }
        let Ok(bytes) = Vec::from_slice(alloc, bytes) else {
            return Err(BodyFault::NoMemory);
        };
        Body::from_vec(bytes)
    }

    /// The body of a `Vec`'s bytes, which moves into it.
    pub fn from_vec(bytes: Vec<u8>) -> Result<Body, BodyFault>
        ensures ok { IfOk result (λ body. body ≡ bytes.items) }
        ensures too_long { (n : ℕ) → (result ≡ Err (BodyFault.TooLong n)) ↔ ((most_body < length bytes.items)
            × (n ≡ length bytes.items)) }
    {
        let len = bytes.len();
        if len > BODY_LIMIT {
            return Err(BodyFault::TooLong { len });
        }
        Ok(Body {
            bytes: SharedList::from_vec(bytes)?,
        })
    }

    /// The empty body. Takes no memory.
    pub fn empty(alloc: Global) -> Body
        ensures { result ≡ [] }
    {
        Body {
            bytes: SharedList::empty(alloc),
        }
    }

    pub fn bytes(&self) -> &[u8]
        ensures value { result.now ≡ self.now }
        ensures short { length self.now ≤ most_body }
    {
        self.bytes.as_slice()
    }

    /// Another owner of the same bytes. Takes no memory: `NoMemory` means that they have as many owners as can be counted.
    pub fn try_clone(&self) -> Result<Body, NoMemory>
        ensures { IfOk result (λ body. body ≡ self.now) }
    {
        Ok(self.clone()?)
    }
}
