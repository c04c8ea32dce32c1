// Lists whose copies share their items.
ghost use Rattle.std.specs.Prelude.{◌≡◌, ◌==◌, [], length, IfOk};

use crate::{List, NoMemory};
use std::alloc::{AllocError, Global};
use std::marker::Model;
use std::rc::RcSlice;

/// A list that stays as it was made. Copies share its items: a copy takes constant time and no memory.
#[derive(Debug, Drop)]
pub struct SharedList<T> {
    // None where there is no item.
    block: Option<RcSlice<T>>,
}

impl<T> Model for SharedList<T> {
    ghost use Rattle.std.specs.Prelude.{List};
    ghost use Rattle.std.specs.Coded.{coded_list};
    ghost use Rattle.pipe_base.specs.Shared.{shared_items};

    ghost Value = { List T };

    ghost coded = { coded_list T.code };

    ghost view = { λ l. shared_items l.block };
}

impl<T: Drop> Clone for SharedList<T> {
    ghost use Rattle.std.specs.Prelude.{◌≡◌};

    ghost is_clone = { λ list copy. copy ≡ list };

    fn clone(&self) -> Result<SharedList<T>, AllocError> {
        let block = match &self.block {
            Some(block) => Some(block.clone()?),
            None => None,
        };
        Ok(SharedList { block })
    }
}

impl<T: Drop> SharedList<T> {
    /// The list without an item. Takes no memory.
    pub fn empty(_alloc: Global) -> SharedList<T>
        ensures { result ≡ [] }
    {
        SharedList { block: None }
    }

    /// The list of a `Vec`'s items, which move into it.
    pub fn from_vec(items: Vec<T>) -> Result<SharedList<T>, NoMemory>
        ensures { IfOk result (λ list. list ≡ items.items) }
    {
        let block = if items.is_empty() {
            None
        } else {
            Some(RcSlice::from_vec(items)?)
        };
        Ok(SharedList { block })
    }

    /// The items of a list, which move into it.
    pub fn from_list(items: List<T>) -> Result<SharedList<T>, NoMemory>
        ensures { IfOk result (λ list. list ≡ items) }
    {
        SharedList::from_vec(items.into_vec())
    }

    /// Another owner of the same items. Takes no memory: `NoMemory` means that they have as many owners as can be counted.
    pub fn try_clone(&self) -> Result<SharedList<T>, NoMemory>
        ensures { IfOk result (λ list. list ≡ self.now) }
    {
        Ok(self.clone()?)
    }
}

impl<T> SharedList<T> {
    pub fn as_slice(&self) -> &[T]
        ensures { result.now ≡ self.now }
    {
        match &self.block {
            Some(block) => block.as_slice(),
            None => &[],
        }
    }

    pub fn len(&self) -> usize
        ensures { result ≡ length self.now }
    {
        match &self.block {
            Some(block) => block.len(),
            None => 0,
        }
    }

    pub fn is_empty(&self) -> bool
        ensures { result ≡ (length self.now == 0) }
    {
        self.len() == 0
    }
}
