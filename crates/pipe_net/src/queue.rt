// One list of what waits.
ghost use Rattle.std.specs.Prelude.{◌≡◌, ◌∷◌, ◌++◌, ◌<◌, ◌^◌, ◌-◌, [], if◌then◌else◌, false, length, nat_lt, slice_get, remove, IfOk, IsOk, OnOk, OnErr};

use crate::blocks::{Blocks, at, find, push, take};
use pipe_base::NoMemory;
use std::alloc::Global;
use std::collections::VecDeque;
use std::marker::Model;

/// Items in the order put, in blocks, of which none is empty but an only one.
#[derive(Drop)]
pub struct Queue<T> {
    blocks: Blocks<T>,
    len: u32,
}

impl<T> Model for Queue<T> {
    ghost use Rattle.std.specs.Prelude.{◌≡◌, List, length};
    ghost use Rattle.std.specs.Coded.{coded_list};
    ghost use Rattle.pipe_net.specs.Blocks.{joined};

    ghost Value = { List T };

    ghost coded = { coded_list T.code };

    ghost view = { λ q. joined q.blocks.items };

    ghost invariant = { λ q. q.len ≡ length (joined q.blocks.items) };
}

impl<T: Clone> Queue<T> {
    /// The empty queue. Takes no memory.
    pub fn new(alloc: Global) -> Self
        ensures { result ≡ [] }
    {
        Queue {
            blocks: VecDeque::new(alloc),
            len: 0,
        }
    }

    pub fn len(&self) -> u32
        ensures { result ≡ length self.now }
    {
        self.len
    }

    /// Puts an item at the end.
    pub fn put(&mut self, item: T) -> Result<(), NoMemory>
        requires { length self.old < 2 ^ 32 - 1 }
        ensures ok { OnOk result (self.new ≡ self.old ++ item ∷ []) }
        ensures err { OnErr result (self.new ≡ self.old) }
    {
        push(&mut self.blocks, item)?;
        self.len += 1;
        Ok(())
    }

    /// Takes the item at a place out, or with `keep` a copy of it.
    pub fn take(&mut self, place: u32, keep: bool) -> Result<Option<T>, NoMemory>
        ensures taken { ((x y : T) → T.is_clone x y → y ≡ x) → IfOk result (λ item. item ≡ slice_get self.old place) }
        ensures left { OnOk result (self.new ≡ (if keep then self.old else remove self.old place)) }
        ensures err { OnErr result (self.new ≡ self.old) }
        ensures moves { keep ≡ false → IsOk result }
    {
        if keep {
            self.copy(place)
        } else {
            Ok(self.remove(place))
        }
    }

    /// Takes the item at a place away, false where there is none. Takes no memory.
    pub fn lose(&mut self, place: u32) -> bool
        ensures found { result ≡ nat_lt place (length self.old) }
        ensures left { self.new ≡ remove self.old place }
    {
        self.remove(place).is_some()
    }

    fn copy(&self, place: u32) -> Result<Option<T>, NoMemory>
        ensures { ((x y : T) → T.is_clone x y → y ≡ x) → IfOk result (λ item. item ≡ slice_get self.now place) }
    {
        if place >= self.len {
            return Ok(None);
        }
        let place = find(&self.blocks, self.len as usize, place as usize);
        Ok(Some(at(&self.blocks, place).clone()?))
    }

    fn remove(&mut self, place: u32) -> Option<T>
        ensures item { result ≡ slice_get self.old place }
        ensures left { self.new ≡ remove self.old place }
    {
        if place >= self.len {
            return None;
        }
        let place = find(&self.blocks, self.len as usize, place as usize);
        self.len -= 1;
        take(&mut self.blocks, place)
    }
}
