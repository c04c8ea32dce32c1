// Lists that only grow, of which a node is told again and again.
ghost use Rattle.std.specs.Prelude.{◌≡◌, [], ◌∷◌, ◌++◌, ◌≤◌, length, take, IfOk, OnOk, OnErr};
ghost use Rattle.pipe_base.specs.Failed.{past_known};
ghost use Rattle.pipe_base.specs.Limits.{most_entries};

use crate::NoMemory;
use std::alloc::{AllocError, Global};
use std::marker::Model;

/// Entries in the order in which a node came to know of them, at most 65,535. A list that tells them begins with those that are
/// known, so what is new in it are the entries past their number. `truncate` alone takes entries away, to undo an `adopt`.
#[derive(Debug, Drop)]
pub struct Told<T> {
    entries: Vec<T>,
}

impl<T> Model for Told<T> {
    ghost use Rattle.std.specs.Prelude.{◌≤◌, List, length};
    ghost use Rattle.std.specs.Coded.{coded_list};
    ghost use Rattle.pipe_base.specs.Limits.{most_entries};

    ghost Value = { List T };

    ghost coded = { coded_list T.code };

    ghost view = { λ t. t.entries.items };

    ghost invariant = { λ t. length t.entries.items ≤ most_entries };
}

impl<T: Copy> Clone for Told<T> {
    ghost use Rattle.std.specs.Prelude.{◌≡◌};

    ghost is_clone = { λ told copy. copy ≡ told };

    fn clone(&self) -> Result<Told<T>, AllocError> {
        let entries = Vec::from_slice(*self.entries.allocator(), self.entries.as_slice())?;
        Ok(Told { entries })
    }
}

impl<T: Copy> Told<T> {
    /// Nothing is known. Takes no memory.
    pub fn new(alloc: Global) -> Told<T>
        ensures { result ≡ [] }
    {
        Told {
            entries: Vec::new(alloc),
        }
    }

    /// The entries of a list past the number of those known. Takes no memory.
    pub fn news<'a>(&self, list: &'a [T]) -> &'a [T]
        ensures { result.now ≡ past_known self.now list.now }
    {
        match list.get(self.entries.len()..) {
            Some(news) => news,
            None => &[],
        }
    }

    /// Adds the entries of a list past the number of those known, and answers how many. For more than 65,535 in all there is no
    /// memory.
    pub fn adopt(&mut self, list: &[T]) -> Result<u16, NoMemory>
        ensures known { OnOk result (self.new ≡ self.old ++ past_known self.old list.now) }
        ensures count { IfOk result (λ count. count ≡ length (past_known self.old list.now)) }
        ensures err { OnErr result (self.new ≡ self.old) }
    {
        let news = self.news(list);
        if news.len() > usize::from(u16::MAX) - self.entries.len() {
            return Err(NoMemory);
        }
        self.entries.extend_from_slice(news)?;
        Ok(news.len() as u16)
    }

    /// Adds one more entry.
    pub fn push(&mut self, entry: T) -> Result<(), NoMemory>
        ensures ok { OnOk result (self.new ≡ self.old ++ entry ∷ []) }
        ensures err { OnErr result (self.new ≡ self.old) }
    {
        if self.entries.len() == usize::from(u16::MAX) {
            return Err(NoMemory);
        }
        self.entries.push(entry)?;
        Ok(())
    }

    /// These entries and then some more. For more than 65,535 in all there is no memory.
    pub fn with(&self, news: &[T]) -> Result<Told<T>, NoMemory>
        ensures { IfOk result (λ told. told ≡ self.now ++ news.now) }
    {
        if news.len() > usize::from(u16::MAX) - self.entries.len() {
            return Err(NoMemory);
        }
        let mut told = self.try_clone()?;
        told.entries.extend_from_slice(news)?;
        Ok(told)
    }

    /// Keeps so many first entries: the way back from an `adopt` or a `push`. Takes no memory.
    pub fn truncate(&mut self, count: usize)
        ensures { self.new ≡ take count self.old }
    {
        self.entries.truncate(count);
    }

    /// How many entries are known.
    pub fn count(&self) -> u16
        ensures { result ≡ length self.now }
    {
        self.entries.len() as u16
    }

    pub fn as_slice(&self) -> &[T]
        ensures value { result.now ≡ self.now }
        ensures few { length self.now ≤ most_entries }
    {
        self.entries.as_slice()
    }

    pub fn try_clone(&self) -> Result<Told<T>, NoMemory>
        ensures { IfOk result (λ copy. copy ≡ self.now) }
    {
        Ok(self.clone()?)
    }
}
