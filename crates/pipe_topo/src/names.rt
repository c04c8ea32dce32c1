// The names of hosts and switches, numbered in the order in which they were added.
ghost use Rattle.std.specs.Prelude.{◌≡◌, ◌≢◌, ◌<◌, ◌≤◌, ◌++◌, [], ◌∷◌, if◌then◌else◌, ◌==◌, not, length, position, slice_index_or, AllPairs, IfOk, OnErr};
ghost use Rattle.std.specs.List.{list_any};
ghost use Rattle.std.specs.Str.{bytes_eq};

use indexmap::IndexSet;
use pipe_base::NoMemory;
use std::alloc::Global;
use std::marker::Model;

/// Names that are all different: first those of the hosts, then those of the switches. Contracts see their bytes.
#[derive(Drop)]
pub struct Names {
    names: IndexSet<String>,
}

impl Model for Names {
    ghost use Rattle.std.specs.Prelude.{List, ℕ, map, string_bytes};
    ghost use Rattle.pipe_topo.specs.Names.{AreNames};

    ghost Value = { List (List ℕ) };

    ghost view = { λ n. map string_bytes n.names.keys };

    ghost invariant = { λ n. AreNames (map string_bytes n.names.keys) };
}

impl Names {
    pub fn new(alloc: Global) -> Names
        ensures { result ≡ [] }
    {
        Names {
            names: IndexSet::new(alloc),
        }
    }

    /// False where the name was there before.
    pub fn add(&mut self, name: &str) -> Result<bool, NoMemory>
        requires { length self.old < 65535 }
        ensures added { IfOk result (λ new. new ≡ not (list_any (bytes_eq name.now) self.old)) }
        ensures names { IfOk result (λ new. self.new ≡ (if new then self.old ++ name.now ∷ [] else self.old)) }
        ensures err { OnErr result (self.new ≡ self.old) }
    {
        if self.names.contains(name) {
            return Ok(false);
        }
        let name = String::from_str(*self.names.allocator(), name)?;
        self.names.insert(name)?;
        Ok(true)
    }

    /// None where the name is not there.
    pub fn number(&self, name: &str) -> Option<u16>
        ensures { result ≡ position (bytes_eq name.now) self.now }
    {
        let number = self.names.get_index_of(name)?;
        Some(number as u16)
    }

    /// The name with this number, which is empty where there is none.
    pub fn name(&self, at: u16) -> &str
        ensures { result.now ≡ slice_index_or self.now at [] }
    {
        if at < self.len() {
            self.names[usize::from(at)].as_str()
        } else {
            ""
        }
    }

    pub fn len(&self) -> u16
        ensures value { result ≡ length self.now }
        ensures different { AllPairs (λ a b. a ≢ b) self.now }
    {
        self.names.len() as u16
    }

    pub fn is_empty(&self) -> bool
        ensures { result ≡ (length self.now == 0) }
    {
        self.names.is_empty()
    }

    pub fn try_clone(&self) -> Result<Names, NoMemory>
        ensures { IfOk result (λ copy. copy ≡ self.now) }
    {
        let mut copy = Names::new(*self.names.allocator());
        for at in 0..self.len() {
            let _ = copy.add(self.name(at))?;
        }
        Ok(copy)
    }
}
