// Counts that were told, by the number of who told them.
ghost use Rattle.std.specs.Prelude.{◌≡◌, ◌<◌, length, max, replicate, slice_set, IfOk};
ghost use Rattle.pipe_control.specs.Known.{count_of};

use pipe_base::NoMemory;
use std::alloc::Global;
use std::marker::Model;

// A count for each number below the length, at first 0. Contracts see the counts.
#[derive(Clone, Drop)]
pub struct Counts {
    values: Vec<u16>,
}

impl Model for Counts {
    ghost use Rattle.std.specs.Prelude.{List, ℕ};

    ghost Value = { List ℕ };

    ghost view = { λ c. c.values.items };
}

impl Counts {
    pub fn none(alloc: Global, length: u16) -> Result<Counts, NoMemory>
        ensures { IfOk result (λ counts. counts ≡ replicate length 0) }
    {
        Ok(Counts {
            values: vec![in alloc; 0; usize::from(length)]?,
        })
    }

    pub fn len(&self) -> usize
        ensures { result ≡ length self.now }
    {
        self.values.len()
    }

    // The count of a number, 0 where there is none.
    pub fn of(&self, number: u16) -> u16
        ensures { result ≡ count_of self.now number }
    {
        match self.values.get(usize::from(number)) {
            Some(count) => *count,
            None => 0,
        }
    }

    // Of the count so far and this one the greater is kept.
    pub fn raise(&mut self, number: u16, count: u16)
        requires { number < length self.old }
        ensures { self.new ≡ slice_set self.old number (max (count_of self.old number) count) }
    {
        let greater = self.of(number).max(count);
        self.values[usize::from(number)] = greater;
    }

    pub fn try_clone(&self) -> Result<Counts, NoMemory>
        ensures { IfOk result (λ copy. copy ≡ self.now) }
    {
        Ok(self.clone()?)
    }
}
