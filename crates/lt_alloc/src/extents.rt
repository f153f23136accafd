//! Extents by number, taken or free.

ghost use Rattle.std.specs.Prelude.{◌≡◌, ◌+◌, ◌^◌, ◌<◌, ◌≤◌, ◌↔◌, Bool, true, false, List, All, length, IfOk, IfErr};
ghost use Rattle.std.specs.Prelude.{OnOk, OnErr, IsErr, IsTrue, slice_set, vec_len, vec_capacity};
ghost use Rattle.lt_alloc.specs.Extents.{is_free, free_count, AreTaken, Reserves};
ghost use Rattle.lt_alloc.specs.Stack.{IsStack};

use lt_page::NoMemory;
use std::alloc::Global;
use std::marker::Model;

/// Fewer extents are free than are needed.
#[derive(Clone, Copy, Debug, PartialEq, Eq)]
pub struct Short {
    pub needed: u32,
    pub free: u32,
}

/// The extents of a device, by number from 0 on: each is taken or free. To take one and to give one
/// back take one step each.
#[derive(Debug, Drop)]
pub struct Extents {
    /// Of each extent whether it is taken.
    taken: Vec<bool>,
    /// The free numbers, each once. There is room for all numbers.
    free: Vec<u32>,
}

impl Model for Extents {
    ghost use Rattle.std.specs.Prelude.{List, Bool, vec_capacity};
    ghost use Rattle.lt_alloc.specs.Stack.{IsStack};

    ghost Value = { List Bool };

    ghost view = { λ extents. extents.taken.items };

    ghost invariant = { λ extents. IsStack extents.taken.items extents.free.items (vec_capacity extents.free) };
}

impl Extents {
    /// So many extents, of which these are taken. The numbers are below the count.
    pub fn of(alloc: Global, extents: u32, used: &[u32]) -> Result<Extents, NoMemory>
        requires { All (λ n. n < extents) used.now }
        ensures { IfOk result (AreTaken extents used.now) }
    {
        let mut taken = vec![in alloc; false; extents as usize]?;
        for number in used {
            taken[*number as usize] = true;
        }
        let free = free_numbers(alloc, &taken)?;
        Ok(Extents { taken, free })
    }

    /// Reserves free extents, as many as are needed, and appends their numbers. There is spare room
    /// for them. Where fewer are free, nothing changes. Takes no memory.
    pub fn take(&mut self, needed: u32, into: &mut Vec<u32>) -> Result<(), Short>
        requires { vec_len into.old + needed ≤ vec_capacity into.old }
        ensures ok { OnOk result (Reserves needed self.old self.new into.old.items into.new.items) }
        ensures short { IsErr result ↔ (free_count self.old < needed) }
        ensures numbers { IfErr result (λ short. (short.needed ≡ needed)
            × (short.free ≡ free_count self.old)) }
        ensures err { OnErr result ((self.new ≡ self.old) × (into.new.items ≡ into.old.items)) }
        ensures extents { length self.new ≡ length self.old }
        ensures room { vec_capacity into.new ≡ vec_capacity into.old }
    {
        let free = self.free();
        if free < needed {
            return Err(Short { needed, free });
        }
        for _ in 0..needed {
            let number = self.take_one();
            into.push_reserved(number);
        }
        Ok(())
    }

    /// Gives an extent back that is taken.
    pub fn give(&mut self, number: u32)
        requires within { number < length self.old }
        requires taken { is_free self.old number ≡ false }
        ensures { self.new ≡ slice_set self.old number false }
    {
        self.taken[number as usize] = false;
        self.free.push(number).unwrap();
    }

    /// How many extents are free.
    pub fn free(&self) -> u32
        ensures { result ≡ free_count self.now }
    {
        self.free.len() as u32
    }

    /// Whether this is the number of a free extent.
    pub fn is_free(&self, number: u32) -> bool
        ensures { result ≡ is_free self.now number }
    {
        self.taken.get(number as usize) == Some(&false)
    }

    /// Reserves one free extent.
    fn take_one(&mut self) -> u32
        requires { 0 < free_count self.old }
        ensures free { IsTrue (is_free self.old result) }
        ensures taken { self.new ≡ slice_set self.old result true }
    {
        let number = self.free.pop().unwrap();
        self.taken[number as usize] = true;
        number
    }
}

/// The numbers of the extents that are not taken, the least last.
fn free_numbers(alloc: Global, taken: &[bool]) -> Result<Vec<u32>, NoMemory>
    requires { length taken.now < 2 ^ 32 }
    ensures { IfOk result (λ free. IsStack taken.now free.items (vec_capacity free)) }
{
    let count = taken.len() as u32;
    let mut free = Vec::with_capacity(alloc, taken.len())?;
    for number in (0..count).rev() {
        if !taken[number as usize] {
            free.push(number)?;
        }
    }
    Ok(free)
}
