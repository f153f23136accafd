//! Owned lists of the numbers of extents.

ghost use Rattle.std.specs.Prelude.{◌≡◌};

use std::marker::Model;

/// Numbers of extents, in order.
#[derive(Debug, Drop)]
pub struct Numbers {
    list: Vec<u32>,
}

impl Model for Numbers {
    ghost use Rattle.std.specs.Prelude.{List, ℕ};

    ghost Value = { List ℕ };

    ghost view = { λ numbers. numbers.list.items };
}

impl Numbers {
    /// Takes no memory.
    pub fn of(list: Vec<u32>) -> Numbers
        ensures { result ≡ list.items }
    {
        Numbers { list }
    }

    pub fn list(&self) -> &[u32]
        ensures { result.now ≡ self.now }
    {
        &self.list
    }

    /// The list that this was made of. Takes no memory.
    pub fn into_list(self) -> Vec<u32>
        ensures { result.items ≡ self }
    {
        self.list
    }
}
