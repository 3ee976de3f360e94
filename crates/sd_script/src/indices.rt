//! A small type that contracts see as a list.

ghost use Rattle.std.specs.Prelude.{◌≡◌};

use std::marker::Model;

/// Numbers of names, seen as a list.
#[derive(Drop)]
pub struct Indices {
    numbers: Vec<u32>,
}

impl Model for Indices {
    ghost use Rattle.std.specs.Prelude.{ℕ, List};

    ghost Value = { List ℕ };

    ghost view = { λ indices. indices.numbers.items };
}

impl Indices {
    /// The numbers of a vector.
    pub fn new(numbers: Vec<u32>) -> Indices
        ensures { result ≡ numbers.items }
    {
        Indices { numbers }
    }

    /// All of them.
    pub fn as_slice(&self) -> &[u32]
        ensures { result.now ≡ self.now }
    {
        self.numbers.as_slice()
    }
}
