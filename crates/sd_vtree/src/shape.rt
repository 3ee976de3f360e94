// Numbers of nodes, and what stands at a number.

use std::marker::Model;

/// A node of a vtree, by its number, which no move changes.
#[derive(Clone, Copy, PartialEq, Eq, Debug)]
pub struct VNode(pub u32);

impl Model for VNode {
    ghost use Rattle.std.specs.Prelude.{ℕ};

    ghost Value = { ℕ };

    ghost view = { λ a. a.0 };

    ghost inverse = { λ n. record { 0 = n } };
}

impl VNode {
    ghost use Rattle.std.specs.Prelude.{◌≡◌};

    // The number as an index.
    pub(crate) fn index(self) -> usize
        ensures { result ≡ self }
    {
        self.0 as usize
    }
}

/// Why a vtree was not moved: the place has not the form of the move.
#[derive(Clone, Copy, PartialEq, Eq, Debug)]
pub struct NotMovable;

// A node: a leaf with its variable, or an internal node with its two children.
#[derive(Clone, Copy, PartialEq, Eq, Debug)]
pub(crate) enum Shape {
    Leaf(u32),
    Inner(VNode, VNode),
}
