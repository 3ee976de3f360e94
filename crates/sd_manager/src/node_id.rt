//! Names of nodes, by codes: 0 and 1 are the constants, the literals come from 2 on, and decompositions from 2,050 on.

ghost use Rattle.std.specs.Prelude.{◌≡◌, ◌↔◌, ◌-◌, ◌/◌, ◌%◌, ◌<◌, ◌≤◌, ◌==◌, IsTrue};

use std::marker::Model;

/// The code of the decomposition with the number 0. Smaller codes are those of constants and literals.
pub const FIRST_NODE: u32 = 2050;

/// A node of a manager, by its code, which stays the node's own while the node is there. The default is false.
#[derive(Clone, Copy, Default, PartialEq, Eq, Debug)]
pub struct NodeId(pub u32);

impl Model for NodeId {
    ghost use Rattle.std.specs.Prelude.{ℕ};

    ghost Value = { ℕ };

    ghost view = { λ a. a.0 };

    ghost inverse = { λ n. record { 0 = n } };
}

impl NodeId {
    /// The constant false.
    pub const FALSE: NodeId = NodeId(0);

    /// The constant true.
    pub const TRUE: NodeId = NodeId(1);

    /// Whether this is the constant false.
    #[inline(always)]
    pub fn is_false(self) -> bool
        ensures { IsTrue result ↔ (self ≡ 0) }
    {
        self.0 == 0
    }

    /// Whether this is the constant true.
    #[inline(always)]
    pub fn is_true(self) -> bool
        ensures { IsTrue result ↔ (self ≡ 1) }
    {
        self.0 == 1
    }

    /// Whether this is a constant.
    #[inline(always)]
    pub fn is_constant(self) -> bool
        ensures { IsTrue result ↔ (self < 2) }
    {
        self.0 < 2
    }

    /// Whether this is a decomposition.
    #[inline(always)]
    pub fn is_decomposition(self) -> bool
        ensures { IsTrue result ↔ (2050 ≤ self) }
    {
        self.0 >= FIRST_NODE
    }

    /// The number of a decomposition.
    #[inline(always)]
    pub fn number(self) -> u32
        requires { 2050 ≤ self }
        ensures { result ≡ self - 2050 }
    {
        self.0 - FIRST_NODE
    }

    /// The variable of a literal.
    #[inline(always)]
    pub fn variable(self) -> u32
        ensures { result ≡ self / 2 }
    {
        self.0 / 2
    }

    /// Whether a literal is a variable itself, and not its negation.
    #[inline(always)]
    pub fn is_positive(self) -> bool
        ensures { result ≡ (self % 2 == 0) }
    {
        self.0 % 2 == 0
    }
}
