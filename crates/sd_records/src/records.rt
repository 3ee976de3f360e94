//! Records of a diagram, and how they are kept.

use std::marker::Model;

/// What an entry or the root refers to: a constant, a literal as DIMACS has it, or the entry at an index, counted
/// from 0.
#[derive(Clone, Copy, PartialEq, Eq, Debug)]
pub enum Ref {
    Constant(bool),
    Literal(i32),
    Entry(u32),
}

/// The position of an entry, and how many pairs it has.
#[derive(Clone, Copy, Debug)]
pub(crate) struct Head {
    pub(crate) position: u32,
    pub(crate) count: u32,
}

/// A diagram as a flat list of records. It names no node of a manager, and takes 8 bytes an element and 8 bytes a
/// decomposition.
#[derive(Debug, Drop)]
pub struct Records {
    /// The entries, each behind those that it refers to.
    pub(crate) heads: Vec<Head>,
    /// The codes of the primes and subs of all entries, one entry after another. Constants and literals have the codes
    /// of nodes, and the entry at an index has 2,050 more.
    pub(crate) pairs: Vec<(u32, u32)>,
    /// The code of the root.
    pub(crate) root: u32,
}

impl Model for Records {
    ghost use Rattle.std.specs.Prelude.{◌≡◌, length};
    ghost use Rattle.sd_records.specs.Records.{FlatDiagram};
    ghost use Rattle.sd_records.specs.Stored.{flat_of, pair_count};

    ghost Value = { FlatDiagram };

    ghost view = { λ r. flat_of r.heads.items r.pairs.items r.root };

    ghost invariant = { λ r. pair_count r.heads.items ≡ length r.pairs.items };
}
