//! The rules that a node may break, and the verdict on a file.

/// What a node of an SDD file may break, in the order in which it is tested.
#[derive(Clone, Copy, Debug, PartialEq, Eq)]
pub enum Rule {
    /// The vtree id names no vtree node, or for a literal not the leaf of its variable, or for a decomposition a leaf.
    Vtree,
    /// A prime is not below the left child.
    Prime,
    /// A sub is neither a constant nor below the right child.
    Sub,
    /// There is one element.
    Count,
    /// Two primes are true together under some assignment.
    Overlap,
    /// Under some assignment no prime is true.
    Cover,
    /// Two subs are one function.
    Subs,
    /// Every sub is a constant.
    Trim,
}

/// Whether each node of a file is compressed, trimmed and a partition for its vtree.
#[derive(Clone, Copy, Debug, PartialEq, Eq)]
pub enum Verdict {
    /// No node breaks a rule.
    Yes,
    /// The first node that breaks a rule, counted from 0, and its first rule.
    No { node: u32, rule: Rule },
}
