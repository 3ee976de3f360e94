//! What the words of a call stand for.

use sd_base::Name;

/// What is read or made. In the answer of `read_words` no name of a file is empty.
#[derive(Debug, Drop)]
pub enum InputWord {
    /// A DIMACS file of clauses.
    Cnf(Name),
    /// A file of terms in the same layout, under `p dnf`.
    Dnf(Name),
    /// `count` is the number of variables, 3 to 1,024; `seed` is at most 4,294,967,295.
    Generate { count: u64, seed: u64 },
    /// A file of a circuit in the ASCII format of AIGER.
    Aag(Name),
    /// A diagram file that is checked. In the answer of `read_words` the vtree is then a file, and all else is as where
    /// no other option is there.
    Check(Name),
}

/// Where the vtree comes from. The last three have the variables in their order.
#[derive(Debug, Drop)]
pub enum TreeWord {
    /// A vtree file.
    File(Name),
    /// Of m variables the left child gets the first m/2, rounded down.
    Balanced,
    /// Each left child is a leaf.
    Right,
    /// Each right child is a leaf.
    Left,
}

/// What a run is to do. In the answer of `read_words` the two output files are two.
#[derive(Debug, Drop)]
pub struct Job {
    /// What the run is about, and where that comes from.
    pub input: InputWord,
    /// The vtree that it begins with.
    pub tree: TreeWord,
    /// The commands to run; then `out_vtree`, `out_sdd` and `minimise` are `None`.
    pub script: Option<Name>,
    /// The file that gets the vtree.
    pub out_vtree: Option<Name>,
    /// The file that gets the diagram.
    pub out_sdd: Option<Name>,
    /// The rounds of the search, 1 to 100.
    pub minimise: Option<u32>,
    /// After each so many groups a search of one round follows, 1 to 1,000,000.
    pub every: Option<u32>,
    /// How far a search may let the size grow, in percent, 100 to 1,000.
    pub slack: u32,
    /// The largest total size, 1 to 268,435,456.
    pub limit: u32,
    /// Into how many parts the formula is cut, 1 to 64; then `script` and `every` are `None`.
    pub parts: Option<u32>,
    /// How many workers do the parts or the starts, 1 to 16.
    pub workers: u32,
    /// The formula is compiled over three starts, and the run goes on with one; then the vtree is `Balanced`, and
    /// `script`, `every` and `parts` are `None`.
    pub portfolio: bool,
}
