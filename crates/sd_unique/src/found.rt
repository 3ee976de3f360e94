// What a search that inserts answers.

/// The number of a node, and whether it was there.
#[derive(Clone, Copy, PartialEq, Eq, Debug, Drop)]
pub enum Found {
    /// A linked node had the place and list.
    Present(u32),
    /// The node was made.
    New(u32),
}
