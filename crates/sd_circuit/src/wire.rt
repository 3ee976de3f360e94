//! What a gate's side or an output of a circuit is.

/// A constant, or an input or a gate of a circuit, or the negation of one.
#[derive(Clone, Copy, Debug, PartialEq, Eq)]
pub enum Wire {
    /// True or false.
    Constant(bool),
    /// The input of a number, counted from 1; its negation where it is not positive.
    Input { variable: u32, positive: bool },
    /// The gate of a number, counted from 0; its negation where it is not positive.
    Gate { index: u32, positive: bool },
}
