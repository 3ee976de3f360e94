//! Commands.

use crate::indices::Indices;
use sd_base::Bits;
use sd_model::{Move, Operation};

/// What a command does. Names and files are numbers, in the order in which the script names them
/// first, and the fields stand in the order of the words of the line.
#[derive(Drop)]
pub enum Action {
    /// `input N`: N is the formula of the input.
    Input(u32),
    /// `load N FILE`: N is the formula of an SDD file.
    Load(u32, u32),
    /// `output N I`: N is an output of the circuit of the input, counted from 0.
    Output(u32, u32),
    /// `lit N L`: N is a literal, of a variable in range.
    Lit(u32, i32),
    /// `true N` or `false N`.
    Constant(u32, bool),
    /// `and N A B`, `or N A B` or `xor N A B`.
    Binary(Operation, u32, u32, u32),
    /// `not N A`.
    Not(u32, u32),
    /// `given N A L`: N is A where a literal holds.
    Given(u32, u32, i32),
    /// `forget N A X`: N is A with a variable forgotten.
    Forget(u32, u32, u32),
    /// `drop A`: A is free then.
    Drop(u32),
    /// `rotl P`, `rotr P` or `swap P`, at a position of the vtree.
    Turn(Move, u32),
    /// `minimise R`, with 1 to 100 rounds.
    Minimise(u32),
    /// `limit K`, with 1 to 268,435,456.
    Limit(u32),
    /// `same A B`.
    Same(u32, u32),
    /// `size A`.
    Size(u32),
    /// `value A BITS`, with a truth value for each variable.
    Value(u32, Bits),
    /// `write A1 .. Ak FILE`, with 1 to 1,024 names.
    Write(Indices, u32),
    /// `vtree FILE`.
    Vtree(u32),
}

/// A command with its line, counted from 1 over all lines of the text.
#[derive(Drop)]
pub struct Command {
    /// The line, 1 to 100,000.
    pub line: u32,
    /// What it does.
    pub action: Action,
}
