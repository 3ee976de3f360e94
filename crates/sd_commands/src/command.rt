//! Commands, and what they do outside.

use sd_base::{Bits, Bytes, Name};
use sd_file::SddFile;
use sd_model::{Move, Operation};
use sd_script::Indices;
use sd_vfile::Ids;

/// A command of a run. Names are numbers; each name that a command uses has to be bound by an earlier one.
#[derive(Drop)]
pub enum RunCommand {
    /// Prints the numbers of variables and of groups of a generated formula.
    Generated(u32, u32),
    /// Binds a name to the input's formula.
    Input(u32),
    /// Binds a name to the value of an SDD file.
    Load(u32, SddFile),
    /// Binds a name to a literal, as DIMACS has it.
    Literal(u32, i32),
    /// Binds a name to a constant.
    Constant(u32, bool),
    /// Binds the first name to the formulas of two others, joined by a connective.
    Combine(Operation, u32, u32, u32),
    /// Binds the first name to the negation of another's formula.
    Negate(u32, u32),
    /// Binds the first name to the formula of the second, where a literal holds.
    Given(u32, u32, i32),
    /// Binds the first name to the formula of the second for one value of a variable or the other.
    Forget(u32, u32, u32),
    /// Frees a name.
    Drop(u32),
    /// Moves the vtree at a position.
    Turn(Move, u32),
    /// Searches, in at most so many rounds, for a vtree under which all diagrams together are smaller.
    Minimise(u32),
    /// Sets the limit of the total size.
    Limit(u32),
    /// Prints whether the formulas of two names are one function.
    Same(u32, u32),
    /// Prints the size of a name's diagram.
    Size(u32),
    /// Prints the value of a name's formula under truth values for the variables 1 to V.
    Value(u32, Bits),
    /// Writes the text of the diagrams of one or more names, in their order, to a file.
    Write(Indices, Name),
    /// Writes the text of the vtree to a file.
    WriteVtree(Name),
    /// Binds a name to the input's formula, whose groups are compiled in so many parts, each alone, and joined. `step`
    /// does not do it: workers do.
    InputByParts(u32, u32),
    /// Chooses the start tree over which the input's formula has the least size, alone, with a search of at most so
    /// many rounds where they are there, and prints it. `step` does not do it: workers do.
    Choose(Option<u32>),
    /// Binds a name to an output of the circuit, counted from 0.
    Output(u32, u32),
    /// Prints whether each node of an SDD file fits a vtree, or the first that does not; the ids are those of the
    /// file of the vtree.
    Check(SddFile, Ids),
}

/// A command with the number of its line, counted from 1, or 0 where it stands in no line.
#[derive(Drop)]
pub struct NumberedCommand {
    /// The line, or 0.
    pub line: u32,
    /// What is done.
    pub command: RunCommand,
}

/// What a command does outside.
#[derive(Drop)]
pub enum Effect {
    /// The named file is written whole with these bytes.
    WriteFile(Name, Bytes),
    /// This line, with its end, is printed.
    PrintLine(Bytes),
}
