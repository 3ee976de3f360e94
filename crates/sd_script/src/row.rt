//! The table of commands: what stands behind the first word of a line.

ghost use Rattle.std.specs.Prelude.{◌≡◌, bytes_eq, IfOk};
ghost use Rattle.sd_script.specs.Table as texts;

use crate::command::Action;
use crate::misread::Misread;
use crate::rest::Rest;
use sd_model::{Move, Operation};
use std::alloc::Global;

impl<'a> Rest<'a> {
    ghost use Rattle.sd_script.specs.Steps.{seen_view, rest_view, Answers, Makes};

    /// The command of a first word and the words that are left.
    pub(crate) fn row(
        &mut self,
        alloc: Global,
        variables: u32,
        command: &[u8],
    ) -> Result<Action, Misread>
        ensures answers { Answers (texts.table variables command.now) (rest_view self.old)
            (rest_view self.new) result }
        ensures makes { IfOk result (Makes variables (seen_view self.old) (seen_view self.new)) }
    {
        if is(command, b"input") {
            self.name().map(Action::Input)
        } else if is(command, b"true") {
            self.constant(variables, true)
        } else if is(command, b"false") {
            self.constant(variables, false)
        } else if is(command, b"load") {
            Ok(Action::Load(self.name()?, self.file()?))
        } else {
            self.numbered_row(alloc, variables, command)
        }
    }

    // The rows of the commands that bind a name to what has a number, and then the others.
    fn numbered_row(
        &mut self,
        alloc: Global,
        variables: u32,
        command: &[u8],
    ) -> Result<Action, Misread>
        ensures answers { Answers (texts.numbered_rows variables command.now) (rest_view self.old)
            (rest_view self.new) result }
        ensures makes { IfOk result (Makes variables (seen_view self.old) (seen_view self.new)) }
    {
        if is(command, b"output") {
            Ok(Action::Output(self.name()?, self.number()?))
        } else if is(command, b"lit") {
            Ok(Action::Lit(self.name()?, self.literal()?))
        } else {
            self.made_row(alloc, variables, command)
        }
    }

    // The rows of the commands that bind a name to what is made of other names, and then the others.
    fn made_row(&mut self, alloc: Global, variables: u32, command: &[u8]) -> Result<Action, Misread>
        ensures answers { Answers (texts.made_rows variables command.now) (rest_view self.old)
            (rest_view self.new) result }
        ensures makes { IfOk result (Makes variables (seen_view self.old) (seen_view self.new)) }
    {
        if is(command, b"not") {
            Ok(Action::Not(self.name()?, self.name()?))
        } else if is(command, b"and") {
            self.binary(variables, Operation::And)
        } else if is(command, b"or") {
            self.binary(variables, Operation::Or)
        } else if is(command, b"xor") {
            self.binary(variables, Operation::Xor)
        } else {
            self.narrowed_row(alloc, variables, command)
        }
    }

    // The rows of the commands that bind a name to a formula with a variable less, and then the others.
    fn narrowed_row(
        &mut self,
        alloc: Global,
        variables: u32,
        command: &[u8],
    ) -> Result<Action, Misread>
        ensures answers { Answers (texts.narrowed_rows variables command.now) (rest_view self.old)
            (rest_view self.new) result }
        ensures makes { IfOk result (Makes variables (seen_view self.old) (seen_view self.new)) }
    {
        if is(command, b"given") {
            Ok(Action::Given(self.name()?, self.name()?, self.literal()?))
        } else if is(command, b"forget") {
            Ok(Action::Forget(self.name()?, self.name()?, self.variable()?))
        } else {
            self.other_row(alloc, variables, command)
        }
    }

    // A command that binds a name to a constant.
    fn constant(&mut self, variables: u32, value: bool) -> Result<Action, Misread>
        ensures answers { Answers (texts.constant_row value) (rest_view self.old)
            (rest_view self.new) result }
        ensures makes { IfOk result (Makes variables (seen_view self.old) (seen_view self.new)) }
    {
        Ok(Action::Constant(self.name()?, value))
    }

    // A command that turns the vtree.
    fn turn(&mut self, variables: u32, kind: Move) -> Result<Action, Misread>
        ensures answers { Answers (texts.turn_row kind) (rest_view self.old)
            (rest_view self.new) result }
        ensures makes { IfOk result (Makes variables (seen_view self.old) (seen_view self.new)) }
    {
        Ok(Action::Turn(kind, self.number()?))
    }

    // A command that joins two formulas.
    fn binary(&mut self, variables: u32, operation: Operation) -> Result<Action, Misread>
        ensures answers { Answers (texts.binary_row operation) (rest_view self.old)
            (rest_view self.new) result }
        ensures makes { IfOk result (Makes variables (seen_view self.old) (seen_view self.new)) }
    {
        Ok(Action::Binary(operation, self.name()?, self.name()?, self.name()?))
    }

    // The rows of the commands that bind no name.
    fn other_row(
        &mut self,
        alloc: Global,
        variables: u32,
        command: &[u8],
    ) -> Result<Action, Misread>
        ensures answers { Answers (texts.other_rows variables command.now) (rest_view self.old)
            (rest_view self.new) result }
        ensures makes { IfOk result (Makes variables (seen_view self.old) (seen_view self.new)) }
    {
        if is(command, b"write") {
            self.write(alloc, variables)
        } else if is(command, b"drop") {
            self.name().map(Action::Drop)
        } else if is(command, b"rotl") {
            self.turn(variables, Move::RotateLeft)
        } else if is(command, b"rotr") {
            self.turn(variables, Move::RotateRight)
        } else if is(command, b"swap") {
            self.turn(variables, Move::Swap)
        } else {
            self.last_row(alloc, variables, command)
        }
    }

    // The rows of the commands that bind no name, and neither free one, nor write names, nor turn the vtree.
    fn last_row(&mut self, alloc: Global, variables: u32, command: &[u8]) -> Result<Action, Misread>
        ensures answers { Answers (texts.last_rows variables command.now) (rest_view self.old)
            (rest_view self.new) result }
        ensures makes { IfOk result (Makes variables (seen_view self.old) (seen_view self.new)) }
    {
        if is(command, b"minimise") {
            self.number().map(Action::Minimise)
        } else if is(command, b"limit") {
            self.number().map(Action::Limit)
        } else if is(command, b"size") {
            self.name().map(Action::Size)
        } else if is(command, b"vtree") {
            self.file().map(Action::Vtree)
        } else if is(command, b"same") {
            Ok(Action::Same(self.name()?, self.name()?))
        } else if is(command, b"value") {
            Ok(Action::Value(self.name()?, self.bits(alloc, variables)?))
        } else {
            Err(Misread::BadForm)
        }
    }
}

// Whether a word is this one.
fn is(word: &[u8], text: &[u8]) -> bool
    ensures { result ≡ bytes_eq word.now text.now }
{
    word == text
}
