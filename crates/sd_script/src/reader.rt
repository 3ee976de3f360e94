//! The commands of a text, line by line.

ghost use Rattle.std.specs.Prelude.{◌≡◌, ◌≤◌, ◌<◌, ℕ, true, length, IfOk, OnOk, option_to_list};
ghost use Rattle.std.specs.List.{list_any, list_all};
ghost use Rattle.sd_base.specs.Views.{line_view};
ghost use Rattle.sd_script.specs.Commands.{has, bound, written_files, loads};
ghost use Rattle.sd_script.specs.Commands as commands;
ghost use Rattle.sd_script.specs.Read.{IsScript};
ghost use Rattle.sd_script.specs.Scripts as texts;
ghost use Rattle.sd_script.specs.Scripts.{Gives, empty};
ghost use Rattle.sd_script.specs.Tables.{is_marked};
ghost use Rattle.sd_script.specs.Views.{uses_view};

use crate::command::{Action, Command};
use crate::fault::ScriptFault;
use crate::footprint::{Footprint, Uses, footprint_of};
use crate::marks::Marks;
use crate::misread::Misread;
use crate::number::{formula_fits, numbers_fit, variable_fits};
use crate::rest::Rest;
use sd_base::{Line, Name};
use std::alloc::{AllocError, Global};

const MAX_LINES: u32 = 100_000;

const MAX_LOADS: u32 = 64;

/// What was read so far.
#[derive(Drop)]
pub(crate) struct Reader<'a> {
    pub(crate) commands: Vec<Command>,
    pub(crate) rest: Rest<'a>,
    /// Names that are bound.
    names_bound: Marks,
    /// Files that are written.
    files_written: Marks,
    /// How many commands load a file.
    loaded: u32,
    ghost marked: { (i : ℕ) → is_marked names_bound i ≡ has (bound commands.items) i },
    ghost noted: { (i : ℕ) → is_marked files_written i ≡ has (written_files commands.items) i },
    ghost count: { loaded ≡ loads commands.items },
    ghost within_limit: { loaded ≤ 64 },
}

impl<'a> Reader<'a> {
    ghost use Rattle.sd_script.specs.Steps.{script_view, IsInRange, AreBelow};

    /// Nothing read yet.
    pub(crate) fn new(alloc: Global) -> Self
        ensures { script_view result ≡ empty }
    {
        Reader {
            commands: Vec::new(alloc),
            rest: Rest::new(alloc),
            names_bound: Marks::new(alloc),
            files_written: Marks::new(alloc),
            loaded: 0,
        }
    }

    /// The names, and the files, in the order of their numbers.
    pub(crate) fn texts(&self, alloc: Global) -> Result<(Vec<Name>, Vec<Name>), AllocError>
        ensures names { IfOk result (λ (names, files). names.items ≡ (script_view self.now).names) }
        ensures files { IfOk result (λ (names, files). files.items ≡ (script_view self.now).files) }
    {
        Ok((self.rest.names.texts(alloc)?, self.rest.files.texts(alloc)?))
    }

    /// The commands, in the order of their lines.
    pub(crate) fn into_commands(self) -> Vec<Command>
        ensures { result.items ≡ (script_view self.entry).commands }
    {
        self.commands
    }

    /// Whether the name of a number is bound.
    fn is_bound(&self, number: u32) -> bool
        ensures { result ≡ has (bound self.now.commands.items) number }
    {
        self.names_bound.is_marked(number)
    }

    /// Whether names are bound.
    fn are_bound(&self, names: &Uses<'_>) -> bool
        ensures { result ≡ list_all (has (bound self.now.commands.items)) (uses_view names.now) }
    {
        match names {
            Uses::Nothing => true,
            Uses::One(a) => self.is_bound(*a),
            Uses::Two(a, b) => self.is_bound(*a) && self.is_bound(*b),
            Uses::All(numbers) => self.all_bound(numbers),
        }
    }

    // Whether the names of these numbers are bound.
    fn all_bound(&self, numbers: &[u32]) -> bool
        ensures { result ≡ list_all (has (bound self.now.commands.items)) numbers.now }
    {
        numbers.iter().all(|number| self.is_bound(*number))
    }

    /// Whether a name is bound, if there is one.
    fn is_taken(&self, name: Option<u32>) -> bool
        ensures { result ≡ list_any (has (bound self.now.commands.items)) (option_to_list name) }
    {
        match name {
            Some(number) => self.is_bound(number),
            None => false,
        }
    }

    /// Whether a file is written, if there is one.
    fn is_twice(&self, file: Option<u32>) -> bool
        ensures { result ≡ list_any (has (written_files self.now.commands.items))
            (option_to_list file) }
    {
        match file {
            Some(number) => self.files_written.is_marked(number),
            None => false,
        }
    }

    /// The first fault of a command after the earlier ones.
    fn check(
        &self,
        variables: u32,
        outputs: u32,
        line: u32,
        action: &Action,
    ) -> Result<(), ScriptFault>
        requires at_least_one { 1 ≤ variables }
        requires within_limit { variables ≤ 1024 }
        ensures value { Gives (λ _. tt) result
            (texts.checked variables outputs self.now.commands.items line action.now) }
        ensures fits { OnOk result (IsInRange variables outputs self.now.loaded action.now) }
    {
        let said = footprint_of(action);
        if !self.are_bound(&said.uses) {
            return Err(ScriptFault::NameUnknown { line });
        }
        if self.is_taken(said.binds) {
            return Err(ScriptFault::NameTaken { line });
        }
        if !variable_fits(variables, said.variable) {
            return Err(ScriptFault::LiteralRange { line });
        }
        if !numbers_fit(variables, outputs, action) {
            return Err(ScriptFault::NumberRange { line });
        }
        if self.is_twice(said.writes) {
            return Err(ScriptFault::FileTwice { line });
        }
        if said.loads && self.loaded >= MAX_LOADS {
            return Err(ScriptFault::TooManyLoads { line });
        }
        if !formula_fits(outputs, action) {
            return Err(ScriptFault::NoFormula { line });
        }
        Ok(())
    }

    /// Puts a command behind the others.
    #[tactic(auto, using(crate::proofs::Marking::more))]
    fn put(&mut self, line: u32, action: Action) -> Result<(), AllocError>
        requires binds { AreBelow (length (script_view self.old).names) (commands.binds action) }
        requires frees { AreBelow (length (script_view self.old).names) (commands.frees action) }
        requires writes { AreBelow (length (script_view self.old).files) (commands.writes action) }
        requires loads { commands.is_load action ≡ true → self.old.loaded < 64 }
        ensures { OnOk result (script_view self.new
            ≡ texts.with_command line action (script_view self.old)) }
    {
        let Footprint {
            binds,
            frees,
            writes,
            loads,
            ..
        } = footprint_of(&action);
        self.names_bound.make_room(self.rest.names.len())?;
        self.files_written.make_room(self.rest.files.len())?;
        self.commands.push(Command { line, action })?;
        self.names_bound.change(frees, binds);
        self.files_written.change(None, writes);
        if loads {
            self.loaded += 1;
        }
        Ok(())
    }

    /// Reads a command line.
    #[tactic(auto, unfolding(crate::specs::Table::command_of))]
    fn read_command(
        &mut self,
        alloc: Global,
        variables: u32,
        outputs: u32,
        line: &Line<'a>,
    ) -> Result<(), ScriptFault>
        requires at_least_one { 1 ≤ variables }
        requires within_limit { variables ≤ 1024 }
        ensures value { Gives (λ _. script_view self.new) result
            (texts.with_line variables outputs (script_view self.old) (line_view line.now)) }
        ensures script { OnOk result (IsScript variables outputs (script_view self.old)
            → IsScript variables outputs (script_view self.new)) }
    {
        let number = line.number;
        let action = match self.rest.command(alloc, variables, line) {
            Ok(action) => action,
            Err(Misread::BadForm) => return Err(ScriptFault::BadLine { line: number }),
            Err(Misread::OutOfMemory) => return Err(ScriptFault::OutOfMemory),
        };
        self.check(variables, outputs, number, &action)?;
        self.put(number, action)?;
        Ok(())
    }

    /// Reads a line.
    pub(crate) fn read_line(
        &mut self,
        alloc: Global,
        variables: u32,
        outputs: u32,
        line: &Line<'a>,
    ) -> Result<(), ScriptFault>
        requires at_least_one { 1 ≤ variables }
        requires within_limit { variables ≤ 1024 }
        ensures value { Gives (λ _. script_view self.new) result
            (texts.after_line variables outputs (script_view self.old) (line_view line.now)) }
        ensures script { OnOk result (IsScript variables outputs (script_view self.old)
            → IsScript variables outputs (script_view self.new)) }
    {
        if line.number > MAX_LINES {
            return Err(ScriptFault::TooManyLines);
        }
        if line.is_blank() || line.begins_with(b'#') {
            return Ok(());
        }
        self.read_command(alloc, variables, outputs, line)
    }
}
