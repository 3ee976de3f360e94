//! The script of a text.

ghost use Rattle.std.specs.Prelude.{◌≡◌, ◌<◌, ◌≤◌, length, slice_get, Ok, Some, IfOk, IfErr};
ghost use Rattle.sd_script.specs.Read.{IsScript};
ghost use Rattle.sd_script.specs.Scripts.{Fails, Gives, script_of};
ghost use Rattle.sd_script.specs.Steps.{script_view};

use crate::command::Command;
use crate::fault::ScriptFault;
use crate::reader::Reader;
use sd_base::{Lines, Name};
use std::alloc::Global;
use std::marker::Model;

/// The commands of a script, over numbered names and files.
#[derive(Drop)]
pub struct Script {
    commands: Vec<Command>,
    names: Vec<Name>,
    files: Vec<Name>,
}

impl Model for Script {
    ghost use Rattle.sd_script.specs.Scripts as texts;

    ghost Value = { texts.Script };

    ghost view = { λ s. record {
      commands = s.commands.items;
      names = s.names.items;
      files = s.files.items;
    } };
}

impl Script {
    /// The commands, in the order of their lines.
    pub fn commands(&self) -> &[Command]
        ensures { result.now ≡ self.now.commands }
    {
        self.commands.as_slice()
    }

    /// The name with a number. Names are numbered from 0, in the order in which the script has them
    /// first.
    pub fn name(&self, index: u32) -> &str
        requires { index < length self.now.names }
        ensures { slice_get self.now.names index ≡ Some result.now }
    {
        self.names[index as usize].as_str()
    }

    /// The name of the file with a number. Files are numbered from 0, in the order in which the
    /// script has them first, be they loaded or written.
    pub fn file(&self, index: u32) -> &str
        requires { index < length self.now.files }
        ensures { slice_get self.now.files index ≡ Some result.now }
    {
        self.files[index as usize].as_str()
    }
}

/// The script over the variables 1 to `variables` that a text stands for, or the text's first
/// fault. The input is a circuit with so many outputs, or a formula where `outputs` is 0.
///
/// There are 1 to 1,024 variables, and the text has at most 67,108,864 bytes. Each line is a
/// command; blank lines and those that begin with `#` are passed over, but counted. The first line
/// with a fault decides. Any text may answer `OutOfMemory`.
pub fn read_script(
    alloc: Global,
    bytes: &[u8],
    variables: u32,
    outputs: u32,
) -> Result<Script, ScriptFault>
    requires at_least_one { 1 ≤ variables }
    requires within_limit { variables ≤ 1024 }
    requires fits { length bytes.now ≤ 67108864 }
    ensures ok { IfOk result (λ script. script_of variables outputs bytes.now ≡ Ok script) }
    ensures fault { IfErr result (λ e. Fails e (script_of variables outputs bytes.now)) }
    ensures script { IfOk result (IsScript variables outputs) }
    ensures within_limit { IfOk result (λ script. length script.commands ≤ 100000) }
{
    let reader = read_lines(alloc, bytes, variables, outputs)?;
    let (names, files) = reader.texts(alloc)?;
    let commands = reader.into_commands();
    Ok(Script {
        commands,
        names,
        files,
    })
}

/// What the lines of a text say.
#[tactic(auto, unfolding(crate::specs::Scripts::script_of), using(crate::proofs::Allowed::no_commands))]
fn read_lines(
    alloc: Global,
    bytes: &[u8],
    variables: u32,
    outputs: u32,
) -> Result<Reader<'_>, ScriptFault>
    requires at_least_one { 1 ≤ variables }
    requires within_limit { variables ≤ 1024 }
    requires fits { length bytes.now ≤ 67108864 }
    ensures value { Gives script_view result (script_of variables outputs bytes.now) }
    ensures script { IfOk result (λ reader. IsScript variables outputs (script_view reader)) }
{
    let mut reader = Reader::new(alloc);
    for line in Lines::new(bytes) {
        reader.read_line(alloc, variables, outputs, &line)?;
    }
    Ok(reader)
}
