//! The commands that write a file or print a line.
ghost use Rattle.std.specs.Prelude.{◌≡◌, ◌≤◌, Some, length, IfOk};
ghost use Rattle.std.specs.List.{AllByRecursion};
ghost use Rattle.sd_model.specs.Tree.{leaves};
ghost use Rattle.sd_formula.specs.Dimacs.{Groups};
ghost use Rattle.sd_vtree.specs.Numbered.{plain_tree};
ghost use Rattle.sd_commands.specs.Commands.{State, generated_line, size_line, same_line, value_line};
ghost use Rattle.sd_commands.specs.Standing.{Represents, HasRoot, StepsTo};
ghost use Rattle.sd_commands.specs.declared.state.RunState.{RunState as SeenState};

use crate::command::{Effect, RunCommand};
use crate::state::RunState;
use itoa::Buffer;
use sd_base::{Bits, Bytes, Name};
use sd_file::write_nodes;
use sd_manager::value_of;
use sd_vfile::write_vtree;
use std::alloc::{AllocError, Global};

/// The line of a generated formula.
pub(crate) fn print_generated(
    alloc: Global,
    variables: u32,
    groups: u32,
) -> Result<Effect, AllocError>
    ensures { (input : Groups) (seen : State) (state : SeenState) → Represents state seen →
        IfOk result (λ effect. StepsTo input seen (RunCommand.Generated variables groups) state
        (Some effect)) }
{
    let line = generated_text(alloc, variables, groups)?;
    Ok(Effect::PrintLine(line))
}

/// The line that says whether two names have one function.
pub(crate) fn print_same(
    alloc: Global,
    state: &RunState,
    a: u32,
    b: u32,
) -> Result<Effect, AllocError>
    requires represents { (seen : State) × Represents state.now seen }
    requires first { HasRoot state.now a }
    requires second { HasRoot state.now b }
    ensures { (input : Groups) (seen : State) → Represents state.now seen →
        IfOk result (λ effect. StepsTo input seen (RunCommand.Same a b) state.now (Some effect)) }
{
    let same = state.manager.same(state.root(a), state.root(b));
    let line = same_text(alloc, same)?;
    Ok(Effect::PrintLine(line))
}

/// The line with the size of a name's diagram.
pub(crate) fn print_size(
    alloc: Global,
    state: &mut RunState,
    name: u32,
) -> Result<Effect, AllocError>
    requires represents { (seen : State) × Represents state.old seen }
    requires bound { HasRoot state.old name }
    ensures done { (input : Groups) (seen : State) → Represents state.old seen →
        IfOk result (λ effect. StepsTo input seen (RunCommand.Size name) state.new (Some effect)) }
    ensures same { state.new ≡ state.old }
{
    let size = state.size(name);
    let line = size_text(alloc, size)?;
    Ok(Effect::PrintLine(line))
}

/// The line with the value of a name's formula under an assignment.
pub(crate) fn print_value(
    alloc: Global,
    state: &RunState,
    name: u32,
    bits: &Bits,
) -> Result<Effect, AllocError>
    requires represents { (seen : State) × Represents state.now seen }
    requires bound { HasRoot state.now name }
    requires values { length bits.now ≡ leaves (plain_tree state.now.manager.vtree) }
    ensures { (input : Groups) (seen : State) → Represents state.now seen →
        IfOk result (λ effect. StepsTo input seen (RunCommand.Value name bits.now) state.now
        (Some effect)) }
{
    let value = value_of(alloc, &state.manager, state.root(name), bits.as_slice())?;
    let line = value_text(alloc, value)?;
    Ok(Effect::PrintLine(line))
}

/// The file with the text of the diagrams of names, in their order.
pub(crate) fn write_diagrams(
    alloc: Global,
    state: &RunState,
    names: &[u32],
    file: &Name,
) -> Result<Effect, AllocError>
    requires represents { (seen : State) × Represents state.now seen }
    requires some { 1 ≤ length names.now }
    requires bound { AllByRecursion (HasRoot state.now) names.now }
    ensures { (input : Groups) (seen : State) → Represents state.now seen →
        IfOk result (λ effect. StepsTo input seen (RunCommand.Write names.now file.now) state.now
        (Some effect)) }
{
    let copy = Name::copy_of(alloc, file.as_str())?;
    let nodes = state.nodes(alloc, names)?;
    let text = write_nodes(alloc, &state.manager, &nodes)?;
    Ok(Effect::WriteFile(copy, text))
}

/// The file with the text of the vtree.
pub(crate) fn write_vtree_text(
    alloc: Global,
    state: &RunState,
    file: &Name,
) -> Result<Effect, AllocError>
    ensures { (input : Groups) (seen : State) → Represents state.now seen →
        IfOk result (λ effect. StepsTo input seen (RunCommand.WriteVtree file.now) state.now
        (Some effect)) }
{
    let copy = Name::copy_of(alloc, file.as_str())?;
    let text = write_vtree(alloc, state.manager.vtree())?;
    Ok(Effect::WriteFile(copy, text))
}

fn generated_text(alloc: Global, variables: u32, groups: u32) -> Result<Bytes, AllocError>
    ensures { IfOk result (λ text. text ≡ generated_line variables groups) }
{
    let mut text = b"generated ".to_vec(alloc)?;
    text.extend_from_slice(Buffer::new().format(variables).as_bytes())?;
    text.push(b' ')?;
    text.extend_from_slice(Buffer::new().format(groups).as_bytes())?;
    text.push(b'\n')?;
    Ok(Bytes::new(text))
}

fn same_text(alloc: Global, same: bool) -> Result<Bytes, AllocError>
    ensures { IfOk result (λ text. text ≡ same_line same) }
{
    let text = if same {
        b"same\n".to_vec(alloc)?
    } else {
        b"differ\n".to_vec(alloc)?
    };
    Ok(Bytes::new(text))
}

fn size_text(alloc: Global, size: u32) -> Result<Bytes, AllocError>
    ensures { IfOk result (λ text. text ≡ size_line size) }
{
    let mut text = b"size ".to_vec(alloc)?;
    text.extend_from_slice(Buffer::new().format(size).as_bytes())?;
    text.push(b'\n')?;
    Ok(Bytes::new(text))
}

#[tactic(auto, using(crate::proofs::Values::value_bytes))]
fn value_text(alloc: Global, value: bool) -> Result<Bytes, AllocError>
    ensures { IfOk result (λ text. text ≡ value_line value) }
{
    let text = if value {
        b"value 1\n".to_vec(alloc)?
    } else {
        b"value 0\n".to_vec(alloc)?
    };
    Ok(Bytes::new(text))
}
