//! The search for a vtree under which all diagrams together are smaller.
ghost use Rattle.std.specs.Prelude.{◌≡◌, ◌≤◌, ◌+◌, IfOk, IfErr, OnErr};
ghost use Rattle.sd_model.specs.Tree.{leaves};
ghost use Rattle.sd_vtree.specs.Numbered.{plain_tree};
ghost use Rattle.sd_formula.specs.Dimacs.{Groups};
ghost use Rattle.sd_commands.specs.Commands.{State, search_line};
ghost use Rattle.sd_commands.specs.Standing.{Represents, StepsTo, StopsAt, IsLeftBySearch, root_count};

use crate::command::{Effect, RunCommand};
use crate::error::{CommandError, search_error};
use crate::state::RunState;
use itoa::Buffer;
use sd_base::Bytes;
use sd_compile::laws::total_of_formulas;
use sd_search::minimise;
use std::alloc::{AllocError, Global};

/// Searches for a vtree under which the diagrams of all names together are smaller, and makes the line with its sizes
/// and rounds. Each name keeps its root, and each root its function.
pub(crate) fn search(
    alloc: Global,
    state: &mut RunState,
    rounds: u32,
) -> Result<Option<Effect>, CommandError>
    requires represents { (seen : State) × Represents state.old seen }
    ensures done { (input : Groups) (seen : State) → Represents state.old seen →
        IfOk result (λ effect. StepsTo input seen (RunCommand.Minimise rounds) state.new effect) }
    ensures stops { (input : Groups) (seen : State) → Represents state.old seen →
        IfErr result (λ e. StopsAt input seen (RunCommand.Minimise rounds) state.new.manager e) }
    ensures err { OnErr result (IsLeftBySearch rounds state.old state.new) }
    ensures variables { leaves (plain_tree state.new.manager.vtree) ≡ leaves (plain_tree
        state.old.manager.vtree) }
    ensures roots { root_count state.new ≤ root_count state.old + 1 }
{
    // the nodes of gates may be gone behind a search
    state.forget_gates();
    total_of_formulas(&state.manager);
    let slack = state.slack;
    let found = match minimise(alloc, &mut state.manager, &mut state.cache, rounds, slack) {
        Ok(found) => found,
        Err(error) => return Err(search_error(error)),
    };
    match search_text(alloc, found.before, found.after, found.rounds) {
        Ok(line) => Ok(Some(Effect::PrintLine(line))),
        Err(_) => Err(CommandError::OutOfMemory),
    }
}

// The line of a search.
pub(crate) fn search_text(
    alloc: Global,
    before: u32,
    after: u32,
    rounds: u32,
) -> Result<Bytes, AllocError>
    ensures { IfOk result (λ text. text ≡ search_line before after rounds) }
{
    let mut text = b"minimise ".to_vec(alloc)?;
    text.extend_from_slice(Buffer::new().format(before).as_bytes())?;
    text.push(b' ')?;
    text.extend_from_slice(Buffer::new().format(after).as_bytes())?;
    text.push(b' ')?;
    text.extend_from_slice(Buffer::new().format(rounds).as_bytes())?;
    text.push(b'\n')?;
    Ok(Bytes::new(text))
}
