//! The check of an SDD file.
ghost use Rattle.std.specs.Prelude.{◌≡◌, ◌<◌, IfOk, IfErr, OnErr, length};
ghost use Rattle.sd_model.specs.Tree.{Tree, leaves};
ghost use Rattle.sd_vtree.specs.Numbered.{plain_tree};
ghost use Rattle.sd_formula.specs.Dimacs.{Groups};
ghost use Rattle.sd_check.specs.Rules.{Places, HasVerdict};
ghost use Rattle.sd_commands.specs.Commands.{State, rule_word as rule_word_of, refusal_line, verdict_line};
ghost use Rattle.sd_commands.specs.Standing.{Represents, StepsTo, StopsAt, IsAsBefore};

use crate::command::{Effect, RunCommand};
use crate::error::{CommandError, operation_error};
use crate::state::RunState;
use itoa::Buffer;
use sd_base::Bytes;
use sd_check::{Rule, Verdict, check};
use sd_file::SddFile;
use sd_vfile::Ids;
use std::alloc::{AllocError, Global};

/// The line with the verdict on an SDD file, where the ids are those of the file of the vtree.
pub(crate) fn print_verdict(
    alloc: Global,
    state: &mut RunState,
    file: &SddFile,
    ids: &Ids,
) -> Result<Option<Effect>, CommandError>
    requires represents { (seen : State) × Represents state.old seen }
    requires variables { leaves (plain_tree state.old.manager.vtree) ≡ file.now.variables }
    ensures done { (input : Groups) (seen : State) → Represents state.old seen →
        IfOk result
        (λ effect. StepsTo input seen (RunCommand.Check file.now ids.now) state.new effect) }
    ensures stops { (input : Groups) (seen : State) → Represents state.old seen →
        IfErr result
        (λ e. StopsAt input seen (RunCommand.Check file.now ids.now) state.new.manager e) }
    ensures err { OnErr result (IsAsBefore state.old state.new) }
    ensures vtree { state.new.manager.vtree ≡ state.old.manager.vtree }
    ensures roots { state.new.manager.roots ≡ state.old.manager.roots }
{
    let verdict = match check(alloc, &mut state.manager, &mut state.cache, file, ids) {
        Ok(verdict) => verdict,
        Err(e) => return Err(operation_error(e)),
    };
    match verdict_text(alloc, file, verdict) {
        Ok(line) => Ok(Some(Effect::PrintLine(line))),
        Err(_) => Err(CommandError::OutOfMemory),
    }
}

// The line of a verdict.
fn verdict_text(alloc: Global, file: &SddFile, verdict: Verdict) -> Result<Bytes, AllocError>
    requires { (t : Tree) × (ids : Places) × HasVerdict t ids file.now verdict }
    ensures { IfOk result (λ text. text ≡ verdict_line file.now verdict) }
{
    match verdict {
        Verdict::Yes => Ok(Bytes::new(b"yes\n".to_vec(alloc)?)),
        Verdict::No { node, rule } => refusal_text(alloc, file.id(node), rule),
    }
}

// The line that says which node breaks which rule.
fn refusal_text(alloc: Global, id: u64, rule: Rule) -> Result<Bytes, AllocError>
    ensures { IfOk result (λ text. text ≡ refusal_line id rule) }
{
    let mut text = b"no ".to_vec(alloc)?;
    text.extend_from_slice(Buffer::new().format(id).as_bytes())?;
    text.push(b' ')?;
    text.extend_from_slice(rule_word(rule).as_bytes())?;
    text.push(b'\n')?;
    Ok(Bytes::new(text))
}

// The word for a rule.
fn rule_word(rule: Rule) -> &'static str
    ensures { result.now ≡ rule_word_of rule }
{
    match rule {
        Rule::Vtree => "vtree",
        Rule::Prime => "prime",
        Rule::Sub => "sub",
        Rule::Count => "count",
        Rule::Overlap => "overlap",
        Rule::Cover => "cover",
        Rule::Subs => "subs",
        Rule::Trim => "trim",
    }
}
