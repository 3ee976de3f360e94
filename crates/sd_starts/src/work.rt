// The work at one start: the formula compiled alone over its tree, and searched where that is asked for.
ghost use Rattle.std.specs.Prelude.{◌≡◌, ◌∷◌, [], IfOk, IfErr, OnErr, MatchResult};
ghost use Rattle.std.specs.FinMap.{empty};
ghost use Rattle.sd_model.specs.Tree.{leaves};
ghost use Rattle.sd_vtree.specs.Numbered.{plain_tree};
ghost use Rattle.sd_formula.specs.Dimacs.{Groups};
ghost use Rattle.sd_formula.specs.Formulas.{expression_of};
ghost use Rattle.sd_compile.specs.Total.{AreHeldFormulas};
ghost use Rattle.sd_search.specs.Kept.{KeepsRoots};
ghost use Rattle.sd_starts.specs.Starts.{AnswersStart, IsAtRest, IsDoneAt, IsRefusedAt, IsStoppedAt};
ghost use Rattle.sd_starts.specs.Starts.{IsTreeLeft, IsSearchedTo, HoldsNothing, IsStopped};

use crate::start::{Settings, Start, vtree_of};
use sd_cache::Cache;
use sd_compile::laws::{total_is_of_formulas, total_of_formulas};
use sd_compile::{CompileError, compile};
use sd_formula::Formula;
use sd_manager::{Manager, Root};
use sd_parts::{Gate, Task};
use sd_search::{Outcome, SearchError, minimise};
use sd_sweep::size;
use std::alloc::{AllocError, Global};

/// The most elements that the arena of the diagrams may hold.
pub const MOST_ELEMENTS: u32 = 2_147_483_647;

/// A formula that is to be compiled and searched alone at one start. Its manager and its cache are made by the thread
/// that works it.
#[derive(Drop)]
pub(crate) struct StartTask<'a, G> {
    pub(crate) gate: G,
    pub(crate) start: Start,
    pub(crate) alloc: Global,
    pub(crate) formula: &'a Formula,
    pub(crate) settings: Settings,
}

/// What the work at a start hands back.
#[derive(Drop)]
pub(crate) struct StartAnswer {
    pub(crate) manager: Manager,
    pub(crate) cache: Cache,
    pub(crate) end: Result<Done, CompileError>,
}

/// The root that holds the formula, the size of its diagram, and what the search found.
#[derive(Drop)]
pub(crate) struct Done {
    pub(crate) root: Root,
    pub(crate) size: u32,
    pub(crate) search: Option<Outcome>,
}

impl<G: Gate + Drop> Task for StartTask<'_, G> {
    type Answer = Result<StartAnswer, AllocError>;

    ghost answers = { λ t a. IfOk a (AnswersStart t.formula.now t.settings t.start) };

    fn work(self) -> Result<StartAnswer, AllocError> {
        let StartTask {
            gate,
            start,
            alloc,
            formula,
            settings,
        } = self;
        gate.enter(start.rank());
        work_at(alloc, start, formula, settings)
    }
}

// The formula compiled and searched at one start, in a new manager. The only error: out of memory for the manager.
fn work_at(
    alloc: Global,
    start: Start,
    f: &Formula,
    settings: Settings,
) -> Result<StartAnswer, AllocError>
    ensures { IfOk result (AnswersStart f.now settings start) }
{
    let vtree = vtree_of(alloc, start, f.variables())?;
    let manager = Manager::new(alloc, vtree, MOST_ELEMENTS)?;
    let cache = Cache::new(alloc)?;
    Ok(work_in(alloc, manager, cache, f, settings))
}

// The same in a manager and with a cache that are new.
fn work_in(
    alloc: Global,
    mut manager: Manager,
    mut cache: Cache,
    f: &Formula,
    settings: Settings,
) -> StartAnswer
    requires ready { IsAtRest manager cache }
    requires variables { leaves (plain_tree manager.vtree) ≡ f.now.variables }
    requires nothing { manager.roots ≡ empty }
    ensures ready { IsAtRest result.manager result.cache }
    ensures end { MatchResult result.end (IsDoneAt f.now settings (plain_tree manager.vtree) result.manager)
        (IsStoppedAt f.now settings (plain_tree manager.vtree) result.manager) }
{
    let end = work_alone(alloc, &mut manager, &mut cache, f, settings);
    StartAnswer {
        manager,
        cache,
        end,
    }
}

// The formula compiled in a manager that holds nothing, and searched where that is asked for. Where it is refused,
// nothing is held.
fn work_alone(
    alloc: Global,
    m: &mut Manager,
    c: &mut Cache,
    f: &Formula,
    settings: Settings,
) -> Result<Done, CompileError>
    requires ready { IsAtRest m.old c.old }
    requires variables { leaves (plain_tree m.old.vtree) ≡ f.now.variables }
    requires nothing { m.old.roots ≡ empty }
    ensures done { IfOk result (IsDoneAt f.now settings (plain_tree m.old.vtree) m.new) }
    ensures refused { IfErr result (IsRefusedAt f.now settings (plain_tree m.old.vtree) m.new) }
    ensures left { OnErr result (HoldsNothing m.new) }
    ensures tree { OnErr result (IsTreeLeft f.now settings (plain_tree m.old.vtree) (plain_tree m.new.vtree)) }
    ensures ready { IsAtRest m.new c.new }
{
    total_of_formulas(m);
    let root = match compile(alloc, m, c, f, settings.limit) {
        Ok(root) => root,
        Err(error) => return Err(error),
    };
    match searched(alloc, m, c, settings) {
        Ok((size, search)) => Ok(Done { root, size, search }),
        Err(error) => {
            m.release(root);
            Err(error)
        }
    }
}

// The size of what is held, behind a search where one is asked for.
fn searched(
    alloc: Global,
    m: &mut Manager,
    c: &mut Cache,
    settings: Settings,
) -> Result<(u32, Option<Outcome>), CompileError>
    requires ready { IsAtRest m.old c.old }
    ensures searched { (f : Groups) → AreHeldFormulas m.old (expression_of f ∷ []) → IfOk result (λ r.
        IsSearchedTo f settings (plain_tree m.old.vtree) r.1 r.0 (plain_tree m.new.vtree)) }
    ensures full { IfErr result (IsStopped m.new) }
    ensures tree { (f : Groups) → AreHeldFormulas m.old (expression_of f ∷ []) → OnErr result
        (IsTreeLeft f settings (plain_tree m.old.vtree) (plain_tree m.new.vtree)) }
    ensures kept { KeepsRoots m.old m.new }
    ensures ready { IsAtRest m.new c.new }
{
    total_is_of_formulas(m);
    let Some(rounds) = settings.rounds else {
        return Ok((size(m), None));
    };
    match minimise(alloc, m, c, rounds, settings.slack) {
        Ok(outcome) => Ok((outcome.after, Some(outcome))),
        Err(SearchError::ArenaFull { elements }) => Err(CompileError::ArenaFull { elements }),
        Err(SearchError::OutOfMemory) => Err(CompileError::OutOfMemory),
    }
}
