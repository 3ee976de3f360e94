//! Laws of journals: functions whose contracts state a fact, and that do nothing.

ghost use Rattle.std.specs.Prelude.{◌≡◌, ℕ, ◌≤◌, None};
ghost use Rattle.sd_cache.specs.Entries.{Answers};
ghost use Rattle.sd_model.specs.declared.trees.Move.{Move};
ghost use Rattle.sd_manager.specs.Making.{Extends};
ghost use Rattle.sd_manager.specs.Table.{Table};
ghost use Rattle.sd_manager.specs.Valid.{IsTable};
ghost use Rattle.sd_apply.specs.Serving.{Serves};
ghost use Rattle.sd_sweep.specs.Reached.{IsSwept, KeepsReached};
ghost use Rattle.sd_move.specs.Journal.{Journal as TheJournal, CanUndo, Rollback, IsKeptBack};
ghost use Rattle.sd_move.specs.Journal.{CanSettle, IsSettledBy, HaveOtherRuns, AreNamedReached};
ghost use Rattle.sd_move.specs.Moves.{HasSizeAfter, IsMoved, StaysFunction};

/// What keeps each node under a held root or a loose run: operations and sweeps, one after the other, and a move that
/// was undone.
pub fn keeps_reached()
    ensures operation { (t u : Table) → Extends t u → KeepsReached t u }
    ensures sweep { (t u : Table) → IsSwept t u → KeepsReached t u }
    ensures both { (t u w : Table) → KeepsReached t u → KeepsReached u w → KeepsReached t w }
    ensures undone { (a b c d : Table) (kind : Move) (place : ℕ) (j : TheJournal) → IsTable a →
        IsTable b → IsMoved a b kind place j → KeepsReached b c → Rollback j c d
        → KeepsReached a d }
{}

/// A journal that can be undone stays one through all that keeps each node under a held root or a loose run.
pub fn stays_undoable()
    ensures { (j : TheJournal) (t u : Table) → IsTable t → CanUndo j t → KeepsReached t u
        → u.moving ≡ None → CanUndo j u }
{}

/// A journal that can be undone stays one where another one is settled that has none of its runs, if each node that it
/// names is under a held root or a loose run without the runs of that one.
pub fn stays_undoable_when_settled()
    ensures { (j k : TheJournal) (t u : Table) → CanUndo j t → IsSettledBy t u k
        → HaveOtherRuns j k → AreNamedReached j u → CanUndo j u }
{}

/// What can be undone can be settled, and a journal that can be settled stays one: through all that keeps each node
/// under a held root or a loose run, through all that leaves the loose runs, as a root that is held, released or bound
/// anew, through a later move, whose journal has other runs, and where such a one is settled.
pub fn stays_settleable()
    ensures undoable { (j : TheJournal) (t : Table) → CanUndo j t → CanSettle j t }
    ensures kept { (j : TheJournal) (t u : Table) → CanSettle j t → KeepsReached t u → CanSettle j u }
    ensures runs { (j : TheJournal) (t u : Table) → CanSettle j t → u.loose ≡ t.loose → CanSettle j u }
    ensures moved { (j k : TheJournal) (t u : Table) (kind : Move) (place : ℕ) → CanSettle j t
        → IsMoved t u kind place k → CanSettle j u }
    ensures others { (j k : TheJournal) (t u : Table) (kind : Move) (place : ℕ) → CanSettle j t
        → IsMoved t u kind place k → HaveOtherRuns k j }
    ensures settled { (j k : TheJournal) (t u : Table) → CanSettle j t → IsSettledBy t u k
        → HaveOtherRuns j k → CanSettle j u }
{}

/// Undoing a journal keeps the function of each node under a held root or under a loose run that is none of its own.
pub fn undone_functions()
    ensures { (j : TheJournal) (t u : Table) → CanUndo j t → Rollback j t u → (n : ℕ) →
        IsKeptBack j t n → StaysFunction t u n }
{}

/// A cache that serves a manager serves it after a move was undone.
pub fn serves_undone()
    ensures { (c : Answers) (j : TheJournal) (t u : Table) → t.epoch ≤ 18446744073709551615
        → Rollback j t u → Serves c t → Serves c u }
{}

/// All held diagrams together have one size after a move.
pub fn one_size_after()
    ensures { (t : Table) (kind : Move) (place n k : ℕ) → IsTable t → HasSizeAfter t kind place n
        → HasSizeAfter t kind place k → n ≡ k }
{}
