// A node that is held as long as the total size is within a limit, and the sweeps behind what was made.
//
// A limit is of what is held, and garbage is no part of it: so a node is held first, the size is asked, and where it
// passes the limit the node is released, or the root gets its former node back (`hold_within`, `try_hold`). The size is
// asked only where more elements are in use than the limit, garbage included (`total_over`), which on most formulas is
// never.
//
// Garbage stays only within a number and the limit (`sweep_past`). The number is chosen for speed (`pace.rt`), and no
// contract of a run tells it. A sweep costs what `sd_sweep` says and, where answers stay known, a step for each entry
// of the table of computed answers, blank ones too.
ghost use Rattle.std.specs.Prelude.{◌≡◌, ℕ, ◌<◌, ◌≤◌, ◌-◌, ◌^◌, List, None, IfSome, IfNone, IfOk, IfErr, OnOk, OnErr};
ghost use Rattle.std.specs.Option.{IsSome};
ghost use Rattle.std.specs.FinMap.{get, len};
ghost use Rattle.sd_model.specs.Expression.{Expression};
ghost use Rattle.sd_model.specs.Diagram.{Diagram};
ghost use Rattle.sd_model.specs.Size.{size_of, IsDiagramOf};
ghost use Rattle.sd_vtree.specs.Numbered.{plain_tree};
ghost use Rattle.sd_manager.specs.Valid.{IsTable, total_length};
ghost use Rattle.sd_manager.specs.Shown.{ShowsCanonical, IsNodeOf};
ghost use Rattle.sd_manager.specs.Making.{with_root, without_root};
ghost use Rattle.sd_cache.specs.Entries.{Answers};
ghost use Rattle.sd_apply.specs.Serving.{Serves};
ghost use Rattle.sd_sweep.specs.Reached.{IsReached, IsSwept, AreHeldDiagrams};
ghost use Rattle.sd_sweep.specs.Falling.{NeverFalls};
ghost use Rattle.sd_manager.specs.Marking.{AreUnmarked};
ghost use Rattle.sd_compile.specs.Total.{HasTotalWith, IsTotal, IsTotalWithin, IsWithinLimit};
ghost use Rattle.sd_compile.specs.Compiling.{MaySweep, IsSweptPast, KeepsAll, IsHoldRefused};

use crate::error::HoldError;
use crate::pace::Pace;
use sd_apply::keep_surviving;
use sd_cache::Cache;
use sd_manager::{Manager, NodeId, Root};
use sd_sweep::{size, sweep};

// Takes away what no root and no loose run needs. The cache still serves, and its own entries stay. Where the table of
// computed answers has no more entries than elements are left, it is gone through, and an answer is dropped only where
// a node that it names is gone. Else the table is of an epoch that is past.
pub(crate) fn sweep_kept(m: &mut Manager, c: &mut Cache)
    requires no_move { m.old.moving ≡ None }
    requires unmarked { AreUnmarked m.old }
    requires serves { Serves c.old m.old }
    ensures swept { IsSwept m.old m.new }
    ensures never_falls { NeverFalls m.old m.new }
    ensures reached { (n : ℕ) → IsSome (get m.new.linked n) → IsReached m.new n }
    ensures entries { c.new.entries ≡ c.old.entries }
    ensures serves { Serves c.new m.new }
    ensures unmarked { AreUnmarked m.new }
    ensures table { IsTable m.new }
{
    let since = m.epoch();
    sweep(m);
    // to go through a table with more entries than elements are left would cost more than a sweep
    if c.computed().len() <= m.used() as usize {
        keep_surviving(m, c, since);
    }
}

/// Sweeps where more elements are in use than the pace allows or than the limit, and then the pace allows anew: no less
/// than what is left. Else nothing is changed. The cache's own entries stay in either case. How much more than what is
/// left may be in use before the next sweep is chosen for speed alone.
pub fn sweep_past(m: &mut Manager, c: &mut Cache, pace: &mut Pace, limit: u32)
    requires no_move { m.old.moving ≡ None }
    requires unmarked { AreUnmarked m.old }
    requires serves { Serves c.old m.old }
    ensures swept { MaySweep m.old m.new }
    ensures past { IsSweptPast m.new pace.old.most limit }
    ensures within { total_length m.old ≤ pace.old.most → total_length m.old ≤ limit
        → (m.new ≡ m.old) × (pace.new ≡ pace.old) }
    ensures kept { KeepsAll m.old m.new }
    ensures never_falls { NeverFalls m.old m.new }
    ensures used { total_length m.new ≤ pace.new.most }
    ensures entries { c.new.entries ≡ c.old.entries }
    ensures serves { Serves c.new m.new }
    ensures unmarked { AreUnmarked m.new }
    ensures table { IsTable m.new }
{
    let used = m.used();
    if used <= pace.most && used <= limit {
        return;
    }
    sweep_kept(m, c);
    pace.renew(m);
}

/// A new root that holds a node, if the total size is then within the limit. Else nothing is changed.
pub fn hold_within(m: &mut Manager, node: NodeId, limit: u32) -> Result<Root, HoldError>
    requires no_move { m.old.moving ≡ None }
    requires unmarked { AreUnmarked m.old }
    requires shown { IsNodeOf m.old node }
    requires room { len m.old.roots < 2 ^ 32 - 1 }
    ensures absent { IfOk result (λ root. get m.old.roots root ≡ None) }
    ensures ok { IfOk result (λ root. m.new ≡ with_root m.old root node) }
    ensures within { (f : Expression) (d : Diagram) → ShowsCanonical m.old node d →
        IsDiagramOf (plain_tree m.old.vtree) f d → OnOk result (IsWithinLimit m.old f limit) }
    ensures err { (f : Expression) (d : Diagram) → ShowsCanonical m.old node d →
        IsDiagramOf (plain_tree m.old.vtree) f d
        → IfErr result (λ e. IsHoldRefused m.old f limit e) }
    ensures unchanged { OnErr result (m.new ≡ m.old) }
    ensures table { IsTable m.new }
{
    // its contract tells that the table is valid
    let _ = m.vtree();
    let root = match m.hold(node) {
        Ok(root) => root,
        Err(_) => return Err(HoldError::OutOfMemory),
    };
    match total_over(m, limit) {
        None => Ok(root),
        Some(size) => {
            m.release(root);
            Err(HoldError::OverLimit { size })
        }
    }
}

/// Makes a root hold a node in place of its own, if the total size is then within the limit. Else it holds what it
/// held, and the answer is the size that passes the limit. Takes no memory.
pub fn try_hold(m: &mut Manager, root: &mut Root, node: NodeId, limit: u32) -> Option<u32>
    requires no_move { m.old.moving ≡ None }
    requires unmarked { AreUnmarked m.old }
    requires root { IsSome (get m.old.roots root.old) }
    requires shown { IsNodeOf m.old node }
    ensures some { IfSome result
        (λ n. (limit < n) × IsTotal (with_root m.old root.old node) n × (m.new ≡ m.old)) }
    ensures none { IfNone result (IsTotalWithin (with_root m.old root.old node) limit
        × (m.new ≡ with_root m.old root.old node)) }
    ensures over { (f : Expression) (d : Diagram) → ShowsCanonical m.old node d →
        IsDiagramOf (plain_tree m.old.vtree) f d
        → IfSome result (λ n. HasTotalWith (without_root m.old root.old) f n) }
    ensures within { (f : Expression) (d : Diagram) → ShowsCanonical m.old node d →
        IsDiagramOf (plain_tree m.old.vtree) f d
        → IfNone result (IsWithinLimit (without_root m.old root.old) f limit) }
    ensures root { root.new ≡ root.old }
    ensures serves { (c : Answers) → Serves c m.old → Serves c m.new }
    ensures unmarked { AreUnmarked m.new }
    ensures table { IsTable m.new }
{
    // its contract tells that the table is valid
    let _ = m.vtree();
    let former = m.rebind(root, node);
    let Some(size) = total_over(m, limit) else {
        return None;
    };
    let _ = m.rebind(root, former);
    Some(size)
}

/// The total size of what all roots hold, where it passes the limit. While all lists together are within it, nothing is
/// counted.
pub fn total_over(m: &mut Manager, limit: u32) -> Option<u32>
    requires no_move { m.old.moving ≡ None }
    requires unmarked { AreUnmarked m.old }
    ensures some { IfSome result (λ n. (limit < n) × IsTotal m.old n) }
    ensures none { IfNone result (IsTotalWithin m.old limit) }
    ensures same { m.new ≡ m.old }
    ensures table { IsTable m.new }
{
    if m.used() <= limit {
        return None;
    }
    let total = size(m);
    if total > limit { Some(total) } else { None }
}
