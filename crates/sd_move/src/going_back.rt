// Going back in a move: what it did is taken back by its entries, and nothing of that takes memory.
ghost use Rattle.std.specs.Prelude.{◌≡◌, ℕ, List, [], ◌∷◌, Some};
ghost use Rattle.std.specs.Option.{IsSome};
ghost use Rattle.std.specs.FinMap.{get, empty, remove};
ghost use Rattle.sd_manager.specs.Valid.{IsTable};
ghost use Rattle.sd_move.specs.Journal.{Named};
ghost use Rattle.sd_move.specs.Steps.{MayDetachAt};
ghost use Rattle.sd_move.specs.GoingBack.{WayBack, CanGoBack, HasGoneBack, Return, return_of, IsReturning};
ghost use Rattle.sd_move.specs.GoingBack.{IsClearedAt, IsClearedBelow};

use crate::journal::Entry;
use crate::turning::{end, turn_at};
use sd_manager::Manager;
use sd_model::Move;
use sd_vtree::VNode;

// Detaches the nodes that are linked at a place. Takes no memory.
fn clear(m: &mut Manager, place: VNode)
    requires may { MayDetachAt m.old place }
    requires table { IsTable m.old }
    ensures cleared { IsClearedAt m.old m.new place }
    ensures table { IsTable m.new }
{
    while let Some(number) = m.first_at(place) {
        m.detach(number);
    }
}

// Links the node of an entry at the entry's place, where it keeps its list.
fn link_kept(m: &mut Manager, entry: &Entry)
    requires returning { (r : Return) × (first : List Named) × (second : List Named)
        × IsReturning r m.old (entry.now ∷ first) second }
    requires table { IsTable m.old }
    ensures returning { (r : Return) (first second : List Named)
        → IsReturning r m.old (entry.now ∷ first) second → IsReturning r m.new first second }
    ensures table { IsTable m.new }
{
    match entry.run {
        None => m.retag(entry.number, entry.place),
        Some(_) => {}
    }
}

// Links the named nodes that keep their lists at the entries' places.
fn link_all_kept(m: &mut Manager, named: &[Entry])
    requires returning { (r : Return) × IsReturning r m.old named.now named.now }
    requires table { IsTable m.old }
    ensures returning { (r : Return) → IsReturning r m.old named.now named.now
        → IsReturning r m.new [] named.now }
    ensures table { IsTable m.new }
{
    for index in 0..named.len() {
        link_kept(m, &named[index]);
    }
}

// Gives the node of an entry its old run back, where there is one, and links it at the entry's place.
fn put_run_back(m: &mut Manager, entry: &Entry)
    requires returning { (r : Return) × (second : List Named)
        × IsReturning r m.old [] (entry.now ∷ second) }
    requires table { IsTable m.old }
    ensures returning { (r : Return) (second : List Named)
        → IsReturning r m.old [] (entry.now ∷ second) → IsReturning r m.new [] second }
    ensures table { IsTable m.new }
{
    if let Some(run) = entry.run {
        m.put_back(entry.number, entry.place, run);
    }
}

// Gives each named node that got another list its old run back, and links it at the entry's place.
fn put_all_back(m: &mut Manager, named: &[Entry])
    requires returning { (r : Return) × IsReturning r m.old [] named.now }
    requires table { IsTable m.old }
    ensures returning { (r : Return) → IsReturning r m.old [] named.now
        → IsReturning r m.new [] [] }
    ensures table { IsTable m.new }
{
    for index in 0..named.len() {
        put_run_back(m, &named[index]);
    }
}

// Discards a detached node that is not named, where it did not stand at the moved node, and else links it there.
fn link_or_discard(m: &mut Manager, upper: VNode, number: u32)
    requires returning { (r : Return) × (r.upper ≡ upper) × IsReturning r m.old [] [] }
    requires node { IsSome (get m.old.detached number) }
    requires table { IsTable m.old }
    ensures returning { (r : Return) → r.upper ≡ upper → IsReturning r m.old [] []
        → IsReturning r m.new [] [] }
    ensures gone { m.new.detached ≡ remove m.old.detached number }
    ensures table { IsTable m.new }
{
    let own = m.place_at(number);
    if own.0 != upper.0 {
        m.discard(number);
    } else {
        m.retag(number, upper);
    }
}

// Links or discards the detached nodes that are left.
fn leave_none_detached(m: &mut Manager, upper: VNode)
    requires returning { (r : Return) × (r.upper ≡ upper) × IsReturning r m.old [] [] }
    requires table { IsTable m.old }
    ensures returning { (r : Return) → r.upper ≡ upper → IsReturning r m.old [] []
        → IsReturning r m.new [] [] }
    ensures none_detached { m.new.detached ≡ empty }
    ensures table { IsTable m.new }
{
    while let Some(number) = m.first_detached() {
        link_or_discard(m, upper, number);
    }
}

// Detaches the nodes at the lower node, where there is one.
fn clear_lower(m: &mut Manager, lower: Option<VNode>)
    requires may { (w : ℕ) → lower ≡ Some w → MayDetachAt m.old w }
    requires table { IsTable m.old }
    ensures cleared { IsClearedBelow m.old m.new lower }
    ensures table { IsTable m.new }
{
    if let Some(lower) = lower {
        clear(m, lower);
    }
}

// Detaches the nodes at the two nodes of a move, and turns the vtree back.
fn turn_back(m: &mut Manager, kind: Move, upper: VNode, lower: Option<VNode>)
    requires can { (w : WayBack) × (named : List Named) × CanGoBack w m.old kind upper lower named }
    requires table { IsTable m.old }
    ensures returning { (w : WayBack) (named : List Named)
        → CanGoBack w m.old kind upper lower named
        → IsReturning (return_of w m.old kind upper lower named) m.new named named }
    ensures table { IsTable m.new }
{
    clear(m, upper);
    clear_lower(m, lower);
    turn_at(m, kind, upper);
}

// Goes back in a move at a node by the move of this kind there, and ends it: the named nodes get their places and,
// where they have one, their old runs; nodes made meanwhile that stand at the lower node are discarded. Takes no
// memory.
pub(crate) fn go_back(
    m: &mut Manager,
    kind: Move,
    upper: VNode,
    lower: Option<VNode>,
    named: &[Entry],
)
    requires can { (w : WayBack) × CanGoBack w m.old kind upper lower named.now }
    requires table { IsTable m.old }
    ensures back { (w : WayBack) → CanGoBack w m.old kind upper lower named.now
        → HasGoneBack w.target m.old m.new kind upper lower named.now }
    ensures table { IsTable m.new }
{
    // Its contract tells that the epoch is a number of 64 bits.
    let _ = m.epoch();
    turn_back(m, kind, upper, lower);
    link_all_kept(m, named);
    put_all_back(m, named);
    leave_none_detached(m, upper);
    end(m);
}
