// The loops of a move: the nodes at a place are detached, and detached nodes are linked at a place with their lists.
ghost use Rattle.std.specs.Prelude.{◌≡◌, ℕ, [], IfOk, OnOk, OnErr};
ghost use Rattle.sd_laws.specs.Values.{Valuation};
ghost use Rattle.sd_manager.specs.Table.{Table};
ghost use Rattle.sd_manager.specs.Valid.{IsTable};
ghost use Rattle.sd_manager.specs.Places.{IsLinkedAt};
ghost use Rattle.sd_move.specs.Moving.{Progress, MoveInProgress};
ghost use Rattle.sd_move.specs.Steps.{CanDetachAt, MayDetachAt, MayDetachFirst, AreDetached};
ghost use Rattle.sd_move.specs.Steps.{CanLinkAll, MayLinkAll, AreLinkedAt};

use sd_manager::Manager;
use sd_vtree::VNode;
use std::alloc::{AllocError, Global};

// Detaches the nodes that are linked at a place, and lists their numbers. The only error: out of memory, and then some
// nodes may be left; those that are detached are listed.
pub(crate) fn detach_all(
    m: &mut Manager,
    place: VNode,
    numbers: &mut Vec<u32>,
) -> Result<(), AllocError>
    requires may { MayDetachAt m.old place }
    requires table { IsTable m.old }
    requires none { numbers.old.items ≡ [] }
    ensures going { (m0 : Table) (x : ℕ) (h : Progress) (v : Valuation)
        → CanDetachAt m0 m.old x h v place → MoveInProgress m0 m.new x h v }
    ensures detached { AreDetached m.old m.new place numbers.new.items }
    ensures ok { OnOk result ((n : ℕ) → ¬ IsLinkedAt m.new place n) }
    ensures table { IsTable m.new }
{
    while let Some(number) = m.first_at(place) {
        numbers.push(number)?;
        m.detach(number);
    }
    Ok(())
}

// Links detached nodes at a place, with the lists that they have. Takes no memory.
pub(crate) fn link_all(m: &mut Manager, place: VNode, numbers: &[u32])
    requires may { MayLinkAll m.old place numbers.now }
    requires table { IsTable m.old }
    ensures going { (m0 : Table) (x : ℕ) (h : Progress) (v : Valuation)
        → CanLinkAll m0 m.old x h v place numbers.now → MoveInProgress m0 m.new x h v }
    ensures linked { AreLinkedAt m.old m.new place numbers.now }
    ensures table { IsTable m.new }
{
    for index in 0..numbers.len() {
        m.retag(numbers[index], place);
    }
}

// Detaches the nodes that are linked at a place, and answers their numbers. The only error: out of memory, and then all
// is as it was.
pub(crate) fn detach_at(
    alloc: Global,
    m: &mut Manager,
    place: VNode,
) -> Result<Vec<u32>, AllocError>
    requires may { MayDetachFirst m.old place }
    requires table { IsTable m.old }
    ensures going { OnOk result ((m0 : Table) (x : ℕ) (h : Progress) (v : Valuation)
        → CanDetachAt m0 m.old x h v place → MoveInProgress m0 m.new x h v) }
    ensures detached { IfOk result (λ numbers. AreDetached m.old m.new place numbers.items) }
    ensures none_left { OnOk result ((n : ℕ) → ¬ IsLinkedAt m.new place n) }
    ensures err { OnErr result (m.new ≡ m.old) }
    ensures table { IsTable m.new }
{
    let mut numbers = Vec::new(alloc);
    match detach_all(m, place, &mut numbers) {
        Ok(()) => Ok(numbers),
        Err(error) => {
            link_all(m, place, &numbers);
            Err(error)
        }
    }
}
