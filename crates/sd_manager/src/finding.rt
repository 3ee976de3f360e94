//! A node of two pairs, found or made.

ghost use Rattle.std.specs.Prelude.{◌≡◌, ◌-◌, ◌≤◌, List, [], ◌∷◌, Some, IfOk, IfErr, OnErr, IsTrue};
ghost use Rattle.sd_unique.specs.Nodes.{IsNodes};
ghost use Rattle.sd_unique.specs.Finding.{IfPresent, IfNew};
ghost use Rattle.sd_unique.specs.Inserting.{inserted, IsNewNumber, IsFull, IsRefusal};
ghost use Rattle.sd_unique.specs.Relinking.{IsAbsent};
ghost use Rattle.std.specs.FinMap.{get};
ghost use Rattle.sd_manager.specs.Counting.{IsCounted, HasNoUses, AreNamesUsed};

use sd_runs::TakeError;
use sd_unique::{Found, Nodes};

// Finds the linked node with two pairs, or makes it. Where nothing uses one of the subs, no list has it, so that there
// is no node to look for.
#[inline(always)]
pub(crate) fn find_two(
    nodes: &mut Nodes,
    place: u32,
    first: (u32, u32),
    second: (u32, u32),
) -> Result<Found, TakeError>
    requires first { IsCounted nodes.old first.1 }
    requires second { IsCounted nodes.old second.1 }
    requires used { AreNamesUsed nodes.old }
    ensures present { IfOk result (λ found. IfPresent found
        (λ n. get nodes.old.linked n ≡ Some (place, first ∷ second ∷ []))) }
    ensures same { IfOk result (λ found. IfPresent found (λ n. nodes.new ≡ nodes.old)) }
    ensures number { IfOk result (λ found. IfNew found (λ n. IsNewNumber nodes.old n)) }
    ensures ok { IfOk result (λ found. IfNew found
        (λ n. nodes.new ≡ inserted nodes.old n place (first ∷ second ∷ []))) }
    ensures nodes { IsNodes nodes.new }
    ensures room { IfOk result (λ found. IfNew found (λ n. ¬ IsFull nodes.old 2)) }
    ensures err { OnErr result (nodes.new ≡ nodes.old) }
    ensures refused { OnErr result (IsAbsent nodes.old (place, first ∷ second ∷ [])) }
    ensures full { IfErr result (λ e. IsRefusal nodes.old 2 e) }
{
    let list = [first, second];
    if has_no_uses(nodes, first.1) || has_no_uses(nodes, second.1) {
        return match nodes.insert(place, &list) {
            Ok(number) => Ok(Found::New(number)),
            Err(error) => Err(error),
        };
    }
    nodes.find_or_insert(place, &list)
}

// Whether a code is that of a node without uses.
#[inline(always)]
fn has_no_uses(nodes: &Nodes, code: u32) -> bool
    requires { IsCounted nodes.now code }
    ensures { IsTrue result → HasNoUses nodes.now code }
{
    code >= 2050 && nodes.uses(code - 2050) == 0
}
