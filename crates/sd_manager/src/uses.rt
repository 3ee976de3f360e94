//! The uses of nodes, counted by codes.

ghost use Rattle.std.specs.Prelude.{◌≡◌, ◌+◌, ◌-◌, ◌<◌, ◌≤◌, ◌^◌, ℕ, List, [], ◌∷◌, Some};
ghost use Rattle.std.specs.Option.{IsSome};
ghost use Rattle.std.specs.FinMap.{get};
ghost use Rattle.sd_unique.specs.Nodes.{IsNodes, key_at, uses_at};
ghost use Rattle.sd_unique.specs.Relinking.{IsLoose};
ghost use Rattle.sd_manager.specs.Table.{uses_in, uses_of_pair};
ghost use Rattle.sd_manager.specs.Counting.{counts_one, AddsUses, AreCounted, DropsUse, DropsUses, IsCounted};
ghost use Rattle.sd_manager.specs.Counting.{list_at, run_at};

use sd_unique::Nodes;

// Counts one use more of a code. Constants and literals have no count.
pub(crate) fn add_use(nodes: &mut Nodes, code: u32)
    requires valid { IsNodes nodes.old }
    requires counted { IsCounted nodes.old code }
    requires room { 2050 ≤ code → uses_at nodes.old (code - 2050) < 2 ^ 64 - 1 }
    ensures uses { AddsUses nodes.old nodes.new (λ c. counts_one c code) }
    ensures valid { IsNodes nodes.new }
{
    if code >= 2050 {
        nodes.add_use(code - 2050);
    }
}

// Counts one use less of a code.
pub(crate) fn drop_use(nodes: &mut Nodes, code: u32)
    requires valid { IsNodes nodes.old }
    requires counted { IsCounted nodes.old code }
    requires used { 2050 ≤ code → 0 < uses_at nodes.old (code - 2050) }
    ensures uses { DropsUse nodes.old nodes.new code }
    ensures valid { IsNodes nodes.new }
{
    if code >= 2050 {
        nodes.drop_use(code - 2050);
    }
}

// Counts one use more of both codes of a pair.
fn add_pair(nodes: &mut Nodes, pair: (u32, u32))
    requires valid { IsNodes nodes.old }
    requires first { IsCounted nodes.old pair.0 }
    requires second { IsCounted nodes.old pair.1 }
    requires room { (n k : ℕ) → get nodes.old.uses n ≡ Some k
        → k + uses_of_pair (2050 + n) pair < 2 ^ 64 }
    ensures uses { AddsUses nodes.old nodes.new (λ c. uses_of_pair c pair) }
    ensures valid { IsNodes nodes.new }
{
    add_use(nodes, pair.0);
    add_use(nodes, pair.1);
}

// Counts one use more of each code in a list of pairs, as often as it stands there.
pub(crate) fn add_uses(nodes: &mut Nodes, list: &[(u32, u32)])
    requires valid { IsNodes nodes.old }
    requires counted { AreCounted nodes.old list.now }
    requires room { (n k : ℕ) → get nodes.old.uses n ≡ Some k
        → k + uses_in (2050 + n) list.now < 2 ^ 64 }
    ensures uses { AddsUses nodes.old nodes.new (λ c. uses_in c list.now) }
    ensures valid { IsNodes nodes.new }
{
    for pair in list {
        add_pair(nodes, *pair);
    }
}

// Counts one use more of each code in two pairs.
pub(crate) fn add_two(nodes: &mut Nodes, first: (u32, u32), second: (u32, u32))
    requires valid { IsNodes nodes.old }
    requires counted { AreCounted nodes.old (first ∷ second ∷ []) }
    requires room { (n k : ℕ) → get nodes.old.uses n ≡ Some k
        → k + uses_in (2050 + n) (first ∷ second ∷ []) < 2 ^ 64 }
    ensures uses { AddsUses nodes.old nodes.new (λ c. uses_in c (first ∷ second ∷ [])) }
    ensures valid { IsNodes nodes.new }
{
    add_pair(nodes, first);
    add_pair(nodes, second);
}

// Counts one use less of both codes of a pair.
fn drop_pair(nodes: &mut Nodes, pair: (u32, u32))
    requires valid { IsNodes nodes.old }
    requires first { IsCounted nodes.old pair.0 }
    requires second { IsCounted nodes.old pair.1 }
    requires used { (n k : ℕ) → get nodes.old.uses n ≡ Some k → uses_of_pair (2050 + n) pair ≤ k }
    ensures uses { DropsUses nodes.old nodes.new (λ c. uses_of_pair c pair) }
    ensures valid { IsNodes nodes.new }
{
    drop_use(nodes, pair.0);
    drop_use(nodes, pair.1);
}

// Counts one use less of each code in two pairs.
pub(crate) fn drop_two(nodes: &mut Nodes, first: (u32, u32), second: (u32, u32))
    requires valid { IsNodes nodes.old }
    requires counted { AreCounted nodes.old (first ∷ second ∷ []) }
    requires used { (n k : ℕ) → get nodes.old.uses n ≡ Some k
        → uses_in (2050 + n) (first ∷ second ∷ []) ≤ k }
    ensures uses { DropsUses nodes.old nodes.new (λ c. uses_in c (first ∷ second ∷ [])) }
    ensures valid { IsNodes nodes.new }
{
    drop_pair(nodes, first);
    drop_pair(nodes, second);
}

// Counts one use less of each code in the list of a node, as often as it stands there.
pub(crate) fn drop_uses(nodes: &mut Nodes, number: u32)
    requires valid { IsNodes nodes.old }
    requires node { IsSome (key_at nodes.old number) }
    requires counted { AreCounted nodes.old (list_at nodes.old number) }
    requires used { (n k : ℕ) → get nodes.old.uses n ≡ Some k →
        uses_in (2050 + n) (list_at nodes.old number) ≤ k }
    ensures uses { DropsUses nodes.old nodes.new (λ c. uses_in c (list_at nodes.old number)) }
    ensures valid { IsNodes nodes.new }
{
    let count = nodes.list(number).len();
    for index in 0..count {
        let pair = nodes.list(number)[index];
        drop_pair(nodes, pair);
    }
}

// Counts one use less of each code in the list of a loose run, as often as it stands there.
pub(crate) fn drop_run_uses(nodes: &mut Nodes, run: (u32, u32))
    requires valid { IsNodes nodes.old }
    requires run { (list : List (ℕ × ℕ)) × IsLoose nodes.old run.0 run.1 list }
    requires counted { AreCounted nodes.old (run_at nodes.old run.0) }
    requires used { (n k : ℕ) → get nodes.old.uses n ≡ Some k →
        uses_in (2050 + n) (run_at nodes.old run.0) ≤ k }
    ensures uses { DropsUses nodes.old nodes.new (λ c. uses_in c (run_at nodes.old run.0)) }
    ensures valid { IsNodes nodes.new }
{
    for index in 0..run.1 {
        let pair = nodes.loose_list(run)[index as usize];
        drop_pair(nodes, pair);
    }
}
