// Laws of the definitions: functions whose contracts state a fact, and that do nothing.
ghost use Rattle.std.specs.Prelude.{◌≡◌, ℕ, ◌≤◌, List, ◌∷◌, None};
ghost use Rattle.sd_model.specs.Expression.{Expression};
ghost use Rattle.sd_model.specs.Size.{HasSize};
ghost use Rattle.sd_vtree.specs.Numbered.{plain_tree};
ghost use Rattle.sd_manager.specs.Valid.{IsTable};
ghost use Rattle.sd_compile.specs.Total.{HasTotalWith, AreHeldFormulas, IsTotal, IsTotalWithin};

use sd_manager::Manager;

/// The total size with a formula is one number.
pub fn one_total(m: &Manager)
    ensures { (f : Expression) (a b : ℕ) → HasTotalWith m.now f a → HasTotalWith m.now f b → a ≡ b }
{
    let _ = m.vtree();
}

/// Where roots hold just the diagrams of some formulas, the total size with one more is the size of them all.
pub fn total_of_formulas(m: &Manager)
    ensures total { (f : Expression) (fs : List Expression) (n : ℕ) → AreHeldFormulas m.now fs →
        HasTotalWith m.now f n → HasSize (f ∷ fs) (plain_tree m.now.vtree) n }
    ensures table { IsTable m.now }
{
    let _ = m.vtree();
}

/// Where roots hold just the diagrams of some formulas, the total size is the size of these formulas.
pub fn total_is_of_formulas(m: &Manager)
    requires no_move { m.now.moving ≡ None }
    ensures total { (fs : List Expression) (n : ℕ) → AreHeldFormulas m.now fs → IsTotal m.now n →
        HasSize fs (plain_tree m.now.vtree) n }
    ensures within { (fs : List Expression) (limit : ℕ) → AreHeldFormulas m.now fs →
        IsTotalWithin m.now limit
        → (n : ℕ) × HasSize fs (plain_tree m.now.vtree) n × (n ≤ limit) }
    ensures table { IsTable m.now }
{
    let _ = m.vtree();
}
