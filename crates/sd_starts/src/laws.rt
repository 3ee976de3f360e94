// Laws of the choice: functions whose contracts state a fact, and that do nothing.
ghost use Rattle.std.specs.Prelude.{◌≡◌};
ghost use Rattle.sd_model.specs.Tree.{Tree, IsVtree};
ghost use Rattle.sd_formula.specs.Dimacs.{Groups};
ghost use Rattle.sd_starts.specs.Starts.{Choice, IsChoice, IsEndAt, StartEnd};
ghost use Rattle.sd_starts.specs.declared.start.Settings.{Settings};

/// What a formula comes to over a vtree is one: it does not both end and pass the limit, it ends with one size, and it
/// passes the limit with one group and one size.
#[tactic(auto, using(crate::proofs::OneChoice::one_end))]
pub fn one_end()
    ensures { (f : Groups) (settings : Settings) (t : Tree) (x y : StartEnd) → IsVtree t
        → IsEndAt f settings t x → IsEndAt f settings t y → x ≡ y }
{}

/// Two choices of one formula with one set of settings are one: they name one start and one size, or both are the
/// refusal by the limit, with one group and one size.
pub fn one_choice()
    ensures { (f : Groups) (settings : Settings) (x y : Choice) → IsChoice f settings x
        → IsChoice f settings y → x ≡ y }
{}
