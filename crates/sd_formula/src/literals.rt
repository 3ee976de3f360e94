//! The values of literals under an assignment.

ghost use Rattle.std.specs.Prelude.{◌≡◌, length};
ghost use Rattle.std.specs.List.{list_any, list_all};
ghost use Rattle.sd_model.specs.Assignment.{literal_holds};
ghost use Rattle.sd_model.specs.Expression.{odd_hold};
ghost use Rattle.sd_formula.specs.Formulas.{IsLiteral, AreLiterals};

/// Whether some literal of a clause holds.
pub(crate) fn some_holds(clause: &[i32], assignment: &[bool]) -> bool
    requires { AreLiterals (length assignment.now) clause.now }
    ensures { result ≡ list_any (literal_holds assignment.now) clause.now }
{
    for literal in clause {
        if holds(*literal, assignment) {
            return true;
        }
    }
    false
}

/// Whether an odd number of the literals of an exclusive group hold.
pub(crate) fn odd_hold(group: &[i32], assignment: &[bool]) -> bool
    requires { AreLiterals (length assignment.now) group.now }
    ensures { result ≡ odd_hold assignment.now group.now }
{
    let mut odd = false;
    for literal in group {
        odd = odd != holds(*literal, assignment);
    }
    odd
}

/// Whether each literal of a term holds.
pub(crate) fn all_hold(term: &[i32], assignment: &[bool]) -> bool
    requires { AreLiterals (length assignment.now) term.now }
    ensures { result ≡ list_all (literal_holds assignment.now) term.now }
{
    for literal in term {
        if !holds(*literal, assignment) {
            return false;
        }
    }
    true
}

/// Whether a literal agrees with the truth value of its variable.
fn holds(literal: i32, assignment: &[bool]) -> bool
    requires { IsLiteral (length assignment.now) literal }
    ensures { result ≡ literal_holds assignment.now literal }
{
    let value = assignment[literal.unsigned_abs() as usize - 1];
    value == (literal > 0)
}
