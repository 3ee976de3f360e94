//! What is read of a node.

ghost use Rattle.std.specs.Prelude.{◌≡◌, ◌≢◌, ◌≤◌, length, pos, ℤ};
ghost use Rattle.sd_model.specs.Assignment.{literal_holds};
ghost use Rattle.sd_manager.specs.Literals.{IsLiteralTo, code_of_literal};

use sd_vtree::VNode;

/// The kind of a node: a constant, a literal as DIMACS has it, or a decomposition at a vtree node with this number of
/// elements.
#[derive(Clone, Copy, PartialEq, Eq, Debug)]
pub enum View {
    Constant(bool),
    Literal(i32),
    Decomposition { place: VNode, count: u32 },
}

// The value of a literal under an assignment that has its variable.
pub(crate) fn literal_value(literal: i32, assignment: &[bool]) -> bool
    requires { IsLiteralTo (length assignment.now) literal }
    ensures { result ≡ literal_holds assignment.now literal }
{
    let index = literal.unsigned_abs() as usize - 1;
    assignment[index] == (literal > 0)
}

// The code of a literal.
pub(crate) fn literal_code(literal: i32) -> u32
    requires { IsLiteralTo 1024 literal }
    ensures { result ≡ code_of_literal literal }
{
    if literal < 0 {
        literal.unsigned_abs() * 2 + 1
    } else {
        literal.unsigned_abs() * 2
    }
}
