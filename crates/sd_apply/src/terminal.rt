// The terminal cases of the operations: answers that need no node.
ghost use Rattle.std.specs.Prelude.{◌≡◌, ◌≤◌, ◌==◌, ℕ, if◌then◌else◌, Some, None};
ghost use Rattle.sd_apply.specs.Operations.{operation_number};
ghost use Rattle.sd_apply.specs.Terminal.{terminal_of, opposite_of, opposites_code, deciding_code};

use sd_manager::NodeId;
use sd_model::Operation;

/// The number of negation among the operations.
pub(crate) const NEGATION: u8 = 3;

/// The number of a connective.
pub(crate) fn number(operation: Operation) -> u8
    ensures { result ≡ operation_number operation }
{
    match operation {
        Operation::And => 0,
        Operation::Or => 1,
        Operation::Xor => 2,
    }
}

/// The answer at equal, constant and opposite codes.
pub(crate) fn terminal(number: u8, a: u32, b: u32) -> Option<u32>
    ensures { result ≡ terminal_of number a b }
{
    // half of all calls end here
    if a >= 2 && b >= 2 && a / 2 != b / 2 {
        return None;
    }
    if a == b {
        return if number == 2 { Some(0) } else { Some(a) };
    }
    if a == 0 {
        return if number == 0 { Some(0) } else { Some(b) };
    }
    if b == 0 {
        return if number == 0 { Some(0) } else { Some(a) };
    }
    if a == 1 {
        return with_true(number, b);
    }
    if b == 1 {
        return with_true(number, a);
    }
    if a / 2 == b / 2 && a < 2050 {
        return if number == 0 { Some(0) } else { Some(1) };
    }
    None
}

// The answer where the other code is that of true.
fn with_true(number: u8, a: u32) -> Option<u32>
    ensures { result ≡ (if number == 0 then Some a else (if number == 1 then Some 1 else None)) }
{
    match number {
        0 => Some(a),
        1 => Some(1),
        _ => None,
    }
}

/// The negation of a constant or a literal.
pub(crate) fn opposite(a: u32) -> Option<u32>
    ensures { result ≡ opposite_of a }
{
    if a < 2 {
        return Some(1 - a);
    }
    if a < 2050 {
        return if a % 2 == 0 { Some(a + 1) } else { Some(a - 1) };
    }
    None
}

/// The answer of a connective at a node and its negation.
pub(crate) fn at_opposites(operation: Operation) -> NodeId
    ensures { result ≡ opposites_code operation }
{
    match operation {
        Operation::And => NodeId::FALSE,
        Operation::Or => NodeId::TRUE,
        Operation::Xor => NodeId::TRUE,
    }
}

/// The code of the value that decides a connective: beside it, it comes out.
pub(crate) fn deciding_code(operation: Operation) -> Option<u32>
    ensures { result ≡ deciding_code operation }
{
    match operation {
        Operation::And => Some(0),
        Operation::Or => Some(1),
        Operation::Xor => None,
    }
}

/// Whether a conjunction or a disjunction leaves every other node as it is beside this one; false for an exclusive or.
/// It decides speed alone.
pub(crate) fn is_neutral(operation: Operation, node: NodeId) -> bool {
    match operation {
        Operation::And => node.is_true(),
        Operation::Or => node.is_false(),
        Operation::Xor => false,
    }
}
