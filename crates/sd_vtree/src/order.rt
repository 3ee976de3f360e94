// The order of the nodes, and their positions in it.

ghost use Rattle.std.specs.Prelude.{◌≡◌, ◌≢◌, ℕ, ◌+◌, ◌^◌, ◌<◌, ◌≤◌, List, ◌∷◌, ◌++◌, length, slice_index, slice_set};

use crate::shape::VNode;

// Exchanges the positions of two nodes.
pub(crate) fn exchange(order: &mut [VNode], positions: &mut [u32], a: VNode, b: VNode)
    requires a_in_range { a < length positions.old }
    requires b_in_range { b < length positions.old }
    requires a_placed { slice_index positions.old a < length order.old }
    requires b_placed { slice_index positions.old b < length order.old }
    ensures order { order.new ≡
        slice_set (slice_set order.old (slice_index positions.old a) b)
        (slice_index positions.old b) a }
    ensures positions { positions.new ≡
        slice_set (slice_set positions.old a (slice_index positions.old b)) b
        (slice_index positions.old a) }
{
    let first = positions[a.index()];
    let second = positions[b.index()];
    order[first as usize] = b;
    order[second as usize] = a;
    positions[a.index()] = second;
    positions[b.index()] = first;
}

// Exchanges two neighbouring parts: the one before a middle and the one from it on.
fn rotate_part(order: &mut [VNode], from: usize, middle: usize, to: usize)
    requires first { from ≤ middle }
    requires second { middle ≤ to }
    requires within { to ≤ length order.old }
    ensures { (f x y k : List ℕ) → order.old ≡ f ++ (x ++ (y ++ k)) →
        length f ≡ from → from + length x ≡ middle → middle + length y ≡ to →
        order.new ≡ f ++ (y ++ (x ++ k)) }
{
    order[from..to].rotate_left(middle - from);
}

// Exchanges what stands before and what stands after a place, between two bounds.
pub(crate) fn exchange_sides(order: &mut [VNode], from: usize, position: usize, to: usize)
    requires first { from ≤ position }
    requires second { position < to }
    requires within { to ≤ length order.old }
    ensures { (f a b k : List ℕ) (u : ℕ) → order.old ≡ f ++ ((a ++ u ∷ b) ++ k) →
        length f ≡ from → from + length a ≡ position → position + 1 + length b ≡ to →
        order.new ≡ f ++ ((b ++ u ∷ a) ++ k) }
{
    rotate_part(order, from, position + 1, to);
    rotate_part(order, from + (to - position - 1), to - 1, to);
}

// Writes the positions of the nodes between two places of the order.
pub(crate) fn write_positions(order: &[VNode], positions: &mut [u32], from: usize, to: usize)
    requires order { from ≤ to }
    requires within { to ≤ length order.now }
    requires fits { length order.now < 2 ^ 32 }
    requires nodes { (p : ℕ) → p < length order.now →
        slice_index order.now p < length positions.old }
    requires apart { (p q : ℕ) → p < q → q < length order.now →
        slice_index order.now p ≢ slice_index order.now q }
    ensures inside { (p : ℕ) → from ≤ p → p < to →
        slice_index positions.new (slice_index order.now p) ≡ p }
    ensures outside { (n : ℕ) → ((p : ℕ) → from ≤ p → p < to → slice_index order.now p ≢ n) →
        slice_index positions.new n ≡ slice_index positions.old n }
{
    for position in from..to {
        positions[order[position].index()] = position as u32;
    }
}
