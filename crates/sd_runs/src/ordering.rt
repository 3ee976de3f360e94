// Free runs of two elements are chained anew, by their starts.
ghost use Rattle.std.specs.Prelude.{◌≡◌, ◌<◌, ◌≤◌, ℕ, List, length};
ghost use Rattle.sd_runs.specs.Fields.{no_run};
ghost use Rattle.sd_runs.specs.Ordered.{IsRechained, IsRechainedTo};

use crate::heads::NONE;
use crate::marks::FREE_TWO;

// Chains the starts that are marked as those of free runs of two elements, and answers the first: from `from` on, the
// least first, and then those below.
pub(crate) fn chain_marked(marks: &[u8], elements: &mut [(u32, u32)], from: usize) -> u32
    requires size { length marks.now ≡ length elements.old }
    requires below { length marks.now ≤ no_run }
    requires from { from ≤ length marks.now }
    ensures { IsRechained marks.now elements.old elements.new result }
{
    let head = chain_part(marks, elements, 0, from, NONE);
    chain_part(marks, elements, from, marks.len(), head)
}

// Puts the marked starts from `below` on and before `above` first in a chain of those before `below`, the least first,
// and answers the first.
fn chain_part(
    marks: &[u8],
    elements: &mut [(u32, u32)],
    below: usize,
    above: usize,
    head: u32,
) -> u32
    requires size { length marks.now ≡ length elements.old }
    requires below { length marks.now ≤ no_run }
    requires part { below ≤ above }
    requires inside { above ≤ length marks.now }
    ensures chained { (first : List (ℕ × ℕ))
        → IsRechainedTo marks.now (λ s. s < below) first elements.old head
        → IsRechainedTo marks.now (λ s. s < above) first elements.new result }
    ensures size { length elements.new ≡ length elements.old }
{
    let mut head = head;
    let mut start = above;
    while start > below {
        start -= 1;
        if marks[start] == FREE_TWO {
            elements[start] = (head, 0);
            head = start as u32;
        }
    }
    head
}
