// The size of a plain diagram.

ghost use Rattle.std.specs.Prelude.{◌≡◌, ◌<◌, ◌^◌, ◌∷◌, [], IfOk};
ghost use Rattle.std.specs.Option.{SomeIff};
ghost use Rattle.std.specs.List.{sum_by};
ghost use Rattle.sd_model.specs.Size.{size_of, element_count};
ghost use Rattle.sd_model.specs.Seen.{diagram_of, diagrams_of};

use crate::diagrams::Diagram;
use crate::nodes::nodes_of;
use std::alloc::{AllocError, Global};
use std::slice;

/// The size of a diagram: the sum of the element counts of the distinct decompositions in it.
/// A sum past 64 bits, which no memory can hold, is answered as out of memory. It is for small diagrams, as is
/// `text_of`.
#[tactic(auto, unfolding(crate::specs::Size::size_of))]
pub fn size_of(alloc: Global, d: &Diagram) -> Result<u64, AllocError>
    ensures { IfOk result (λ n. n ≡ size_of (diagram_of d.now ∷ [])) }
{
    let nodes = nodes_of(alloc, slice::from_ref(d))?;
    total(&nodes).ok_or(AllocError)
}

// The sum of the element counts, where it has 64 bits.
#[tactic(auto, using(crate::proofs::SizeSteps::summed_step))]
fn total(nodes: &[&Diagram]) -> Option<u64>
    ensures { SomeIff result
        (sum_by element_count (diagrams_of nodes.now) < 2 ^ 64)
        (sum_by element_count (diagrams_of nodes.now)) }
{
    let mut sum: u64 = 0;
    for node in nodes {
        sum = sum.checked_add(element_count(node))?;
    }
    Some(sum)
}

// The number of a decomposition's elements, and 0 for what is none.
#[tactic(auto, using(crate::proofs::SeenLemmas::seen_element_count))]
fn element_count(d: &Diagram) -> u64
    ensures { result ≡ element_count (diagram_of d.now) }
{
    match d {
        Diagram::Decomposition { elements, .. } => elements.len() as u64,
        _ => 0,
    }
}
