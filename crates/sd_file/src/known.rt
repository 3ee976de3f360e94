//! What is known of the nodes at and below some nodes: their ranks, and the elements of decompositions in order.

ghost use Rattle.std.specs.Prelude.{◌≡◌, ℕ, ◌==◌, Some, None, OnOk, OnErr, MatchOption, option_copied};
ghost use Rattle.std.specs.Prelude.{if◌then◌else◌, true};
ghost use Rattle.std.specs.Option.{IsSome};
ghost use Rattle.sd_file.specs.Known.{ArePlaced, known_at, place_at};

use sd_manager::NodeId;
use std::alloc::{AllocError, Global};

/// Where a diagram stands in the structural order: constants come first, then literals, then decompositions.
#[derive(Clone, Copy, PartialEq, Eq, PartialOrd, Ord)]
pub(crate) enum Rank {
    Constant(bool),
    // By positions, and the negative one first.
    Literal { position: u32, positive: bool },
    // By positions, and by the place among those of one position.
    Decomposition { position: u32, place: usize },
}

/// The elements of the distinct decompositions at and below some nodes, each list in the structural order of primes.
#[derive(Drop)]
pub(crate) struct Ordered {
    // At each code one more than the index of what is known of its node, or 0 where nothing is.
    places: Vec<usize>,
    // In the order in which the nodes were ranked.
    known: Vec<Known>,
    ghost placed: { ArePlaced places.items known.items },
}

// The rank of a node, and the elements of a decomposition.
#[derive(Drop)]
struct Known {
    rank: Rank,
    list: Vec<(NodeId, NodeId)>,
}

impl Ordered {
    ghost use Rattle.sd_file.specs.Ordered.{list_of, rank_of};
    ghost use Rattle.sd_file.specs.Ranks.{HasNewRank};

    /// Nothing is known.
    #[tactic(auto, unfolding(crate::specs::Ordered::rank_of))]
    pub(crate) fn new(alloc: Global) -> Ordered
        ensures { (c : ℕ) → rank_of result c ≡ None }
    {
        Ordered {
            places: Vec::new(alloc),
            known: Vec::new(alloc),
        }
    }

    /// The elements of a decomposition, in the structural order.
    pub(crate) fn elements(&self, node: NodeId) -> &[(NodeId, NodeId)]
        requires { IsSome (list_of self.now node) }
        ensures { list_of self.now node ≡ Some result.now }
    {
        self.list(node).unwrap()
    }

    /// The elements that are kept of a node.
    #[tactic(auto, unfolding(crate::specs::Ordered::list_of))]
    pub(crate) fn list(&self, node: NodeId) -> Option<&[(NodeId, NodeId)]>
        ensures { MatchOption result (list_of self.now node ≡ None)
            (λ list. list_of self.now node ≡ Some list.now) }
    {
        let known = find(&self.places, &self.known, node.0)?;
        Some(known.list.as_slice())
    }

    /// The rank of a node.
    #[tactic(auto, unfolding(crate::specs::Ordered::rank_of))]
    pub(crate) fn rank(&self, node: NodeId) -> Option<Rank>
        ensures { result ≡ rank_of self.now node }
    {
        let known = find(&self.places, &self.known, node.0)?;
        Some(known.rank)
    }

    /// Gives a constant or a literal its rank.
    pub(crate) fn give_plain(
        &mut self,
        alloc: Global,
        code: u32,
        rank: Rank,
    ) -> Result<(), AllocError>
        ensures { OnOk result ((b : ℕ)
            → rank_of self.new b ≡ (if b == code then Some rank else rank_of self.old b)) }
    {
        if self.has_rank(code, rank) {
            return Ok(());
        }
        self.give(code, rank, Vec::new(alloc))
    }

    // Whether a code has this rank.
    #[tactic(auto, unfolding(crate::specs::Ordered::rank_of))]
    fn has_rank(&self, code: u32, rank: Rank) -> bool
        ensures { result ≡ true → rank_of self.now code ≡ Some rank }
    {
        match find(&self.places, &self.known, code) {
            Some(known) => known.rank == rank,
            None => false,
        }
    }

    /// Gives a node its rank and its list.
    #[tactic(auto, unfolding(crate::specs::Ordered::rank_of, crate::specs::Ordered::list_of))]
    pub(crate) fn give(
        &mut self,
        code: u32,
        rank: Rank,
        list: Vec<(NodeId, NodeId)>,
    ) -> Result<(), AllocError>
        ensures { OnOk result (HasNewRank self.old self.new code rank list.items) }
    {
        put(
            &mut self.places,
            &mut self.known,
            code,
            Known { rank, list },
        )
    }
}

// What is known of a code.
fn find<'a>(places: &[usize], known: &'a [Known], code: u32) -> Option<&'a Known>
    ensures { option_copied result ≡ known_at known.now (place_at places.now code) }
{
    let index = code as usize;
    if index >= places.len() || places[index] == 0 {
        return None;
    }
    known.get(places[index] - 1)
}

// Keeps what is known of a code, in place of what was.
fn put(
    places: &mut Vec<usize>,
    known: &mut Vec<Known>,
    code: u32,
    entry: Known,
) -> Result<(), AllocError>
    requires { ArePlaced places.old.items known.old.items }
    ensures placed { ArePlaced places.new.items known.new.items }
    ensures put { OnOk result ((b : ℕ) → known_at known.new.items (place_at places.new.items b)
        ≡ (if b == code then Some entry
        else known_at known.old.items (place_at places.old.items b))) }
{
    known.push(entry)?;
    set_place(places, code, known.len())
}

// Gives a code a place.
fn set_place(places: &mut Vec<usize>, code: u32, place: usize) -> Result<(), AllocError>
    ensures set { OnOk result ((b : ℕ) → place_at places.new.items b
        ≡ (if b == code then place else place_at places.old.items b)) }
    ensures kept { OnErr result ((b : ℕ) → place_at places.new.items b
        ≡ place_at places.old.items b) }
{
    let index = code as usize;
    if index >= places.len() {
        places.resize(index + 1, 0)?;
    }
    places[index] = place;
    Ok(())
}
