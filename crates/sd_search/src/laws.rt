//! Laws of the search: functions whose contracts state a fact, and that do nothing.

ghost use Rattle.std.specs.Prelude.{◌≡◌, ◌≤◌, ℕ, List, ◌∷◌, [], map, None};
ghost use Rattle.sd_model.specs.Expression.{Expression};
ghost use Rattle.sd_model.specs.Tree.{Tree, Leaf, Node, IsVtree};
ghost use Rattle.sd_model.specs.Size.{HasSize};
ghost use Rattle.sd_manager.specs.Table.{Table};
ghost use Rattle.sd_manager.specs.Valid.{IsTable};
ghost use Rattle.sd_compile.specs.Total.{AreHeldFormulas};
ghost use Rattle.sd_search.specs.Search.{IsSearch, Found, walk_moves, LeadThrough};

/// A search from a vtree has one result: the tree, both sizes and the number of rounds are functions of the formulas,
/// the slack, the number of rounds asked for and the vtree.
#[tactic(auto, using(crate::proofs::Determined::search_determined))]
pub fn one_result()
    ensures { (fs : List Expression) (slack rounds : ℕ) (t : Tree) (a b : Found) → IsVtree t
        → IsSearch fs slack rounds t a → IsSearch fs slack rounds t b → a ≡ b }
{}

/// The result of a search is no larger than its start, and the size that is told is that of the formulas there.
#[tactic(auto, using(crate::proofs::NeverLarger::search_within))]
pub fn never_larger()
    ensures { (fs : List Expression) (slack rounds : ℕ) (t : Tree) (a : Found) → IsVtree t
        → IsSearch fs slack rounds t a → (a.after ≤ a.before) × HasSize fs a.tree a.after }
{}

/// Outside a move there are formulas that the held roots stand for, so what holds for all of these is said of some.
#[tactic(auto, using(crate::proofs::AnyFormulas::any_formulas))]
pub fn there_are_formulas()
    ensures { (t : Table) → IsTable t → t.moving ≡ None → (fs : List Expression) × AreHeldFormulas t fs }
{}

/// From two subtrees on the left a walk leads through the other eleven arrangements of the three subtrees.
#[tactic(auto, using(crate::proofs::WorkedSearch::from_left))]
pub fn eleven_arrangements()
    ensures { (a b c : Tree) → LeadThrough (Node (Node a b) c) [] (walk_moves (Node (Node a b) c))
        (Node c (Node a b) ∷ Node (Node c a) b ∷ Node b (Node c a) ∷ Node (Node b c) a
        ∷ Node a (Node b c) ∷ Node a (Node c b) ∷ Node (Node a c) b ∷ Node b (Node a c)
        ∷ Node (Node b a) c ∷ Node c (Node b a) ∷ Node (Node c b) a ∷ []) }
{}

/// So it does from two subtrees on the right of a leaf. Any other node has two subtrees on the left, or two leaves.
#[tactic(auto, using(crate::proofs::WorkedSearch::from_right))]
pub fn eleven_from_the_right()
    ensures { (x : ℕ) (b c : Tree) → LeadThrough (Node (Leaf x) (Node b c)) [] (walk_moves (Node (Leaf x) (Node b c)))
        (Node (Node (Leaf x) b) c ∷ Node c (Node (Leaf x) b) ∷ Node (Node c (Leaf x)) b ∷ Node b (Node c (Leaf x))
        ∷ Node (Node b c) (Leaf x) ∷ Node (Node c b) (Leaf x) ∷ Node (Leaf x) (Node c b) ∷ Node (Node (Leaf x) c) b
        ∷ Node b (Node (Leaf x) c) ∷ Node (Node b (Leaf x)) c ∷ Node c (Node b (Leaf x)) ∷ []) }
{}
