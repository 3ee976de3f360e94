//! Laws of the counts: functions whose contracts state a fact, and that do nothing.

ghost use Rattle.std.specs.Prelude.{◌≡◌, ◌≢◌, ◌↔◌, ◌+◌, ◌<◌, ◌≤◌, ◌^◌, ℕ, List, length, true};
ghost use Rattle.std.specs.List.{sum_by};
ghost use Rattle.std.specs.Option.{IsSome};
ghost use Rattle.sd_runs.specs.Arena.{IsMember, HasNoCopies};
ghost use Rattle.sd_unique.specs.Nodes.{Nodes, key_at, total_length};
ghost use Rattle.sd_counts.specs.Counts.{Counts, Adds, IsGrown, IsRelisted, IsSettled, counted_at, live_at};
ghost use Rattle.sd_counts.specs.Right.{AreOf, AreRanked, AreRight, IsReached, IsThere, list_at};
ghost use Rattle.sd_counts.specs.Uses.{counts_one, uses_in};

/// Where the counts are settled, just the numbers are counted that are held or below one that is held.
pub fn counted_is_reached()
    ensures { (lists : ℕ → List (ℕ × ℕ)) (held rank : ℕ → ℕ) (v : Counts) → AreRight lists held v
        → IsSettled v → AreRanked lists v rank
        → (n : ℕ) → (counted_at v n ≡ true) ↔ IsReached lists held n }
{}

/// Then the total is that of the lengths of the lists of these numbers.
pub fn total_is_of_reached()
    ensures { (lists : ℕ → List (ℕ × ℕ)) (held rank : ℕ → ℕ) (v : Counts) (reached : List ℕ)
        → AreRight lists held v → IsSettled v → AreRanked lists v rank → HasNoCopies reached
        → ((n : ℕ) → IsMember n reached ↔ IsReached lists held n)
        → v.total ≡ sum_by (λ n. length (lists n)) reached }
{}

/// A root more that holds a code.
pub fn right_with_root()
    ensures { (a : Nodes) (held more : ℕ → ℕ) (v w : Counts) (code : ℕ) → AreOf a held v
        → Adds v w (λ c. counts_one c code) → ((n : ℕ) → more n ≡ held n + counts_one (2050 + n) code)
        → IsThere a code → ((n : ℕ) → more n < 2 ^ 32) → AreOf a more w }
{}

/// A root less.
pub fn right_without_root()
    ensures { (a : Nodes) (held less : ℕ → ℕ) (v w : Counts) (code : ℕ) → AreOf a held v
        → Adds w v (λ c. counts_one c code) → ((n : ℕ) → held n ≡ less n + counts_one (2050 + n) code)
        → AreOf a less w }
{}

/// Other nodes, where those that are counted keep their lists: so when a node is made, and when one goes that is
/// not counted.
pub fn right_among_nodes()
    ensures { (a b : Nodes) (held : ℕ → ℕ) (v : Counts) → AreOf a held v
        → ((n : ℕ) → counted_at v n ≡ true → list_at b n ≡ list_at a n)
        → ((n : ℕ) → counted_at v n ≡ true → IsSome (key_at b n))
        → ((n : ℕ) → 0 < held n → IsSome (key_at b n)) → b.records ≤ length v.live → AreOf b held v }
{}

/// Another list of a counted node.
pub fn right_with_list()
    ensures { (a b : Nodes) (held : ℕ → ℕ) (v : Counts) (m : ℕ) → AreOf a held v → counted_at v m ≡ true
        → ((n : ℕ) → n ≢ m → list_at b n ≡ list_at a n)
        → (w : Counts) → IsRelisted v w (list_at a m) (list_at b m)
        → ((n : ℕ) → IsSome (key_at a n) → IsSome (key_at b n)) → b.records ≤ length v.live → AreOf b held w }
{}

/// What such a change asks of the total.
pub fn list_has_room()
    ensures { (a b : Nodes) (held : ℕ → ℕ) (v : Counts) (m : ℕ) → AreOf a held v → counted_at v m ≡ true
        → ((n : ℕ) → n ≢ m → list_at b n ≡ list_at a n)
        → v.total + length (list_at b m) ≤ total_length b + length (list_at a m) }
{}

/// More numbers.
pub fn right_when_grown()
    ensures { (a : Nodes) (held : ℕ → ℕ) (v w : Counts) → AreOf a held v → IsGrown v w → AreOf a held w }
{}

/// No number is used more than twice for each element, and by roots.
pub fn uses_are_few()
    ensures { (a : Nodes) (held : ℕ → ℕ) (v : Counts) → AreOf a held v → (n : ℕ)
        → live_at v n ≤ total_length a + total_length a + held n }
{}

/// The list of a counted node is counted: its codes, and its length.
pub fn list_is_counted()
    ensures uses { (a : Nodes) (held : ℕ → ℕ) (v : Counts) (m : ℕ) → AreOf a held v → counted_at v m ≡ true
        → (n : ℕ) → uses_in (2050 + n) (list_at a m) ≤ live_at v n }
    ensures total { (a : Nodes) (held : ℕ → ℕ) (v : Counts) (m : ℕ) → AreOf a held v → counted_at v m ≡ true
        → length (list_at a m) ≤ v.total }
{}
