//! Laws of the verdict: functions whose contracts state a fact, and that do nothing.

ghost use Rattle.std.specs.Prelude.{◌≡◌, ◌↔◌, ℕ, ◌<◌, length};
ghost use Rattle.sd_model.specs.Tree.{Tree, IsVtree, leaves};
ghost use Rattle.sd_model.specs.Diagram.{Diagram};
ghost use Rattle.sd_model.specs.Canonical.{IsCanonical};
ghost use Rattle.sd_file.specs.Files.{IsFile};
ghost use Rattle.sd_file.specs.Reads.{File};
ghost use Rattle.sd_check.specs.declared.rules.Verdict.{Verdict};
ghost use Rattle.sd_check.specs.declared.rules.Verdict.TheVariants.{Yes};
ghost use Rattle.sd_check.specs.Rules.{Places, HasVerdict};
ghost use Rattle.sd_check.specs.Copies.{IsCopy};

/// A file has one verdict.
pub fn one_verdict()
    ensures { (t : Tree) (ids : Places) (f : File) (v w : Verdict)
        → HasVerdict t ids f v → HasVerdict t ids f w → v ≡ w }
{}

/// No node of a file breaks a rule just where each node is a copy of a canonical diagram, up to the order of elements.
pub fn yes_is_canonical()
    ensures { (t : Tree) (ids : Places) (f : File) → IsVtree t → leaves t ≡ f.variables → IsFile f
        → HasVerdict t ids f Yes ↔ ((i : ℕ) → i < length f.nodes
        → (d : Diagram) × IsCanonical t 0 d × IsCopy ids f i d) }
{}
