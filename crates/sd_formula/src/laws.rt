//! Laws of the definitions: functions whose contracts state a fact, and that do nothing.

ghost use Rattle.std.specs.Prelude.{◌≡◌, ℕ, List, Ok};
ghost use Rattle.sd_formula.specs.declared.error.FormulaError.{FormulaError};
ghost use Rattle.sd_formula.specs.declared.formula.Kind.{Kind};
ghost use Rattle.sd_formula.specs.Dimacs.{Groups, dimacs, formula_fault_text};
ghost use Rattle.sd_formula.specs.Formulas.{IsFormula};

/// A text that stands for a formula stands for one with its numbers and its literals in range.
pub fn accepted_in_range()
    ensures { (kind : Kind) (bytes : List ℕ) (f : Groups) → dimacs kind bytes ≡ Ok f → IsFormula f }
{}

/// No two faults have one text, whatever their numbers. OutOfMemory, which is no fault of the
/// text, has the empty text.
pub fn one_fault()
    ensures { (e f : FormulaError) → formula_fault_text e ≡ formula_fault_text f → e ≡ f }
{}
