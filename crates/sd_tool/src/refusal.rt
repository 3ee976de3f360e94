// What the words and the texts of a run are refused for, and the line that says so.
ghost use Rattle.std.specs.Prelude.{◌≡◌, ◌++◌};
ghost use Rattle.sd_tool.specs.Parts.{parts_text};
ghost use Rattle.sd_tool.specs.Refusals.{refusal_status, refusal_text};
ghost use Rattle.sd_aiger.specs.Reads.{aiger_fault_text};
ghost use Rattle.sd_file.specs.Reads.{sdd_fault_text};
ghost use Rattle.sd_script.specs.Faults.{script_fault_text};
ghost use Rattle.sd_formula.specs.Dimacs.{formula_fault_text};
ghost use Rattle.sd_vfile.specs.Reads.{vtree_fault_text};
ghost use Rattle.sd_words.specs.Rows.{words_fault_text};

use crate::parts::{Parts, at_line, counts, literal_at_line, numbered, plain};
use sd_aiger::AigerFault;
use sd_base::Name;
use sd_file::SddFault;
use sd_formula::FormulaError;
use sd_script::ScriptFault;
use sd_vfile::VtreeFault;
use sd_words::WordsFault;

/// What the words or a text of a run are refused for.
#[derive(Drop)]
pub enum Refusal {
    /// The words have this fault.
    BadWords(WordsFault),
    /// The named formula file, circuit file, vtree file or SDD file is too long.
    TooLong(Name),
    /// The named formula file has this fault.
    BadFormula(Name, FormulaError),
    /// The named circuit file has this fault.
    BadCircuit(Name, AigerFault),
    /// The named vtree file has this fault.
    BadVtree(Name, VtreeFault),
    /// The named SDD file has this fault.
    BadSdd(Name, SddFault),
    /// The named script is too long.
    LongScript(Name),
    /// The named script has this fault.
    BadScript(Name, ScriptFault),
}

impl Refusal {
    /// The status that the program ends with.
    pub fn status(&self) -> u8
        ensures { result ≡ refusal_status self.now }
    {
        match self {
            Refusal::BadWords(_) => 1,
            Refusal::TooLong(_)
            | Refusal::BadFormula(_, _)
            | Refusal::BadCircuit(_, _)
            | Refusal::BadVtree(_, _)
            | Refusal::BadSdd(_, _) => 2,
            Refusal::LongScript(_) | Refusal::BadScript(_, _) => 3,
        }
    }

    /// The text of the line.
    pub fn parts(&self) -> Parts<'_>
        ensures { parts_text result ≡ refusal_text self.now }
    {
        match self {
            Refusal::BadWords(fault) => words_parts(fault),
            Refusal::TooLong(file) => plain(file.as_str().as_bytes(), b": too long"),
            Refusal::BadFormula(file, fault) => formula_parts(file.as_str().as_bytes(), *fault),
            Refusal::BadCircuit(file, fault) => circuit_parts(file.as_str().as_bytes(), *fault),
            Refusal::BadVtree(file, fault) => vtree_parts(file.as_str().as_bytes(), *fault),
            Refusal::BadSdd(file, fault) => sdd_parts(file.as_str().as_bytes(), *fault),
            Refusal::LongScript(file) => plain(file.as_str().as_bytes(), b": too long"),
            Refusal::BadScript(file, fault) => script_parts(file.as_str().as_bytes(), *fault),
        }
    }
}

// The text of a fault of the words.
fn words_parts(fault: &WordsFault) -> Parts<'_>
    ensures { parts_text result ≡ words_fault_text fault.now }
{
    match fault {
        WordsFault::Usage => plain(b"usage", b""),
        WordsFault::NoInput => plain(b"no input", b""),
        WordsFault::TwoInputs => plain(b"two inputs", b""),
        WordsFault::TwoVtrees => plain(b"two vtrees", b""),
        WordsFault::NumberRange { option } => {
            plain(b"number out of range: --", option.word().as_bytes())
        }
        WordsFault::WithScript { option } => {
            plain(b"not with --script: --", option.word().as_bytes())
        }
        WordsFault::FileTwice { name } => plain(b"file named twice: ", name.as_str().as_bytes()),
        WordsFault::StartUnknown => plain(b"start unknown", b""),
        WordsFault::EmptyName { option } => plain(b"empty name: --", option.word().as_bytes()),
        WordsFault::WorkersAlone => plain(b"workers without work", b""),
        WordsFault::WithParts { option } => {
            plain(b"not with --parts: --", option.word().as_bytes())
        }
        WordsFault::WithPortfolio { option } => {
            plain(b"not with --portfolio: --", option.word().as_bytes())
        }
        WordsFault::WithAag { option } => plain(b"not with --aag: --", option.word().as_bytes()),
        WordsFault::WithCheck { option } => {
            plain(b"not with --check: --", option.word().as_bytes())
        }
        WordsFault::NoVtree => plain(b"no vtree", b""),
        WordsFault::OutOfMemory => plain(b"", b""),
    }
}

// The text of a fault of this formula file.
fn formula_parts(file: &[u8], fault: FormulaError) -> Parts<'_>
    ensures { parts_text result ≡ file.now ++ formula_fault_text fault }
{
    match fault {
        FormulaError::NoHeader => plain(file, b": no header"),
        FormulaError::BadHeader { line } => at_line(file, line, b": bad header"),
        FormulaError::VariablesRange { found } => {
            numbered(file, b": variables out of range: ", found, b"")
        }
        FormulaError::TooManyGroups { stated } => {
            numbered(file, b": too many groups: ", stated, b"")
        }
        FormulaError::BadWord { line } => at_line(file, line, b": bad word"),
        FormulaError::LiteralRange { line, literal } => literal_at_line(file, line, literal),
        FormulaError::Unterminated => plain(file, b": last group is not ended"),
        FormulaError::CountDiffers { stated, found } => counts(file, stated, found),
        FormulaError::OutOfMemory => plain(file, b""),
    }
}

// The text of a fault of this circuit file.
fn circuit_parts(file: &[u8], fault: AigerFault) -> Parts<'_>
    ensures { parts_text result ≡ file.now ++ aiger_fault_text fault }
{
    match fault {
        AigerFault::NoHeader => plain(file, b": no header"),
        AigerFault::BadHeader { line } => at_line(file, line, b": bad header"),
        AigerFault::VariablesRange { found } => {
            numbered(file, b": variables out of range: ", found, b"")
        }
        AigerFault::Latches { found } => numbered(file, b": latches: ", found, b""),
        AigerFault::OutputsRange { found } => {
            numbered(file, b": outputs out of range: ", found, b"")
        }
        AigerFault::IndexRange { found } => {
            numbered(file, b": index out of range: ", found, b"")
        }
        AigerFault::CountDiffers { stated, found } => counts(file, stated, found),
        AigerFault::BadLine { line } => at_line(file, line, b": bad line"),
        AigerFault::LiteralRange { line } => at_line(file, line, b": literal out of range"),
        AigerFault::BadDefinition { line } => at_line(file, line, b": bad definition"),
        AigerFault::Undefined { line } => at_line(file, line, b": undefined literal"),
        AigerFault::Cycle { line } => at_line(file, line, b": cycle"),
        AigerFault::OutOfMemory => plain(file, b""),
    }
}

// The text of a fault of this vtree file.
fn vtree_parts(file: &[u8], fault: VtreeFault) -> Parts<'_>
    ensures { parts_text result ≡ file.now ++ vtree_fault_text fault }
{
    match fault {
        VtreeFault::NoHeader => plain(file, b": no header"),
        VtreeFault::BadLine { line } => at_line(file, line, b": bad line"),
        VtreeFault::IdTwice { line } => at_line(file, line, b": id twice"),
        VtreeFault::ChildUnknown { line } => at_line(file, line, b": child unknown"),
        VtreeFault::ChildTwice { line } => at_line(file, line, b": child twice"),
        VtreeFault::VariableWrong { line } => at_line(file, line, b": variable wrong"),
        VtreeFault::CountDiffers { stated, found } => counts(file, stated, found),
        VtreeFault::NotOneRoot { roots } => numbered(file, b": ", roots, b" roots"),
        VtreeFault::VariableMissing { variable } => {
            numbered(file, b": variable missing: ", u64::from(variable), b"")
        }
        VtreeFault::NodesRange { found } => {
            numbered(file, b": nodes out of range: ", found, b"")
        }
        VtreeFault::OutOfMemory => plain(file, b""),
    }
}

// The text of a fault of this SDD file.
fn sdd_parts(file: &[u8], fault: SddFault) -> Parts<'_>
    ensures { parts_text result ≡ file.now ++ sdd_fault_text fault }
{
    match fault {
        SddFault::NoHeader => plain(file, b": no header"),
        SddFault::BadLine { line } => at_line(file, line, b": bad line"),
        SddFault::IdTwice { line } => at_line(file, line, b": id twice"),
        SddFault::ChildUnknown { line } => at_line(file, line, b": child unknown"),
        SddFault::LiteralRange { line } => at_line(file, line, b": literal out of range"),
        SddFault::CountDiffers { stated, found } => counts(file, stated, found),
        SddFault::Empty => plain(file, b": no nodes"),
        SddFault::OutOfMemory => plain(file, b""),
    }
}

// The text of a fault of this script.
fn script_parts(file: &[u8], fault: ScriptFault) -> Parts<'_>
    ensures { parts_text result ≡ file.now ++ script_fault_text fault }
{
    match fault {
        ScriptFault::BadLine { line } => at_line(file, line, b": bad line"),
        ScriptFault::NameUnknown { line } => at_line(file, line, b": name unknown"),
        ScriptFault::NameTaken { line } => at_line(file, line, b": name taken"),
        ScriptFault::LiteralRange { line } => at_line(file, line, b": literal out of range"),
        ScriptFault::NumberRange { line } => at_line(file, line, b": number out of range"),
        ScriptFault::FileTwice { line } => at_line(file, line, b": file named twice"),
        ScriptFault::TooManyLines => plain(file, b": too many lines"),
        ScriptFault::TooManyLoads { line } => at_line(file, line, b": too many loads"),
        ScriptFault::NoFormula { line } => at_line(file, line, b": no formula"),
        ScriptFault::OutOfMemory => plain(file, b""),
    }
}
