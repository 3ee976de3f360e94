// The formats of the files that a run reads: for each what a text stands for, and the refusals of its faults.
ghost use Rattle.std.specs.Prelude.{◌≡◌, ◌≤◌, length, Ok, IfOk, IfErr};
ghost use Rattle.sd_aiger.specs.Reads.{aiger};
ghost use Rattle.sd_file.specs.Reads.{sdd_file};
ghost use Rattle.sd_formula.specs.Dimacs.{Groups, dimacs};
ghost use Rattle.sd_model.specs.Circuit.{Circuit as CircuitText};
ghost use Rattle.sd_model.specs.Tree.{Tree, leaves};
ghost use Rattle.sd_script.specs.Read.{IsScript};
ghost use Rattle.sd_script.specs.Scripts.{Script as SeenScript, script_of};
ghost use Rattle.sd_file.specs.Reads.{File as SeenFile};
ghost use Rattle.sd_vfile.specs.Reads.{Fails, vtree_file};
ghost use Rattle.sd_vtree.specs.Numbered.{plain_tree};
ghost use Rattle.sd_tool.specs.Readings.{CheckedVtree, checked_vtree};
ghost use Rattle.sd_tool.specs.Formats.{AreVariables, HasBothKinds, checked_of};

use crate::refusal::Refusal;
use crate::stop::Stop;
use crate::texts::{Format, copy_of};
use sd_aiger::{AigerFault, read_aiger};
use sd_base::Name;
use sd_circuit::Circuit;
use sd_file::{SddFault, SddFile, read_sdd};
use sd_formula::{Formula, FormulaError, Kind, read_dimacs};
use sd_script::{Script, ScriptFault, read_script};
use sd_vfile::{Ids, VtreeFault, count_variables, read_ids, read_vtree};
use sd_vtree::Vtree;
use std::alloc::Global;

/// Formulas of a kind.
#[derive(Clone, Copy)]
pub struct FormulaText {
    /// Whether the groups are clauses or terms.
    pub kind: Kind,
}

impl Format for FormulaText {
    type Value = Formula;

    ghost Seen = { Groups };

    ghost seen = { λ formula. formula };

    ghost reading = { λ format bytes. dimacs format.kind bytes };

    ghost status = { λ _. 2 };

    ghost suits = { λ _. Unit {0} };

    ghost holds = { λ _ _. Unit {0} };

    fn parse(&self, alloc: Global, file: &str, bytes: &[u8]) -> Result<Formula, Stop> {
        match read_dimacs(alloc, bytes, self.kind) {
            Ok(formula) => Ok(formula),
            Err(FormulaError::OutOfMemory) => Err(Stop::OutOfMemory),
            Err(fault) => Err(Stop::Refused(Refusal::BadFormula(copy_of(alloc, file)?, fault))),
        }
    }

    fn too_long(&self, file: Name) -> Refusal {
        Refusal::TooLong(file)
    }
}

/// Circuits in the ASCII format of AIGER.
#[derive(Clone, Copy)]
pub struct CircuitText;

impl Format for CircuitText {
    type Value = Circuit;

    ghost Seen = { CircuitText };

    ghost seen = { λ circuit. circuit.text };

    ghost reading = { λ _ bytes. aiger bytes };

    ghost status = { λ _. 2 };

    ghost suits = { λ _. Unit {0} };

    ghost holds = { λ _ circuit. HasBothKinds circuit.text };

    fn parse(&self, alloc: Global, file: &str, bytes: &[u8]) -> Result<Circuit, Stop> {
        match read_aiger(alloc, bytes) {
            Ok(circuit) => Ok(circuit),
            Err(AigerFault::OutOfMemory) => Err(Stop::OutOfMemory),
            Err(fault) => Err(Stop::Refused(Refusal::BadCircuit(copy_of(alloc, file)?, fault))),
        }
    }

    fn too_long(&self, file: Name) -> Refusal {
        Refusal::TooLong(file)
    }
}

/// Vtrees over the variables from 1 on.
#[derive(Clone, Copy)]
pub struct VtreeText {
    /// How many there are, 1 to 1,024.
    pub variables: u32,
}

impl Format for VtreeText {
    type Value = Vtree;

    ghost Seen = { Tree };

    ghost seen = { plain_tree };

    ghost reading = { λ format bytes. vtree_file format.variables bytes };

    ghost status = { λ _. 2 };

    ghost suits = { λ format. AreVariables format.variables };

    ghost holds = { λ format vtree. leaves (plain_tree vtree) ≡ format.variables };

    fn parse(&self, alloc: Global, file: &str, bytes: &[u8]) -> Result<Vtree, Stop> {
        match read_vtree(alloc, bytes, self.variables) {
            Ok(vtree) => Ok(vtree),
            Err(VtreeFault::OutOfMemory) => Err(Stop::OutOfMemory),
            Err(fault) => Err(Stop::Refused(Refusal::BadVtree(copy_of(alloc, file)?, fault))),
        }
    }

    fn too_long(&self, file: Name) -> Refusal {
        Refusal::TooLong(file)
    }
}

/// Scripts over the variables from 1 on, for a circuit with so many outputs.
#[derive(Clone, Copy)]
pub struct ScriptText {
    /// How many there are, 1 to 1,024.
    pub variables: u32,
    /// How many there are, or 0 for a formula.
    pub outputs: u32,
}

impl Format for ScriptText {
    type Value = Script;

    ghost Seen = { SeenScript };

    ghost seen = { λ script. script };

    ghost reading = { λ format bytes. script_of format.variables format.outputs bytes };

    ghost status = { λ _. 3 };

    ghost suits = { λ format. AreVariables format.variables };

    ghost holds = { λ format script. IsScript format.variables format.outputs script
        × (length script.commands ≤ 100000) };

    fn parse(&self, alloc: Global, file: &str, bytes: &[u8]) -> Result<Script, Stop> {
        match read_script(alloc, bytes, self.variables, self.outputs) {
            Ok(script) => Ok(script),
            Err(ScriptFault::OutOfMemory) => Err(Stop::OutOfMemory),
            Err(fault) => Err(Stop::Refused(Refusal::BadScript(copy_of(alloc, file)?, fault))),
        }
    }

    fn too_long(&self, file: Name) -> Refusal {
        Refusal::LongScript(file)
    }
}

/// Diagrams over the variables from 1 on.
#[derive(Clone, Copy)]
pub struct SddText {
    /// How many there are, 1 to 1,024.
    pub variables: u32,
}

impl Format for SddText {
    type Value = SddFile;

    ghost Seen = { SeenFile };

    ghost seen = { λ read. read };

    ghost reading = { λ format bytes. sdd_file format.variables bytes };

    ghost status = { λ _. 2 };

    ghost suits = { λ format. AreVariables format.variables };

    ghost holds = { λ format read. read.variables ≡ format.variables };

    fn parse(&self, alloc: Global, file: &str, bytes: &[u8]) -> Result<SddFile, Stop> {
        match read_sdd(alloc, bytes, self.variables) {
            Ok(read) => Ok(read),
            Err(SddFault::OutOfMemory) => Err(Stop::OutOfMemory),
            Err(fault) => Err(Stop::Refused(Refusal::BadSdd(copy_of(alloc, file)?, fault))),
        }
    }

    fn too_long(&self, file: Name) -> Refusal {
        Refusal::TooLong(file)
    }
}

/// Vtrees over as many variables as their texts state, with the ids of the text.
#[derive(Clone, Copy)]
pub struct VtreeWithIdsText;

/// A vtree, and the positions of the ids of its file.
#[derive(Drop)]
pub struct VtreeWithIds {
    /// The vtree.
    pub vtree: Vtree,
    /// At each id of the file its position.
    pub ids: Ids,
}

impl Format for VtreeWithIdsText {
    type Value = VtreeWithIds;

    ghost Seen = { CheckedVtree };

    ghost seen = { checked_of };

    ghost reading = { λ _ bytes. checked_vtree bytes };

    ghost status = { λ _. 2 };

    ghost suits = { λ _. Unit {0} };

    ghost holds = { λ _ read. AreVariables (leaves (plain_tree read.vtree)) };

    fn parse(&self, alloc: Global, file: &str, bytes: &[u8]) -> Result<VtreeWithIds, Stop> {
        match read_vtree_with_ids(alloc, bytes) {
            Ok(read) => Ok(read),
            Err(VtreeFault::OutOfMemory) => Err(Stop::OutOfMemory),
            Err(fault) => Err(Stop::Refused(Refusal::BadVtree(copy_of(alloc, file)?, fault))),
        }
    }

    fn too_long(&self, file: Name) -> Refusal {
        Refusal::TooLong(file)
    }
}

// The vtree of a text and its ids, or the first fault.
fn read_vtree_with_ids(alloc: Global, bytes: &[u8]) -> Result<VtreeWithIds, VtreeFault>
    requires { length bytes.now ≤ 67108864 }
    ensures ok { IfOk result (λ read. checked_vtree bytes.now ≡ Ok (checked_of read)) }
    ensures range { IfOk result (λ read. AreVariables (leaves (plain_tree read.vtree))) }
    ensures fault { IfErr result (λ e. Fails e (checked_vtree bytes.now)) }
{
    let variables = count_variables(bytes)?;
    let vtree = read_vtree(alloc, bytes, variables)?;
    let ids = read_ids(alloc, bytes, variables)?;
    Ok(VtreeWithIds { vtree, ids })
}
