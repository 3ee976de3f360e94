//! Laws of the definitions: functions whose contracts state a fact, and that do nothing.

ghost use Rattle.std.specs.Prelude.{◌≡◌};
ghost use Rattle.sd_aiger.specs.Reads.{aiger_fault_text};
ghost use Rattle.sd_aiger.specs.declared.fault.AigerFault.{AigerFault};

/// No two faults have one text, whatever their numbers. OutOfMemory, which is no fault of the
/// text, has the empty text.
pub fn one_fault()
    ensures { (e f : AigerFault) → aiger_fault_text e ≡ aiger_fault_text f → e ≡ f }
{}
