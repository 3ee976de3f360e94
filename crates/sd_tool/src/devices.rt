// What is done outside.
ghost use Rattle.std.specs.Prelude.{◌≡◌, [], ◌∷◌, OnOk, IfErr};
ghost use Rattle.sd_base.specs.Asked.{Adds};
ghost use Rattle.sd_base.specs.Shelf.{NoFile};
ghost use Rattle.sd_tool.specs.inside.Asks.{writings};
ghost use Rattle.sd_tool.specs.Effects.{after_effect};
ghost use Rattle.sd_tool.specs.inside.Course.{after_effects};
ghost use Rattle.sd_tool.specs.Ends.{Unwritable};
ghost use Rattle.sd_tool.specs.Devices.{HasReason};
ghost use Rattle.sd_tool.specs.inside.Devices.{contents, faults, NotFewer, LeavesPart};
ghost use Rattle.sd_commands.specs.Standing.{effect_of, effects_of};
ghost use Rattle.sd_tool.specs.Stops.{StandsFor, FailsAt, LeavesFinished};

use crate::stop::Stop;
use sd_base::{Shelf, Sink, write_all, write_all_to};
use sd_commands::Effect;

/// Does what a command asks for outside, if anything.
pub fn write_effect_if_any<F: Shelf, O: Sink>(
    shelf: &mut F,
    out: &mut O,
    effect: Option<Effect>,
) -> Result<(), Stop>
    requires { F.hand shelf.old ≡ NoFile }
    ensures hand { F.hand shelf.new ≡ NoFile }
    ensures ok { OnOk result (contents F.files O.written shelf.new out.new
        ≡ after_effects (effects_of effect) (contents F.files O.written shelf.old out.old)) }
    ensures stop { IfErr result (λ stop. FailsAt stop (effects_of effect)
        (contents F.files O.written shelf.old out.old)
        (contents F.files O.written shelf.new out.new)
        (faults F.read_faults F.write_faults O.faults shelf.old out.old)
        (faults F.read_faults F.write_faults O.faults shelf.new out.new)) }
    ensures fewer { NotFewer (faults F.read_faults F.write_faults O.faults shelf.old out.old)
        (faults F.read_faults F.write_faults O.faults shelf.new out.new) }
    ensures asked { Adds F.asked shelf.old shelf.new (writings (effects_of effect)) }
    ensures finished { LeavesFinished result (F.unfinished shelf.old) (F.unfinished shelf.new) }
{
    match effect {
        Some(effect) => write_effect(shelf, out, effect),
        None => Ok(()),
    }
}

// Does this outside.
fn write_effect<F: Shelf, O: Sink>(shelf: &mut F, out: &mut O, effect: Effect) -> Result<(), Stop>
    requires { F.hand shelf.old ≡ NoFile }
    ensures hand { F.hand shelf.new ≡ NoFile }
    ensures ok { OnOk result (contents F.files O.written shelf.new out.new
        ≡ after_effect (effect_of effect) (contents F.files O.written shelf.old out.old)) }
    ensures part { IfErr result (λ stop. LeavesPart (effect_of effect)
        (contents F.files O.written shelf.old out.old)
        (contents F.files O.written shelf.new out.new)) }
    ensures stop { IfErr result (λ stop. StandsFor stop (Unwritable (effect_of effect))) }
    ensures cause { IfErr result
        (λ stop. HasReason (Unwritable (effect_of effect)) (F.files shelf.old)
        (faults F.read_faults F.write_faults O.faults shelf.old out.old)
        (faults F.read_faults F.write_faults O.faults shelf.new out.new)) }
    ensures fewer { NotFewer (faults F.read_faults F.write_faults O.faults shelf.old out.old)
        (faults F.read_faults F.write_faults O.faults shelf.new out.new) }
    ensures asked { Adds F.asked shelf.old shelf.new (writings (effect_of effect ∷ [])) }
    ensures finished { LeavesFinished result (F.unfinished shelf.old) (F.unfinished shelf.new) }
{
    match effect {
        Effect::WriteFile(name, bytes) => match write_all_to(
            shelf,
            name.as_str(),
            bytes.as_slice(),
        ) {
            Ok(()) => Ok(()),
            Err(_) => Err(Stop::WriteFault(name)),
        },
        Effect::PrintLine(line) => match write_all(out, line.as_slice()) {
            Ok(()) => Ok(()),
            Err(_) => Err(Stop::OutputFault),
        },
    }
}
