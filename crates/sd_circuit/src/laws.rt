// Laws on the definitions.
ghost use Rattle.sd_circuit.specs.Order.{OrderedHasNoCycle, StepsAreEnough, ClosedDefinesOnce};

/// Where and-lines have an order in which each stands behind all that it uses, none leads to itself.
pub fn ordered_has_no_cycle()
    ensures { OrderedHasNoCycle }
{}

/// An and-line that leads to itself in any number of steps does so in as many as there are and-lines.
pub fn steps_are_enough()
    ensures { StepsAreEnough }
{}

/// The and-lines of a closed circuit have literals of its variables, and no two define one variable.
pub fn closed_defines_once()
    ensures { ClosedDefinesOnce }
{}
