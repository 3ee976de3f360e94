// And-lines.
use std::marker::Model;

/// An and-line of a circuit's text: what it defines is the conjunction of two literals.
#[derive(Clone, Copy, Debug, PartialEq, Eq)]
pub struct And {
    /// The literal of the variable that the line defines.
    pub defined: u32,
    /// The first right side.
    pub first: u32,
    /// The second right side.
    pub second: u32,
}

impl Model for And {
    ghost use Rattle.sd_model.specs.Circuit.{AndLine};

    ghost Value = { AndLine };

    ghost view = { λ a. record { defined = a.defined; first = a.first; second = a.second } };

    ghost inverse = { λ a. record { defined = a.defined; first = a.first; second = a.second } };
}
