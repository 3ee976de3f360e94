// What the work of a part passes first. In a test, gates wait for one another: so it is seen that parts are in work at
// once, which no contract says.

/// What is called before a part is worked, with the part's number, counted from 0.
pub trait Gate {
    fn enter(&self, part: u32);
}

/// The gate that does nothing.
#[derive(Clone, Copy, Debug, Drop)]
pub struct Open;

impl Gate for Open {
    fn enter(&self, _part: u32) {}
}
