//! What a command uses, binds, frees and writes, and the variable that it names.

ghost use Rattle.std.specs.Prelude.{◌≡◌, [], ◌∷◌, true};
ghost use Rattle.sd_script.specs.Footprints as texts;
ghost use Rattle.sd_script.specs.Views.{uses_view, footprint_view};

use crate::command::Action;

/// The names that a command uses.
#[derive(Clone, Copy)]
pub(crate) enum Uses<'c> {
    Nothing,
    One(u32),
    Two(u32, u32),
    All(&'c [u32]),
}

/// The footprint of a command.
#[derive(Clone, Copy)]
pub(crate) struct Footprint<'c> {
    /// They must be bound.
    pub(crate) uses: Uses<'c>,
    /// It must be free, and is bound then.
    pub(crate) binds: Option<u32>,
    /// It is free then.
    pub(crate) frees: Option<u32>,
    /// The file that is written.
    pub(crate) writes: Option<u32>,
    /// The variable of its literal, or the one to forget.
    pub(crate) variable: Option<u32>,
    /// Whether a file is read.
    pub(crate) loads: bool,
}

impl<'c> Footprint<'c> {
    // That of a command that uses these names alone.
    fn using(uses: Uses<'c>) -> Footprint<'c>
        ensures { footprint_view result ≡ record texts.none { uses = uses_view uses.entry } }
    {
        Footprint {
            uses,
            binds: None,
            frees: None,
            writes: None,
            variable: None,
            loads: false,
        }
    }

    // It binds this name too.
    fn binding(self, name: u32) -> Footprint<'c>
        ensures { footprint_view result ≡ record (footprint_view self.entry) { binds = name ∷ [] } }
    {
        Footprint {
            binds: Some(name),
            ..self
        }
    }

    // It frees this name too.
    fn freeing(self, name: u32) -> Footprint<'c>
        ensures { footprint_view result ≡ record (footprint_view self.entry) { frees = name ∷ [] } }
    {
        Footprint {
            frees: Some(name),
            ..self
        }
    }

    // It writes this file too.
    fn writing(self, file: u32) -> Footprint<'c>
        ensures { footprint_view result ≡ record (footprint_view self.entry) { writes = file ∷ [] } }
    {
        Footprint {
            writes: Some(file),
            ..self
        }
    }

    // It names this variable too.
    fn naming(self, variable: u32) -> Footprint<'c>
        ensures { footprint_view result ≡ record (footprint_view self.entry) { variables = variable ∷ [] } }
    {
        Footprint {
            variable: Some(variable),
            ..self
        }
    }

    // It reads a file too.
    fn loading(self) -> Footprint<'c>
        ensures { footprint_view result ≡ record (footprint_view self.entry) { loads = true } }
    {
        Footprint {
            loads: true,
            ..self
        }
    }
}

/// The footprint of a command.
pub(crate) fn footprint_of(action: &Action) -> Footprint<'_>
    ensures { footprint_view result ≡ texts.footprint action.now }
{
    use Uses::{All, Nothing, One, Two};
    match action {
        Action::Input(n) | Action::Output(n, _) | Action::Constant(n, _) => {
            Footprint::using(Nothing).binding(*n)
        }
        Action::Load(n, _) => Footprint::using(Nothing).binding(*n).loading(),
        Action::Lit(n, l) => Footprint::using(Nothing)
            .binding(*n)
            .naming(l.unsigned_abs()),
        Action::Binary(_, n, a, b) => Footprint::using(Two(*a, *b)).binding(*n),
        Action::Not(n, a) => Footprint::using(One(*a)).binding(*n),
        Action::Given(n, a, l) => Footprint::using(One(*a))
            .binding(*n)
            .naming(l.unsigned_abs()),
        Action::Forget(n, a, x) => Footprint::using(One(*a)).binding(*n).naming(*x),
        Action::Drop(a) => Footprint::using(One(*a)).freeing(*a),
        Action::Same(a, b) => Footprint::using(Two(*a, *b)),
        Action::Size(a) | Action::Value(a, _) => Footprint::using(One(*a)),
        Action::Write(names, file) => Footprint::using(All(names.as_slice())).writing(*file),
        Action::Vtree(file) => Footprint::using(Nothing).writing(*file),
        _ => Footprint::using(Nothing),
    }
}
