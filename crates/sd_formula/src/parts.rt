//! The literals that were read, in groups.

ghost use Rattle.std.specs.Prelude.{◌≡◌, ◌==◌, ◌<◌, ◌≤◌, ◌+◌, ◌^◌, [], ◌∷◌, ◌++◌, not, length};
ghost use Rattle.std.specs.Prelude.{if◌then◌else◌, is_ok, OnOk, OnErr};
ghost use Rattle.sd_formula.specs.Flat.{AreEnds, AreEnds_prop};

use crate::flat::{End, start_of};
use std::alloc::{AllocError, Global};

// For how many more items a list gets room at least.
const LEAST_ROOM: usize = 16;

/// The literals that were read, without marks and zeros, where groups end, and whether the group in hand is exclusive.
#[derive(Drop)]
pub(crate) struct Body {
    pub(crate) literals: Vec<i32>,
    /// For each zero how many literals stood before it, and whether its group had the mark.
    pub(crate) ends: Vec<End>,
    /// Whether a mark stands after the last zero.
    pub(crate) exclusive: bool,
    ghost rise: { AreEnds 0 ends.items (length literals.items) } by { AreEnds_prop _ _ _ },
}

impl Body {
    ghost use Rattle.sd_formula.specs.Dimacs.{has_begun};
    ghost use Rattle.sd_formula.specs.Steps.{body_view, no_parts, ended, extended, marked, put_literal};

    /// Nothing read yet.
    pub(crate) fn new(alloc: Global) -> Self
        ensures nothing { body_view result ≡ no_parts }
        ensures no_literals { result.literals.items ≡ [] }
    {
        Body {
            literals: Vec::new(alloc),
            ends: Vec::new(alloc),
            exclusive: false,
        }
    }

    /// Ends the group in hand at a zero, or puts a literal into it.
    pub(crate) fn put(&mut self, literal: i32) -> Result<(), AllocError>
        requires { length self.old.literals.items < 2 ^ 32 }
        ensures within_limit { length self.new.literals.items ≤ length self.old.literals.items + 1 }
        ensures ok { OnOk result (body_view self.new ≡ put_literal (body_view self.old) literal) }
        ensures err { OnErr result (body_view self.new ≡ body_view self.old) }
    {
        if literal == 0 {
            self.end_group()
        } else {
            self.push(literal)
        }
    }

    /// Ends the group in hand.
    #[tactic(auto, using(crate::proofs::FlatLaws::end_is, crate::proofs::FlatLaws::ends_push))]
    fn end_group(&mut self) -> Result<(), AllocError>
        requires { length self.old.literals.items < 2 ^ 32 }
        ensures literals { self.new.literals.items ≡ self.old.literals.items }
        ensures ok { OnOk result (body_view self.new ≡ ended (body_view self.old)) }
        ensures err { OnErr result (body_view self.new ≡ body_view self.old) }
    {
        let end = End {
            index: self.literals.len() as u32,
            exclusive: self.exclusive,
        };
        put_last(&mut self.ends, end)?;
        self.exclusive = false;
        Ok(())
    }

    /// Puts a literal into the group in hand.
    #[tactic(auto, using(crate::proofs::FlatLaws::literal_is, crate::proofs::FlatLaws::ends_more))]
    fn push(&mut self, literal: i32) -> Result<(), AllocError>
        ensures within_limit { length self.new.literals.items ≤ length self.old.literals.items + 1 }
        ensures ok { OnOk result (body_view self.new ≡ extended (body_view self.old) literal) }
        ensures err { OnErr result (body_view self.new ≡ body_view self.old) }
    {
        put_last(&mut self.literals, literal)?;
        Ok(())
    }

    /// Begins an exclusive group.
    pub(crate) fn mark(&mut self)
        ensures literals { self.new.literals.items ≡ self.old.literals.items }
        ensures marked { body_view self.new ≡ marked (body_view self.old) }
    {
        self.exclusive = true;
    }

    /// Whether a mark or literals stand after the last zero.
    #[tactic(auto, using(crate::proofs::FlatLaws::open_is))]
    pub(crate) fn has_begun(&self) -> bool
        ensures { result ≡ has_begun (body_view self.now).open_part }
    {
        self.exclusive || start_of(&self.ends, self.ends.len()) != self.literals.len()
    }
}

/// Puts an item behind the others. A full list grows by a quarter, so that little room is unused.
fn put_last<T: Drop>(list: &mut Vec<T>, item: T) -> Result<(), AllocError>
    ensures { list.new.items
        ≡ (if is_ok result then list.old.items ++ item ∷ [] else list.old.items) }
{
    if list.len() == list.capacity() {
        list.reserve_exact(list.len() / 4 + LEAST_ROOM)?;
    }
    list.push(item)?;
    Ok(())
}
