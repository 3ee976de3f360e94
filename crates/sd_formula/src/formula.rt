//! A formula in groups.

ghost use Rattle.std.specs.Prelude.{◌≡◌, ◌<◌, ◌≤◌, true, length, slice_get, option_map, IfOk};
ghost use Rattle.std.specs.List.{list_any, list_all};
ghost use Rattle.sd_model.specs.Assignment.{literal_holds};
ghost use Rattle.sd_model.specs.Expression.{expression_value, group_holds};
ghost use Rattle.sd_formula.specs.Dimacs.{kind_word};
ghost use Rattle.sd_formula.specs.Formulas.{AreLiterals, expression_of, no_groups, groups_part};

use crate::flat::{End, ends_without, group_between, is_marked, literals_between, start_of};
use crate::literals::{all_hold, odd_hold, some_holds};
use std::alloc::{AllocError, Global};
use std::marker::Model;

/// Whether the groups are clauses, some of them exclusive groups, or terms.
#[derive(Clone, Copy, Debug, PartialEq, Eq)]
pub enum Kind {
    /// Clauses, of which each has a literal that holds, and exclusive groups, of which each has an odd number.
    Cnf,
    /// Terms: one has only literals that hold.
    Dnf,
}

impl Kind {
    /// The word that names the kind in a header.
    pub(crate) fn name(self) -> &'static [u8]
        ensures { result.now ≡ kind_word self }
    {
        match self {
            Kind::Cnf => b"cnf",
            Kind::Dnf => b"dnf",
        }
    }
}

/// Clauses and exclusive groups that hold together, or terms of which one holds. The literals are numbers of DIMACS.
#[derive(Debug, Drop)]
pub struct Formula {
    pub(crate) kind: Kind,
    /// 1 to 1,024, whether or not a group names them.
    pub(crate) variables: u32,
    /// The literals of all groups, one group after another.
    pub(crate) literals: Vec<i32>,
    /// Where each group ends, and whether it is exclusive.
    pub(crate) ends: Vec<End>,
}

impl Model for Formula {
    ghost use Rattle.std.specs.Prelude.{length};
    ghost use Rattle.sd_formula.specs.Dimacs.{Groups};
    ghost use Rattle.sd_formula.specs.Flat.{AreEnds};
    ghost use Rattle.sd_formula.specs.Formulas.{IsFormula, groups_between};

    ghost Value = { Groups };

    ghost view = { λ f. groups_between f.kind f.variables f.ends.items f.literals.items };

    ghost invariant = { λ f. AreEnds 0 f.ends.items (length f.literals.items)
        × IsFormula (groups_between f.kind f.variables f.ends.items f.literals.items) };
}

impl Formula {
    /// The formula without groups, over 1 to 1,024 variables. It takes no memory.
    pub fn empty(alloc: Global, kind: Kind, variables: u32) -> Formula
        requires at_least_one { 1 ≤ variables }
        requires within_limit { variables ≤ 1024 }
        ensures { result ≡ no_groups kind variables }
    {
        Formula {
            kind,
            variables,
            literals: Vec::new(alloc),
            ends: Vec::new(alloc),
        }
    }

    /// The formula of the groups from `from` up to but not including `to`, counted from 0, of the same kind and over
    /// the same variables. It copies these groups alone.
    pub fn part(&self, alloc: Global, from: usize, to: usize) -> Result<Formula, AllocError>
        requires order { from ≤ to }
        requires within { to ≤ length self.now.groups }
        ensures { IfOk result (λ part. part ≡ groups_part self.now from to) }
    {
        let part = literals_between(&self.literals, &self.ends, from, to);
        let mut literals = Vec::with_capacity(alloc, part.len())?;
        literals.extend_from_slice(part)?;
        let before = start_of(&self.ends, from);
        let ends = ends_without(alloc, &self.ends[from..to], before)?;
        Ok(Formula {
            kind: self.kind,
            variables: self.variables,
            literals,
            ends,
        })
    }

    /// Whether the groups are clauses or exclusive groups, or terms.
    pub fn kind(&self) -> Kind
        ensures { result ≡ self.now.kind }
    {
        self.kind
    }

    /// How many variables the formula is over, also those that no group names.
    pub fn variables(&self) -> u32
        ensures value { result ≡ self.now.variables }
        ensures range { (1 ≤ result) × (result ≤ 1024) }
    {
        self.variables
    }

    /// How many clauses, exclusive groups or terms there are.
    pub fn groups(&self) -> usize
        ensures value { result ≡ length self.now.groups }
        ensures within_limit { result ≤ 1000000 }
    {
        self.ends.len()
    }

    /// Whether a group, counted from 0, is exclusive: it demands that an odd number of its literals hold.
    pub fn is_exclusive(&self, index: usize) -> bool
        requires { index < length self.now.groups }
        ensures value { option_map (λ group. group.exclusive) (slice_get self.now.groups index)
            ≡ Some result }
        ensures of_cnf { result ≡ true → self.now.kind ≡ Kind.Cnf }
    {
        is_marked(&self.ends, index)
    }

    /// The literals of a group, counted from 0, in the order of the text, without the mark of an exclusive one.
    pub fn group(&self, index: usize) -> &[i32]
        requires { index < length self.now.groups }
        ensures value { option_map (λ group. group.literals) (slice_get self.now.groups index)
            ≡ Some result.now }
        ensures literals { AreLiterals self.now.variables result.now }
    {
        group_between(&self.literals, &self.ends, index)
    }

    /// The value under an assignment, which has a truth value for each variable: a CNF is true where every clause has
    /// a literal that holds and every exclusive group an odd number, a DNF where some term has only literals that hold.
    pub fn value(&self, assignment: &[bool]) -> bool
        requires { length assignment.now ≡ self.now.variables }
        ensures { result ≡ expression_value (expression_of self.now) assignment.now }
    {
        match self.kind {
            Kind::Cnf => self.every_group_holds(assignment),
            Kind::Dnf => self.some_term_holds(assignment),
        }
    }

    /// Whether each clause and each exclusive group holds.
    #[tactic(auto, using(crate::proofs::GroupLaws::drop_at))]
    fn every_group_holds(&self, assignment: &[bool]) -> bool
        requires { length assignment.now ≡ self.now.variables }
        ensures { result ≡ list_all (group_holds assignment.now) self.now.groups }
    {
        for index in 0..self.groups() {
            if !self.group_holds(index, assignment) {
                return false;
            }
        }
        true
    }

    /// Whether a clause has a literal that holds, or an exclusive group an odd number.
    fn group_holds(&self, index: usize, assignment: &[bool]) -> bool
        requires below { index < length self.now.groups }
        requires length { length assignment.now ≡ self.now.variables }
        ensures { option_map (group_holds assignment.now) (slice_get self.now.groups index)
            ≡ Some result }
    {
        let literals = self.group(index);
        if self.is_exclusive(index) {
            odd_hold(literals, assignment)
        } else {
            some_holds(literals, assignment)
        }
    }

    /// Whether some group has only literals that hold.
    #[tactic(auto, using(crate::proofs::GroupLaws::drop_at))]
    fn some_term_holds(&self, assignment: &[bool]) -> bool
        requires { length assignment.now ≡ self.now.variables }
        ensures { result ≡ list_any (λ term. list_all (literal_holds assignment.now) term.literals)
            self.now.groups }
    {
        for index in 0..self.groups() {
            if all_hold(self.group(index), assignment) {
                return true;
            }
        }
        false
    }
}
