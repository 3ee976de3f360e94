//! Formulas that a linear congruential generator gives.

ghost use Rattle.std.specs.Prelude.{◌≡◌, ◌≢◌, ◌↔◌, ◌<◌, ◌≤◌, ◌+◌, ◌*◌, ◌^◌, [], ◌∷◌, ◌++◌, length, false};
ghost use Rattle.std.specs.Prelude.{IfOk, IfErr, ◌-◌};
ghost use Rattle.sd_formula.specs.Dimacs.{is_zero};
ghost use Rattle.sd_formula.specs.Generated.{IsGenerable, next_state, state_at};
ghost use Rattle.sd_formula.specs.Generated.{literal_by, generated_formula};
ghost use Rattle.sd_formula.specs.Steps.{generated_clauses};
ghost use Rattle.sd_formula.specs.Steps.{body_view, no_group, extended, ended};

use crate::formula::{Formula, Kind};
use crate::parts::Body;
use std::alloc::{AllocError, Global};
use thiserror::Error;

/// Why no formula is generated.
#[derive(Clone, Copy, Debug, PartialEq, Eq, Error)]
pub enum GenerateError {
    /// The number of variables is not 3 to 1,024, or the seed is not below 2^32.
    #[error("BadNumber")]
    BadNumber,
    /// Out of memory, whatever the numbers.
    #[error("OutOfMemory")]
    OutOfMemory,
}

impl From<AllocError> for GenerateError {
    ghost use Rattle.sd_formula.specs.declared.generated.GenerateError.TheVariants.{OutOfMemory};

    ghost from_gives = { λ _ e. e ≡ OutOfMemory };

    fn from(_e: AllocError) -> GenerateError {
        GenerateError::OutOfMemory
    }
}

/// The generated CNF over `count` variables, 3 to 1,024, from a seed of 32 bits: for each variable but the last two a
/// clause of it and the two after it. The signs come from the generator of Numerical Recipes: a literal is positive
/// where the state is in the lower half.
#[tactic(auto, using(crate::proofs::GeneratedLaws::generated_are))]
pub fn generate(alloc: Global, count: u64, seed: u64) -> Result<Formula, GenerateError>
    ensures ok { IfOk result (λ f. IsGenerable count seed × (f ≡ generated_formula count seed)) }
    ensures err { IfErr result (λ e. (e ≡ GenerateError.BadNumber) ↔ ¬ IsGenerable count seed) }
{
    if count < 3 || count > 1024 || seed > u64::from(u32::MAX) {
        return Err(GenerateError::BadNumber);
    }
    let body = generated_body(alloc, count as u32, seed as u32)?;
    Ok(Formula {
        kind: Kind::Cnf,
        variables: count as u32,
        literals: body.literals,
        ends: body.ends,
    })
}

/// The clauses of the generated formula.
fn generated_body(alloc: Global, count: u32, seed: u32) -> Result<Body, AllocError>
    requires { IsGenerable count seed }
    ensures { IfOk result (λ body. body_view body
        ≡ record { closed = generated_clauses seed (count - 2); open_part = no_group }) }
{
    let mut body = Body::new(alloc);
    let mut state = seed;
    for index in 0..count - 2 {
        state = put_clause(&mut body, state, index + 1)?;
    }
    Ok(body)
}

/// Puts the clause that begins at a variable, and answers the state after it.
fn put_clause(body: &mut Body, state: u32, variable: u32) -> Result<u32, AllocError>
    requires variable { (1 ≤ variable) × (variable ≤ 1022) }
    requires room { length body.old.literals.items < 4096 }
    ensures state { IfOk result (λ s. s ≡ state_at state 3) }
    ensures ok { IfOk result (λ _. body_view body.new
        ≡ ended (extended (extended (extended (body_view body.old)
        (literal_by (state_at state 1) variable))
        (literal_by (state_at state 2) (variable + 1)))
        (literal_by (state_at state 3) (variable + 2)))) }
    ensures grown { length body.new.literals.items ≤ length body.old.literals.items + 4 }
{
    let first = next(state);
    body.put(literal(first, variable))?;
    let second = next(first);
    body.put(literal(second, variable + 1))?;
    let third = next(second);
    body.put(literal(third, variable + 2))?;
    body.put(0)?;
    Ok(third)
}

/// The state after another one.
fn next(state: u32) -> u32
    ensures { result ≡ next_state state }
{
    state.wrapping_mul(1_664_525).wrapping_add(1_013_904_223)
}

/// The literal of a variable by a state.
fn literal(state: u32, variable: u32) -> i32
    requires range { (1 ≤ variable) × (variable ≤ 1024) }
    ensures literal { result ≡ literal_by state variable }
    ensures not_zero { is_zero result ≡ false }
{
    let positive = variable as i32;
    if state < 2_147_483_648 {
        positive
    } else {
        -positive
    }
}
