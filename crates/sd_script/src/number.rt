//! The ranges of the numbers of a command.

ghost use Rattle.std.specs.Prelude.{◌≡◌, ◌≤◌, option_to_list};
ghost use Rattle.std.specs.List.{list_all};
ghost use Rattle.sd_script.specs.Scripts as texts;
ghost use Rattle.sd_script.specs.Scripts.{is_within};

use crate::command::Action;

const MAX_ROUNDS: u32 = 100;

const MAX_LIMIT: u32 = 268_435_456;

/// Whether the variable that a command names is in range, if it names one.
pub(crate) fn variable_fits(variables: u32, named: Option<u32>) -> bool
    ensures { result ≡ list_all (is_within 1 variables) (option_to_list named) }
{
    match named {
        Some(variable) => 1 <= variable && variable <= variables,
        None => true,
    }
}

/// Whether an output, a position, a number of rounds or a limit is in range.
pub(crate) fn numbers_fit(variables: u32, outputs: u32, action: &Action) -> bool
    requires at_least_one { 1 ≤ variables }
    requires within_limit { variables ≤ 1024 }
    ensures { result ≡ texts.numbers_fit variables outputs action.now }
{
    match action {
        Action::Output(_, index) => *index < outputs,
        Action::Turn(_, position) => *position <= 2 * variables - 2,
        Action::Minimise(rounds) => 1 <= *rounds && *rounds <= MAX_ROUNDS,
        Action::Limit(limit) => 1 <= *limit && *limit <= MAX_LIMIT,
        _ => true,
    }
}

/// Whether a formula is there for a command that binds it. An input with outputs is a circuit and has none.
pub(crate) fn formula_fits(outputs: u32, action: &Action) -> bool
    ensures { result ≡ texts.formula_fits outputs action.now }
{
    match action {
        Action::Input(_) => outputs == 0,
        _ => true,
    }
}
