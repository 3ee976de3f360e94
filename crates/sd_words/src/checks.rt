//! The tests that give no value, in the order in which they are made.
ghost use Rattle.std.specs.Option.{option_or};
ghost use Rattle.sd_words.specs.Command.{parsed_of};
ghost use Rattle.sd_words.specs.Reading.{RefusesBy, RefusesOrRunsOut};
ghost use Rattle.sd_words.specs.JobOf.{first_some};
ghost use Rattle.sd_words.specs.Rows.{empty_name, file_twice, no_input, no_vtree, rows_beside, two_inputs};
ghost use Rattle.sd_words.specs.Rows.{two_vtrees, with_aag, with_check, with_parts, with_portfolio, with_script};
ghost use Rattle.sd_words.specs.Rows.{workers_alone};

use crate::faults::WordsFault;
use crate::options::{
    FILES, INPUTS, OptionName, REFUSED_BY_AAG, REFUSED_BY_CHECK, REFUSED_BY_PARTS,
    REFUSED_BY_PORTFOLIO, REPLACED_BY_SCRIPT,
};
use crate::parsed_options::{count_present, first_beside, first_empty, is_present, value};
use clap::ArgMatches;
use sd_base::Name;
use std::alloc::Global;

/// Checks that exactly one input is there.
#[tactic(auto, unfolding(crate::specs::Rows::no_input, crate::specs::Rows::two_inputs))]
pub(crate) fn check_inputs(options: &ArgMatches<'_>) -> Result<(), WordsFault>
    ensures { let parsed = parsed_of options.now in
        RefusesBy (option_or (no_input parsed) (two_inputs parsed)) result }
{
    match count_present(options, INPUTS.as_slice()) {
        0 => Err(WordsFault::NoInput),
        1 => Ok(()),
        _ => Err(WordsFault::TwoInputs),
    }
}

/// Checks that `--vtree` and `--start` are not both there.
#[tactic(auto, unfolding(crate::specs::Rows::two_vtrees))]
pub(crate) fn check_vtrees(options: &ArgMatches<'_>) -> Result<(), WordsFault>
    ensures { RefusesBy (two_vtrees (parsed_of options.now)) result }
{
    if is_present(options, OptionName::Vtree) && is_present(options, OptionName::Start) {
        Err(WordsFault::TwoVtrees)
    } else {
        Ok(())
    }
}

/// Checks that a script is not there with what it stands in place of.
#[tactic(auto, unfolding(crate::specs::Rows::with_script))]
pub(crate) fn check_script(options: &ArgMatches<'_>) -> Result<(), WordsFault>
    ensures { RefusesBy (with_script (parsed_of options.now)) result }
{
    match first_beside(options, OptionName::Script, REPLACED_BY_SCRIPT.as_slice()) {
        Some(option) => Err(WordsFault::WithScript { option }),
        None => Ok(()),
    }
}

/// Checks that the two output files are two. The memory is for the name in the fault.
#[tactic(auto, unfolding(crate::specs::Rows::file_twice))]
pub(crate) fn check_outputs(alloc: Global, options: &ArgMatches<'_>) -> Result<(), WordsFault>
    ensures { RefusesOrRunsOut (file_twice (parsed_of options.now)) result }
{
    match (
        value(options, OptionName::OutVtree),
        value(options, OptionName::OutSdd),
    ) {
        (Some(vtree), Some(sdd)) if vtree == sdd => Err(WordsFault::FileTwice {
            name: Name::copy_of(alloc, vtree)?,
        }),
        _ => Ok(()),
    }
}

/// Checks that no file has an empty name.
#[tactic(auto, unfolding(crate::specs::Rows::empty_name))]
pub(crate) fn check_names(options: &ArgMatches<'_>) -> Result<(), WordsFault>
    ensures { RefusesBy (empty_name (parsed_of options.now)) result }
{
    match first_empty(options, FILES.as_slice()) {
        Some(option) => Err(WordsFault::EmptyName { option }),
        None => Ok(()),
    }
}

/// Checks that no option is there beside one that refuses it, or without one that it needs.
pub(crate) fn check_beside(options: &ArgMatches<'_>) -> Result<(), WordsFault>
    ensures { RefusesBy (first_some (rows_beside (parsed_of options.now))) result }
{
    check_workers(options)?;
    check_parts(options)?;
    check_portfolio(options)?;
    check_circuit(options)?;
    check_checked(options)?;
    check_checked_vtree(options)
}

// Workers have parts or starts to do.
#[tactic(auto, unfolding(crate::specs::Rows::workers_alone))]
fn check_workers(options: &ArgMatches<'_>) -> Result<(), WordsFault>
    ensures { RefusesBy (workers_alone (parsed_of options.now)) result }
{
    let has_work = is_present(options, OptionName::Parts)
        || is_present(options, OptionName::Portfolio);
    if is_present(options, OptionName::Workers) && !has_work {
        Err(WordsFault::WorkersAlone)
    } else {
        Ok(())
    }
}

#[tactic(auto, unfolding(crate::specs::Rows::with_parts))]
fn check_parts(options: &ArgMatches<'_>) -> Result<(), WordsFault>
    ensures { RefusesBy (with_parts (parsed_of options.now)) result }
{
    match first_beside(options, OptionName::Parts, REFUSED_BY_PARTS.as_slice()) {
        Some(option) => Err(WordsFault::WithParts { option }),
        None => Ok(()),
    }
}

#[tactic(auto, unfolding(crate::specs::Rows::with_portfolio))]
fn check_portfolio(options: &ArgMatches<'_>) -> Result<(), WordsFault>
    ensures { RefusesBy (with_portfolio (parsed_of options.now)) result }
{
    match first_beside(
        options,
        OptionName::Portfolio,
        REFUSED_BY_PORTFOLIO.as_slice(),
    ) {
        Some(option) => Err(WordsFault::WithPortfolio { option }),
        None => Ok(()),
    }
}

#[tactic(auto, unfolding(crate::specs::Rows::with_aag))]
fn check_circuit(options: &ArgMatches<'_>) -> Result<(), WordsFault>
    ensures { RefusesBy (with_aag (parsed_of options.now)) result }
{
    match first_beside(options, OptionName::Aag, REFUSED_BY_AAG.as_slice()) {
        Some(option) => Err(WordsFault::WithAag { option }),
        None => Ok(()),
    }
}

#[tactic(auto, unfolding(crate::specs::Rows::with_check))]
fn check_checked(options: &ArgMatches<'_>) -> Result<(), WordsFault>
    ensures { RefusesBy (with_check (parsed_of options.now)) result }
{
    match first_beside(options, OptionName::Check, REFUSED_BY_CHECK.as_slice()) {
        Some(option) => Err(WordsFault::WithCheck { option }),
        None => Ok(()),
    }
}

// A diagram is checked over the vtree of a file.
#[tactic(auto, unfolding(crate::specs::Rows::no_vtree))]
fn check_checked_vtree(options: &ArgMatches<'_>) -> Result<(), WordsFault>
    ensures { RefusesBy (no_vtree (parsed_of options.now)) result }
{
    if is_present(options, OptionName::Check) && !is_present(options, OptionName::Vtree) {
        Err(WordsFault::NoVtree)
    } else {
        Ok(())
    }
}
