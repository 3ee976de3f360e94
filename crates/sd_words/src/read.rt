//! The job that the words stand for.
ghost use Rattle.std.specs.Prelude.{◌≡◌, IfOk, List, None, codes, is_some, map, string_bytes, true};
ghost use Rattle.std.specs.List.{list_any};
ghost use Rattle.sd_words.specs.Command.{parsed_of};
ghost use Rattle.sd_words.specs.ParsedOptions.{has_option};
ghost use Rattle.sd_words.specs.JobOf.{Answers, input_by, job_from, job_of_parsed, job_of, tree_word_of};
ghost use Rattle.sd_words.specs.Options.{inputs, word_of};
ghost use Rattle.sd_words.specs.Ordinary.{Setting, Spells, setting_of};
ghost use Rattle.sd_words.specs.Reading.{HasNumbers};

use crate::checks::{
    check_beside, check_inputs, check_names, check_outputs, check_script, check_vtrees,
};
use crate::command::{hand, parse};
use crate::faults::WordsFault;
use crate::jobs::{InputWord, Job, TreeWord};
use crate::options::{DEFAULT_LIMIT, DEFAULT_SLACK, DEFAULT_WORKERS, OptionName};
use crate::parsed_options::{is_present, value};
use crate::values::{Numbers, read_numbers, read_start};
use clap::ArgMatches;
use sd_base::Name;
use std::alloc::{AllocError, Global};

/// The job that the words after the program's name stand for; `words` are without that name.
/// Ordinary words are `--WORD=VALUE`, and `--WORD VALUE` where the value begins with no hyphen, and of a flag `--WORD`,
/// each option at most once.
///
/// An error is the first variant of `WordsFault` that holds, or `OutOfMemory`.
pub fn read_words(alloc: Global, words: &[String]) -> Result<Job, WordsFault>
    // `clap` says which words are accepted and what the options' values are.
    ensures answer { Answers (job_of (map string_bytes words.now)) result }

    // Words of the ordinary forms are accepted, and each option has the value beside it.
    ensures ordinary { (settings : List Setting) → Spells settings (map string_bytes words.now)
        → Answers (job_from (setting_of settings)) result }
{
    let handed = hand(alloc, words)?;
    let options = parse(alloc, handed.as_slice())?;
    read_options(alloc, &options)
}

// The job of the options that `clap` found, or the first refusal.
fn read_options(alloc: Global, options: &ArgMatches<'_>) -> Result<Job, WordsFault>
    ensures { Answers (job_from (parsed_of options.now)) result }
{
    check_inputs(options)?;
    check_vtrees(options)?;
    let numbers = read_numbers(options)?;
    check_script(options)?;
    check_outputs(alloc, options)?;
    let start = read_start(options)?;
    check_names(options)?;
    check_beside(options)?;
    Ok(job(alloc, options, numbers, start)?)
}

// The job of options that nothing refuses.
#[tactic(auto, unfolding(crate::specs::JobOf::job_of_parsed))]
fn job(
    alloc: Global,
    options: &ArgMatches<'_>,
    numbers: Numbers,
    start: TreeWord,
) -> Result<Job, AllocError>
    requires input { list_any (has_option (parsed_of options.now)) inputs ≡ true }
    requires generated { is_some numbers.generated
        ≡ has_option (parsed_of options.now) (codes "generate") }
    requires numbers { HasNumbers (parsed_of options.now) numbers }
    requires start { start ≡ tree_word_of None (parsed_of options.now (codes "start")) }
    ensures { IfOk result (λ j. j ≡ job_of_parsed (parsed_of options.now)) }
{
    Ok(Job {
        input: input_word(alloc, options, numbers.generated)?,
        tree: tree_word(alloc, options, start)?,
        script: file(alloc, options, OptionName::Script)?,
        out_vtree: file(alloc, options, OptionName::OutVtree)?,
        out_sdd: file(alloc, options, OptionName::OutSdd)?,
        minimise: numbers.minimise,
        every: numbers.every,
        slack: numbers.slack.unwrap_or(DEFAULT_SLACK),
        limit: numbers.limit.unwrap_or(DEFAULT_LIMIT),
        parts: numbers.parts,
        workers: numbers.workers.unwrap_or(DEFAULT_WORKERS),
        portfolio: is_present(options, OptionName::Portfolio),
    })
}

fn file(
    alloc: Global,
    options: &ArgMatches<'_>,
    option: OptionName,
) -> Result<Option<Name>, AllocError>
    ensures { IfOk result (λ name. name ≡ parsed_of options.now (word_of option)) }
{
    match value(options, option) {
        Some(text) => Ok(Some(Name::copy_of(alloc, text)?)),
        None => Ok(None),
    }
}

fn input_word(
    alloc: Global,
    options: &ArgMatches<'_>,
    generated: Option<(u32, u32)>,
) -> Result<InputWord, AllocError>
    requires input { list_any (has_option (parsed_of options.now)) inputs ≡ true }
    requires generated { is_some generated
        ≡ has_option (parsed_of options.now) (codes "generate") }
    ensures { IfOk result (λ w. w ≡ input_by (parsed_of options.now) generated) }
{
    if let Some(text) = value(options, OptionName::Cnf) {
        return Ok(InputWord::Cnf(Name::copy_of(alloc, text)?));
    }
    if let Some(text) = value(options, OptionName::Dnf) {
        return Ok(InputWord::Dnf(Name::copy_of(alloc, text)?));
    }
    if let Some(text) = value(options, OptionName::Aag) {
        return Ok(InputWord::Aag(Name::copy_of(alloc, text)?));
    }
    if let Some(text) = value(options, OptionName::Check) {
        return Ok(InputWord::Check(Name::copy_of(alloc, text)?));
    }
    let (count, seed) = generated.unwrap();
    Ok(InputWord::Generate {
        count: u64::from(count),
        seed: u64::from(seed),
    })
}

fn tree_word(
    alloc: Global,
    options: &ArgMatches<'_>,
    start: TreeWord,
) -> Result<TreeWord, AllocError>
    requires { start ≡ tree_word_of None (parsed_of options.now (codes "start")) }
    ensures { let parsed = parsed_of options.now in
        IfOk result (λ t. t ≡ tree_word_of (parsed (codes "vtree")) (parsed (codes "start"))) }
{
    match value(options, OptionName::Vtree) {
        Some(text) => Ok(TreeWord::File(Name::copy_of(alloc, text)?)),
        None => Ok(start),
    }
}
