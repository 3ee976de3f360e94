//! What a parse gave: the value of an option, and which of several options are there.
ghost use Rattle.std.specs.Prelude.{◌≡◌, count_by, find, option_map};
ghost use Rattle.clap.specs.Walk.{is_empty};
ghost use Rattle.sd_words.specs.Command.{if_true, parsed_of, said_of};
ghost use Rattle.sd_words.specs.Options.{word_of};
ghost use Rattle.sd_words.specs.ParsedOptions.{first_named_beside, has_named, has_that};

use crate::options::OptionName;
use clap::ArgMatches;

/// The value of an option, where it is there. That of a flag is `true`.
pub(crate) fn value<'a>(options: &ArgMatches<'a>, option: OptionName) -> Option<&'a str>
    ensures { option_map (λ s. s.now) result ≡ parsed_of options.now (word_of option) }
{
    said(option, options.get_str(option.word()))
}

// What a value that `clap` has says of its option: a flag that is not there has one too.
fn said<'a>(option: OptionName, found: Option<&'a str>) -> Option<&'a str>
    ensures { option_map (λ s. s.now) result ≡ said_of (word_of option) (option_map (λ s. s.now) found.entry) }
{
    match found {
        Some(text) if option.is_flag() => if_true(text),
        _ => found,
    }
}

fn if_true<'a>(text: &'a str) -> Option<&'a str>
    ensures { option_map (λ s. s.now) result ≡ if_true text.entry.now }
{
    if text == "true" { Some(text) } else { None }
}

pub(crate) fn is_present(options: &ArgMatches<'_>, option: OptionName) -> bool
    ensures { result ≡ has_named (parsed_of options.now) option }
{
    value(options, option).is_some()
}

/// How many of these are there.
pub(crate) fn count_present(options: &ArgMatches<'_>, among: &[OptionName]) -> usize
    ensures { result ≡ count_by (has_named (parsed_of options.now)) among.now }
{
    among
        .iter()
        .filter(|option| is_present(options, **option))
        .count()
}

/// The first of these that is there with an empty value.
pub(crate) fn first_empty(options: &ArgMatches<'_>, among: &[OptionName]) -> Option<OptionName>
    ensures { result ≡ find (has_that is_empty (parsed_of options.now)) among.now }
{
    among
        .iter()
        .copied()
        .find(|option| is_empty(options, *option))
}

/// The first of these that is there, where another is there too.
pub(crate) fn first_beside(
    options: &ArgMatches<'_>,
    option: OptionName,
    others: &[OptionName],
) -> Option<OptionName>
    ensures { result ≡ first_named_beside option others.now (parsed_of options.now) }
{
    if is_present(options, option) {
        first_present(options, others)
    } else {
        None
    }
}

fn is_empty(options: &ArgMatches<'_>, option: OptionName) -> bool
    ensures { result ≡ has_that is_empty (parsed_of options.now) option }
{
    match value(options, option) {
        Some(text) => text.is_empty(),
        None => false,
    }
}

fn first_present(options: &ArgMatches<'_>, among: &[OptionName]) -> Option<OptionName>
    ensures { result ≡ find (has_named (parsed_of options.now)) among.now }
{
    among
        .iter()
        .copied()
        .find(|option| is_present(options, *option))
}
