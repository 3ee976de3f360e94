//! The command line as a command of `clap`.
ghost use Rattle.std.specs.Prelude.{◌≡◌, ◌≢◌, ◌⊎◌, [], IfErr, IfOk, false, map, string_bytes};
ghost use Rattle.clap.specs.Words.{app_of, found_of, rows_of, rule_of};
ghost use Rattle.sd_words.specs.Command.{flag_option, handed, option_rule, rows_found, sddc};
ghost use Rattle.sd_words.specs.Command.{text_option, usage_faults};
ghost use Rattle.sd_words.specs.Options.{word_of};

use crate::faults::WordsFault;
use crate::options::{ALL_OPTIONS, OptionName};
use clap::error::ErrorKind;
use clap::{Arg, ArgAction, ArgMatches, Command};
use std::alloc::{AllocError, Global};

/// What `clap` finds in the words. Running out of memory, also while the command is built, is no `Usage`.
pub(crate) fn parse<'a, 'w>(
    alloc: Global,
    words: &'a [&'w str],
) -> Result<ArgMatches<'a>, WordsFault>
    ensures accepted { IfOk result (λ _. usage_faults (map (λ s. s.now) words.now) ≡ []) }
    ensures found { IfOk result (λ m. rows_of (found_of m)
        ≡ rows_found (map (λ s. s.now) words.now)) }
    ensures refused { IfErr result (λ fault. (fault ≡ WordsFault.OutOfMemory)
        ⊎ ((fault ≡ WordsFault.Usage) × (usage_faults (map (λ s. s.now) words.now) ≢ []))) }
{
    match command(alloc)?.try_get_matches_from(words) {
        Ok(matches) => Ok(matches),
        Err(error) => match error.kind() {
            ErrorKind::OutOfMemory => Err(WordsFault::OutOfMemory),
            _ => Err(WordsFault::Usage),
        },
    }
}

/// The words as `clap` is handed them: the program's name comes first.
pub(crate) fn hand<'w>(alloc: Global, words: &'w [String]) -> Result<Vec<&'w str>, AllocError>
    ensures { IfOk result (λ v. map (λ s. s.now) v.items ≡ handed (map string_bytes words.now)) }
{
    let mut all = Vec::new(alloc);
    all.push("sddc")?;
    for word in words {
        all.push(word.as_str())?;
    }
    Ok(all)
}

// The command `sddc` with its options, and no help or version.
fn command<'a>(alloc: Global) -> Result<Command<'a>, AllocError>
    ensures { IfOk result (λ c. app_of c ≡ sddc) }
{
    let mut command = Command::new(alloc, "sddc")
        .disable_help_flag(true)
        .disable_version_flag(true);
    for option in ALL_OPTIONS.iter() {
        command = command.arg(argument(alloc, *option))?;
    }
    Ok(command)
}

fn argument<'a>(alloc: Global, option: OptionName) -> Arg<'a>
    ensures rule { rule_of result ≡ option_rule (word_of option) }
    ensures local { result.global ≡ false }
{
    let word: &'a str = option.word();
    if option.is_flag() {
        flag_arg(alloc, word)
    } else {
        text_arg(alloc, word)
    }
}

// An option that takes one text value, at most once.
fn text_arg<'a>(alloc: Global, word: &'a str) -> Arg<'a>
    ensures rule { rule_of result ≡ text_option word.entry.now }
    ensures local { result.global ≡ false }
{
    Arg::new(alloc, word).long(word).action(ArgAction::Set)
}

// An option that takes no value, at most once.
fn flag_arg<'a>(alloc: Global, word: &'a str) -> Arg<'a>
    ensures rule { rule_of result ≡ flag_option word.entry.now }
    ensures local { result.global ≡ false }
{
    Arg::new(alloc, word).long(word).action(ArgAction::SetTrue)
}
