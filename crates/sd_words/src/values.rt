//! The values of the options that are more than names.
ghost use Rattle.std.specs.Prelude.{◌≡◌, IfErr, IfOk, None, OnOk, codes, false, true};
ghost use Rattle.sd_words.specs.Command.{parsed_of};
ghost use Rattle.sd_words.specs.ParsedOptions.{fails, generated, option_number, start_of};
ghost use Rattle.sd_words.specs.JobOf.{tree_word_of};
ghost use Rattle.sd_words.specs.Numbers.{count_and_seed, number_of_text};
ghost use Rattle.sd_words.specs.Options.{word_of};
ghost use Rattle.sd_words.specs.Reading.{HasNumbers, RefusesBy};
ghost use Rattle.sd_words.specs.Rows.{number_range, start_unknown};

use crate::faults::WordsFault;
use crate::jobs::TreeWord;
use crate::numbers::{count_and_seed, number_of};
use crate::options::OptionName;
use crate::parsed_options::value;
use clap::ArgMatches;

/// The numbers that the options have; `None` where an option is not there.
#[derive(Clone, Copy)]
pub(crate) struct Numbers {
    /// The number of variables and the seed.
    pub(crate) generated: Option<(u32, u32)>,
    pub(crate) minimise: Option<u32>,
    pub(crate) every: Option<u32>,
    pub(crate) slack: Option<u32>,
    pub(crate) limit: Option<u32>,
    pub(crate) parts: Option<u32>,
    pub(crate) workers: Option<u32>,
}

/// The numbers that are there, each of which has to be in its range.
#[tactic(auto, unfolding(crate::specs::Rows::number_range))]
pub(crate) fn read_numbers(options: &ArgMatches<'_>) -> Result<Numbers, WordsFault>
    ensures range { RefusesBy (number_range (parsed_of options.now)) result }
    ensures readable { OnOk result
        (fails count_and_seed (parsed_of options.now (codes "generate")) ≡ false) }
    ensures numbers { IfOk result (HasNumbers (parsed_of options.now)) }
{
    Ok(Numbers {
        generated: generated(options)?,
        minimise: number(options, OptionName::Minimise)?,
        every: number(options, OptionName::Every)?,
        slack: number(options, OptionName::Slack)?,
        limit: number(options, OptionName::Limit)?,
        parts: number(options, OptionName::Parts)?,
        workers: number(options, OptionName::Workers)?,
    })
}

/// The shape that `--start` names, or the balanced one. Three words are known.
#[tactic(auto, unfolding(crate::specs::Rows::start_unknown))]
pub(crate) fn read_start(options: &ArgMatches<'_>) -> Result<TreeWord, WordsFault>
    ensures unknown { RefusesBy (start_unknown (parsed_of options.now)) result }
    ensures start { IfOk result (λ t. t
        ≡ tree_word_of None (parsed_of options.now (codes "start"))) }
{
    match value(options, OptionName::Start) {
        None => Ok(TreeWord::Balanced),
        Some(text) => start_of(text).ok_or(WordsFault::StartUnknown),
    }
}

fn generated(options: &ArgMatches<'_>) -> Result<Option<(u32, u32)>, WordsFault>
    ensures reads { let parsed = parsed_of options.now in
        IfOk result (λ g. (fails count_and_seed (parsed (codes "generate")) ≡ false)
        × (g ≡ generated parsed)) }
    ensures bad { IfErr result (λ fault. (fault ≡ WordsFault.NumberRange OptionName.Generate)
        × (fails count_and_seed (parsed_of options.now (codes "generate")) ≡ true)) }
{
    match value(options, OptionName::Generate) {
        None => Ok(None),
        Some(text) => match count_and_seed(text) {
            Some(numbers) => Ok(Some(numbers)),
            None => Err(WordsFault::NumberRange {
                option: OptionName::Generate,
            }),
        },
    }
}

fn number(options: &ArgMatches<'_>, option: OptionName) -> Result<Option<u32>, WordsFault>
    ensures reads { let parsed = parsed_of options.now in
        IfOk result (λ n. (fails (number_of_text (word_of option)) (parsed (word_of option)) ≡ false)
        × (n ≡ option_number parsed (word_of option))) }
    ensures bad { IfErr result (λ fault. (fault ≡ WordsFault.NumberRange option)
        × (fails (number_of_text (word_of option)) (parsed_of options.now (word_of option)) ≡ true)) }
{
    match value(options, option) {
        None => Ok(None),
        Some(text) => match number_of(option, text) {
            Some(number) => Ok(Some(number)),
            None => Err(WordsFault::NumberRange { option }),
        },
    }
}

fn start_of(text: &str) -> Option<TreeWord>
    ensures { result ≡ start_of text.now }
{
    match text {
        "balanced" => Some(TreeWord::Balanced),
        "right" => Some(TreeWord::Right),
        "left" => Some(TreeWord::Left),
        _ => None,
    }
}
