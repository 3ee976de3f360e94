//! Numbers as values on the command line: one to ten digits and nothing else.
ghost use Rattle.std.specs.Prelude.{◌≡◌};
ghost use Rattle.std.specs.Char.{is_ascii_digit};
ghost use Rattle.std.specs.List.{list_all};
ghost use Rattle.sd_base.specs.Numbers.{natural_to};
ghost use Rattle.sd_words.specs.Numbers.{count_and_seed, is_number};
ghost use Rattle.sd_words.specs.Numbers.{number_of_text, number_within};
ghost use Rattle.sd_words.specs.Options.{word_of};

use crate::options::OptionName;

const MOST_DIGITS: usize = 10;

/// The number that an option has, where the text writes one in its range.
pub(crate) fn number_of(option: OptionName, text: &str) -> Option<u32>
    ensures { result ≡ number_of_text (word_of option) text.now }
{
    let (least, most) = option.range()?;
    number_within(text, least, most)
}

/// The number of variables, 3 to 1,024, and the seed of `COUNT:SEED`.
pub(crate) fn count_and_seed(text: &str) -> Option<(u32, u32)>
    ensures { result ≡ count_and_seed text.now }
{
    let (count, seed) = text.split_once(':')?;
    let count = number_within(count, 3, 1024)?;
    let seed = number_within(seed, 0, u32::MAX)?;
    Some((count, seed))
}

fn number_within(text: &str, least: u32, most: u32) -> Option<u32>
    ensures { result ≡ number_within least most text.now }
{
    let number = natural(text)?;
    if u64::from(least) <= number && number <= u64::from(most) {
        Some(number as u32)
    } else {
        None
    }
}

// The number that one to ten digits write. Ten digits may pass 32 bits.
fn natural(text: &str) -> Option<u64>
    ensures { result ≡ natural_to 10 text.now }
{
    if is_number(text) {
        text.parse::<u64>().ok()
    } else {
        None
    }
}

fn is_number(text: &str) -> bool
    ensures { result ≡ is_number text.now }
{
    !text.is_empty() && text.len() <= MOST_DIGITS && has_only_digits(text)
}

fn has_only_digits(text: &str) -> bool
    ensures { result ≡ list_all is_ascii_digit text.now }
{
    text.bytes().all(|b| b.is_ascii_digit())
}
