//! The forms of the words of a line.

ghost use Rattle.std.specs.Prelude.{◌≡◌, ◌==◌, map, option_map, IfOk};
ghost use Rattle.std.specs.Bool.{then_some};
ghost use Rattle.std.specs.List.{list_all};
ghost use Rattle.sd_script.specs.Forms as texts;

use sd_base::{Bits, integer, natural};
use std::alloc::{AllocError, Global};
use std::str::from_utf8;

// The length of the longest name, without its first letter.
const MAX_LATER: usize = 31;

// The length of the longest word that names a file.
const MAX_FILE: usize = 255;

/// The number of a word. One past 4,294,967,295 is that one, which is out of each range.
pub(crate) fn number_of(word: &[u8]) -> Option<u32>
    ensures { result ≡ texts.number_of word.now }
{
    Some(natural(word)?.min(u64::from(u32::MAX)) as u32)
}

/// The literal of a word that is an integer. One past the range of 32 bits is 2,147,483,647, which is out of range.
pub(crate) fn literal_of(word: &[u8]) -> Option<i32>
    ensures { result ≡ texts.literal_of word.now }
{
    Some(literal_from(integer(word)?))
}

// An integer as a literal.
fn literal_from(x: i64) -> i32
    ensures { result ≡ texts.literal_from x }
{
    if x.unsigned_abs() <= 2_147_483_647 {
        x as i32
    } else {
        i32::MAX
    }
}

/// The variable of a word that is an integer. One below 1 is 0, and one past 4,294,967,295 is that one.
pub(crate) fn variable_of(word: &[u8]) -> Option<u32>
    ensures { result ≡ texts.variable_of word.now }
{
    Some(variable_from(integer(word)?))
}

// An integer as a variable.
fn variable_from(x: i64) -> u32
    ensures { result ≡ texts.variable_from x }
{
    if 1 <= x {
        x.unsigned_abs().min(u64::from(u32::MAX)) as u32
    } else {
        0
    }
}

/// The text of a word that is a name: a letter or `_`, and at most 31 letters, digits or `_`.
#[tactic(auto, using(crate::proofs::Ascii::names_are_text))]
pub(crate) fn name_of(word: &[u8]) -> Option<&str>
    ensures { option_map (λ text. text.now) result ≡ then_some (texts.is_name word.now) word.now }
{
    if is_name(word) {
        from_utf8(word).ok()
    } else {
        None
    }
}

/// The text of a word that names a file: at most 255 bytes, each of 33 to 126.
#[tactic(auto, using(crate::proofs::Ascii::files_are_text))]
pub(crate) fn file_of(word: &[u8]) -> Option<&str>
    ensures { option_map (λ text. text.now) result ≡ then_some (texts.is_file_name word.now) word.now }
{
    if word.len() <= MAX_FILE && is_printable(word) {
        from_utf8(word).ok()
    } else {
        None
    }
}

/// The truth values of a word with a digit 0 or 1 for each variable.
pub(crate) fn bits_of(
    alloc: Global,
    variables: u32,
    word: &[u8],
) -> Result<Option<Bits>, AllocError>
    ensures { IfOk result (λ bits. bits ≡ texts.bits_of variables word.now) }
{
    if word.len() == variables as usize && all_bits(word) {
        Ok(Some(Bits::new(values_from(alloc, word)?)))
    } else {
        Ok(None)
    }
}

// For each digit whether it is 1.
fn values_from(alloc: Global, digits: &[u8]) -> Result<Vec<bool>, AllocError>
    ensures { IfOk result (λ values. values.items ≡ map (λ b. b == 49) digits.now) }
{
    digits.iter().map(|digit| *digit == b'1').collect(alloc)
}

// Whether each byte is a digit 0 or 1.
fn all_bits(word: &[u8]) -> bool
    ensures { result ≡ list_all texts.is_bit word.now }
{
    word.iter().all(|byte| *byte == b'0' || *byte == b'1')
}

// Whether a word is a name.
fn is_name(word: &[u8]) -> bool
    ensures { result ≡ texts.is_name word.now }
{
    match word {
        [] => false,
        [first, others @ ..] => {
            starts_name(*first) && others.len() <= MAX_LATER && all_continue_name(others)
        }
    }
}

// Whether a byte can begin a name.
fn starts_name(byte: u8) -> bool
    ensures { result ≡ texts.starts_name byte }
{
    byte.is_ascii_alphabetic() || byte == b'_'
}

// Whether each byte can stand in a name.
fn all_continue_name(bytes: &[u8]) -> bool
    ensures { result ≡ list_all texts.continues_name bytes.now }
{
    bytes
        .iter()
        .all(|byte| byte.is_ascii_alphanumeric() || *byte == b'_')
}

// Whether no byte is outside 33 to 126.
fn is_printable(word: &[u8]) -> bool
    ensures { result ≡ texts.is_printable word.now }
{
    word.iter().all(|byte| 33 <= *byte && *byte <= 126)
}
