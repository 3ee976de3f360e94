//! The first line of a text.

ghost use Rattle.std.specs.Prelude.{◌≡◌, ◌≤◌, ◌<◌, ◌+◌, ◌^◌, option_map, IfSome, IfOk};
ghost use Rattle.sd_base.specs.Views.{line_view, words_left};
ghost use Rattle.sd_aiger.specs.Reads as texts;
ghost use Rattle.sd_aiger.specs.Reads.{Gives};
ghost use Rattle.sd_aiger.specs.Steps.{header_view, AreSmall, AreInRange};

use crate::fault::AigerFault;
use sd_base::{Line, Words, natural};

const MAX_INPUTS: u64 = 1024;

const MAX_OUTPUTS: u64 = 1024;

const MAX_VARIABLES: u64 = 2_000_000;

/// What the first line states.
#[derive(Clone, Copy, Debug)]
pub(crate) struct Header {
    /// The greatest variable.
    pub(crate) variables: u64,
    pub(crate) inputs: u64,
    pub(crate) latches: u64,
    pub(crate) outputs: u64,
    pub(crate) ands: u64,
}

impl Header {
    /// How many lines it states behind itself.
    pub(crate) fn lines(&self) -> u64
        requires { AreInRange (header_view self.now) }
        ensures value { result ≡ texts.stated_lines (header_view self.now) }
    {
        self.inputs + self.outputs + self.ands
    }

    /// The number of the first output line; the first input line has the number 2.
    pub(crate) fn first_output(&self) -> u32
        requires { AreInRange (header_view self.now) }
        ensures { result ≡ 2 + (header_view self.now).inputs }
    {
        2 + self.inputs as u32
    }

    /// The number of the first and-line.
    pub(crate) fn first_and(&self) -> u32
        requires { AreInRange (header_view self.now) }
        ensures { result ≡ 2 + (header_view self.now).inputs + (header_view self.now).outputs }
    {
        self.first_output() + self.outputs as u32
    }
}

/// The header that the first line is, where its numbers are in range.
pub(crate) fn header_of(line: &Line<'_>) -> Result<Header, AigerFault>
    ensures value { Gives header_view result (texts.header_in_range (line_view line.now).words) }
    ensures range { IfOk result (λ header. AreInRange (header_view header)) }
{
    let mut words = line.words();
    if words.next() != Some(b"aag") {
        return Err(AigerFault::NoHeader);
    }
    let header = numbers_of(words).ok_or(AigerFault::BadHeader { line: 1 })?;
    check(&header)?;
    Ok(header)
}

/// The header of the words behind the first one.
fn numbers_of(mut words: Words<'_>) -> Option<Header>
    ensures value { option_map header_view result ≡ texts.header_in (words_left words.entry) }
    ensures small { IfSome result (λ header. AreSmall (header_view header)) }
{
    let variables = natural(words.next()?)?;
    let inputs = natural(words.next()?)?;
    let latches = natural(words.next()?)?;
    let outputs = natural(words.next()?)?;
    let ands = natural(words.next()?)?;
    if words.next().is_some() {
        return None;
    }
    Some(Header {
        variables,
        inputs,
        latches,
        outputs,
        ands,
    })
}

/// Tests whether the numbers of a header are in range.
fn check(header: &Header) -> Result<(), AigerFault>
    requires small { AreSmall (header_view header.now) }
    ensures value { Gives (λ _. tt) result (texts.in_range (header_view header.now)) }
    ensures range { IfOk result (λ _. AreInRange (header_view header.now)) }
{
    let Header {
        variables,
        inputs,
        latches,
        outputs,
        ands,
    } = *header;
    if inputs < 1 || inputs > MAX_INPUTS {
        return Err(AigerFault::VariablesRange { found: inputs });
    }
    if latches != 0 {
        return Err(AigerFault::Latches { found: latches });
    }
    if outputs < 1 || outputs > MAX_OUTPUTS {
        return Err(AigerFault::OutputsRange { found: outputs });
    }
    if variables > MAX_VARIABLES || variables < inputs + ands {
        return Err(AigerFault::IndexRange { found: variables });
    }
    Ok(())
}
