// A line of text in one or two halves, each in parts, of which two may be numbers. It is written without memory, so
// that running out of memory can't come between a status and its line.
ghost use Rattle.std.specs.Prelude.{◌≡◌, ◌≤◌, ◌++◌, OnOk, OnErr, codes, if◌then◌else◌};
ghost use Rattle.sd_base.specs.Faults.{Rose};
ghost use Rattle.sd_base.specs.Sink.{told_then, AppendsPart};
ghost use Rattle.sd_model.specs.Text.{number_text};
ghost use Rattle.sd_tool.specs.inside.Devices.{AppendsLine};
ghost use Rattle.sd_tool.specs.Ends.{OverLimit, text_of, group_text, line_of};
ghost use Rattle.sd_tool.specs.Parts.{parts_text, line_text, number_seen};
ghost use Rattle.sd_base.specs.FaultTexts.{at_line, counts, signed_text};

use itoa::Buffer;
use sd_base::{Sink, WriteFault, write_all};

/// What a text is about, and what it says of it: texts, and perhaps one number or two between them. It is its fields,
/// one after another, a number in decimal.
#[derive(Clone, Copy, Debug)]
pub struct Parts<'a> {
    /// What the text is about: a file, or nothing.
    pub subject: &'a [u8],
    /// The text up to the first number, or all of it.
    pub before: &'a [u8],
    /// The first number.
    pub first: Option<u64>,
    /// The text behind it.
    pub between: &'static [u8],
    /// The second number.
    pub second: Option<u64>,
    /// The text behind that one.
    pub after: &'static [u8],
}

/// The two halves of a line.
#[derive(Clone, Copy, Debug)]
pub struct LineParts<'a> {
    /// The first half, behind the name of the program.
    pub front: Parts<'a>,
    /// The second one, often empty.
    pub back: Parts<'a>,
}

/// A line whose second half is empty.
pub fn alone(front: Parts<'_>) -> LineParts<'_>
    ensures { line_text result ≡ parts_text front.entry }
{
    LineParts {
        front,
        back: plain(b"", b""),
    }
}

/// A total size that passes the limit, in this line, and there at a group of the input if it is told.
pub fn over_limit(line: u32, group: Option<u32>, size: u32, limit: u32) -> LineParts<'static>
    ensures { line_text result ≡ text_of (OverLimit line group size limit) }
{
    LineParts {
        front: place(line, group),
        back: passing(size, limit),
    }
}

// A line, and a group of the input if it is told.
fn place(line: u32, group: Option<u32>) -> Parts<'static>
    ensures { parts_text result ≡ codes "line " ++ number_text line ++ group_text group }
{
    match group {
        Some(group) => Parts {
            subject: b"line ",
            before: b"",
            first: Some(u64::from(line)),
            between: b": group ",
            second: Some(u64::from(group)),
            after: b"",
        },
        None => numbered(b"line ", b"", u64::from(line), b""),
    }
}

// A size that passes a limit.
fn passing(size: u32, limit: u32) -> Parts<'static>
    ensures { parts_text result
        ≡ codes ": size " ++ number_text size ++ codes " passes limit " ++ number_text limit }
{
    Parts {
        subject: b": size ",
        before: b"",
        first: Some(u64::from(size)),
        between: b" passes limit ",
        second: Some(u64::from(limit)),
        after: b"",
    }
}

/// A text without numbers.
pub fn plain<'a>(subject: &'a [u8], text: &'a [u8]) -> Parts<'a>
    ensures { parts_text result ≡ subject.now ++ text.now }
{
    Parts {
        subject,
        before: text,
        first: None,
        between: b"",
        second: None,
        after: b"",
    }
}

/// A text with one number.
pub fn numbered<'a>(
    subject: &'a [u8],
    before: &'static [u8],
    number: u64,
    after: &'static [u8],
) -> Parts<'a>
    ensures { parts_text result ≡ subject.now ++ before.now ++ number_text number ++ after.now }
{
    Parts {
        subject,
        before,
        first: Some(number),
        between: after,
        second: None,
        after: b"",
    }
}

/// A fault of a line of this file.
pub fn at_line<'a>(file: &'a [u8], line: u32, text: &'static [u8]) -> Parts<'a>
    ensures { parts_text result ≡ file.now ++ at_line line text.now }
{
    numbered(file, b": line ", u64::from(line), text)
}

/// A literal of a line of this file that is of no variable, with its sign.
pub fn literal_at_line(file: &[u8], line: u32, literal: i64) -> Parts<'_>
    ensures { parts_text result
        ≡ file.now ++ at_line line (codes ": literal out of range: " ++ signed_text literal) }
{
    Parts {
        subject: file,
        before: b": line ",
        first: Some(u64::from(line)),
        between: before_literal(literal < 0),
        second: Some(literal.unsigned_abs()),
        after: b"",
    }
}

// What stands before the digits of a literal that is out of range.
fn before_literal(negative: bool) -> &'static [u8]
    ensures { result.now
        ≡ (if negative then codes ": literal out of range: -" else codes ": literal out of range: ") }
{
    if negative {
        b": literal out of range: -"
    } else {
        b": literal out of range: "
    }
}

/// Two numbers of this file that differ.
pub fn counts(file: &[u8], stated: u64, found: u64) -> Parts<'_>
    ensures { parts_text result ≡ file.now ++ counts stated found }
{
    Parts {
        subject: file,
        before: b": ",
        first: Some(stated),
        between: b" stated, ",
        second: Some(found),
        after: b" found",
    }
}

/// Writes the line, as far as it goes.
pub fn write_line<E: Sink>(err: &mut E, line: &LineParts<'_>)
    ensures { AppendsLine (line_of (line_text line.now))
        (E.written err.old) (E.written err.new) (E.faults err.old) (E.faults err.new) }
{
    let _ = write_halves(err, line);
}

// Writes the line, behind the name of the program.
fn write_halves<E: Sink>(err: &mut E, line: &LineParts<'_>) -> Result<(), WriteFault>
    ensures ok { OnOk result (E.written err.new
        ≡ told_then (E.written err.old) (line_of (line_text line.now))) }
    ensures err { OnErr result
        (AppendsPart (E.written err.old) (line_of (line_text line.now)) (E.written err.new)) }
    ensures cause { OnErr result (Rose (E.faults err.old) (E.faults err.new)) }
    ensures faults { E.faults err.old ≤ E.faults err.new }
{
    let Ok(()) = write_all(err, b"sddc: ") else {
        return Err(WriteFault);
    };
    let Ok(()) = write_parts(err, &line.front) else {
        return Err(WriteFault);
    };
    let Ok(()) = write_parts(err, &line.back) else {
        return Err(WriteFault);
    };
    match write_all(err, b"\n") {
        Ok(()) => Ok(()),
        Err(_) => Err(WriteFault),
    }
}

// Writes the text of these parts.
fn write_parts<E: Sink>(err: &mut E, parts: &Parts<'_>) -> Result<(), WriteFault>
    ensures ok { OnOk result (E.written err.new
        ≡ told_then (E.written err.old) (parts_text parts.now)) }
    ensures err { OnErr result
        (AppendsPart (E.written err.old) (parts_text parts.now) (E.written err.new)) }
    ensures cause { OnErr result (Rose (E.faults err.old) (E.faults err.new)) }
    ensures faults { E.faults err.old ≤ E.faults err.new }
{
    write_both(err, parts.subject, parts.before)?;
    write_number(err, parts.first, parts.between)?;
    write_number(err, parts.second, parts.after)
}

// Writes a number in decimal, if it is there, and the text behind it.
fn write_number<E: Sink>(err: &mut E, number: Option<u64>, text: &[u8]) -> Result<(), WriteFault>
    ensures ok { OnOk result (E.written err.new
        ≡ told_then (E.written err.old) (number_seen number ++ text.now)) }
    ensures err { OnErr result
        (AppendsPart (E.written err.old) (number_seen number ++ text.now) (E.written err.new)) }
    ensures cause { OnErr result (Rose (E.faults err.old) (E.faults err.new)) }
    ensures faults { E.faults err.old ≤ E.faults err.new }
{
    let mut buffer = Buffer::new();
    write_both(err, digits(&mut buffer, number), text)
}

// A number in decimal, if it is there.
fn digits(buffer: &mut Buffer, number: Option<u64>) -> &[u8]
    ensures { result.now ≡ number_seen number }
{
    match number {
        Some(number) => number_digits(buffer, number),
        None => b"",
    }
}

fn number_digits(buffer: &mut Buffer, number: u64) -> &[u8]
    ensures { result.now ≡ number_text number }
{
    buffer.format(number).as_bytes()
}

// Writes a text, and another one behind it.
fn write_both<E: Sink>(err: &mut E, first: &[u8], second: &[u8]) -> Result<(), WriteFault>
    ensures ok { OnOk result (E.written err.new
        ≡ told_then (E.written err.old) (first.now ++ second.now)) }
    ensures err { OnErr result
        (AppendsPart (E.written err.old) (first.now ++ second.now) (E.written err.new)) }
    ensures cause { OnErr result (Rose (E.faults err.old) (E.faults err.new)) }
    ensures faults { E.faults err.old ≤ E.faults err.new }
{
    write_all(err, first)?;
    write_all(err, second)
}
