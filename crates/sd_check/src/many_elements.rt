// A node of 1,024 elements: two numbers of ten bits are equal. Its primes are the values of the first number, its subs
// those of the second.
ghost use Rattle.std.specs.Prelude.{◌≡◌, ◌<◌, ◌≤◌};

use crate::rules::{Rule, Verdict};
use crate::tests::{file_of, ids_of, verdict_on, vtree_of};
use itoa::Buffer;
use sd_runs::TakeError;
use std::alloc::{AllocError, Global};
use std::test::Fail;

// Adds the digits of a number.
fn push_number(text: &mut Vec<u8>, number: u32) -> Result<(), AllocError> {
    text.extend_from_slice(Buffer::new().format(number).as_bytes())?;
    Ok(())
}

// Adds a letter and numbers behind it.
fn push_words(text: &mut Vec<u8>, letter: u8, words: &[u32]) -> Result<(), AllocError> {
    text.push(letter)?;
    for word in words {
        text.push(b' ')?;
        push_number(text, *word)?;
    }
    Ok(())
}

// The vtree of 20 variables in which each ten stand as in a right-linear vtree.
fn vtree_text(alloc: Global) -> Result<Vec<u8>, AllocError> {
    let mut text = Vec::from_slice(alloc, b"vtree 39\n")?;
    for leaf in 0..20 {
        push_words(&mut text, b'L', &[2 * leaf, leaf + 1])?;
        text.push(b'\n')?;
    }
    for side in 0..2 {
        let base = 20 * side;
        push_words(&mut text, b'I', &[base + 17, base + 16, base + 18])?;
        text.push(b'\n')?;
        for step in 1..9 {
            push_words(
                &mut text,
                b'I',
                &[
                    base + 17 - 2 * step,
                    base + 16 - 2 * step,
                    base + 19 - 2 * step,
                ],
            )?;
            text.push(b'\n')?;
        }
    }
    text.extend_from_slice(b"I 19 1 21\n")?;
    Ok(text)
}

// The id of one of the values of the last bits of a side, of which there are so many.
fn value_id(side: u32, values: u32, value: u32) -> u32
    requires side { side < 2 }
    requires values { values ≤ 1024 }
    requires value { value < values }
    ensures { result < 10000 }
{
    100 + 4000 * side + values + value
}

// The id of a literal of a variable, its negation where the bit is 0.
fn literal_id(variable: u32, bit: u32) -> u32
    requires variable { variable ≤ 20 }
    requires bit { bit < 2 }
{
    2 * variable + bit
}

// Adds the line of a literal.
fn push_literal(text: &mut Vec<u8>, id: u32, variable: u32, bit: u32) -> Result<(), AllocError>
    requires variable { (1 ≤ variable) × (variable ≤ 20) }
{
    push_words(text, b'L', &[id, 2 * variable - 2])?;
    text.extend_from_slice(if bit == 0 { b" -" } else { b" " })?;
    push_number(text, variable)?;
    text.push(b'\n')?;
    Ok(())
}

// Adds the values of a side: each is a literal and a value of one bit less.
fn push_values(text: &mut Vec<u8>, side: u32) -> Result<(), AllocError>
    requires { side < 2 }
{
    for bit in 0..2 {
        push_literal(text, value_id(side, 2, bit), 10 * side + 10, bit)?;
    }
    for length in 2..11 {
        let shorter = (1u32 << (length - 1)).min(512);
        let variable = 10 * side + 11 - length;
        for value in 0..2 * shorter {
            let bit = if value < shorter { 0 } else { 1 };
            let rest = if value < shorter {
                value
            } else {
                value - shorter
            };
            push_words(
                text,
                b'D',
                &[
                    value_id(side, 2 * shorter, value),
                    20 * side + 21 - 2 * length,
                    2,
                    literal_id(variable, bit),
                    value_id(side, shorter, rest),
                    literal_id(variable, 1 - bit),
                    0,
                ],
            )?;
            text.push(b'\n')?;
        }
    }
    Ok(())
}

// The file of a node whose elements are the first of 1,024, with the sub of the first in the place of each sub that is
// behind so many.
fn file_text(alloc: Global, elements: u32, subs: u32) -> Result<Vec<u8>, AllocError> {
    let mut text = Vec::from_slice(alloc, b"sdd 4134\nF 0\n")?;
    for variable in 1..21 {
        for bit in 0..2 {
            push_literal(&mut text, literal_id(variable, bit), variable, bit)?;
        }
    }
    for side in 0..2 {
        push_values(&mut text, side)?;
    }
    push_words(&mut text, b'D', &[9999, 19, elements])?;
    for value in 0..elements.min(1024) {
        let sub = if value < subs { value } else { 0 };
        push_words(
            &mut text,
            b' ',
            &[value_id(0, 1024, value), value_id(1, 1024, sub)],
        )?;
    }
    text.push(b'\n')?;
    Ok(text)
}

// The verdict on it.
fn verdict(alloc: Global, elements: u32, subs: u32) -> Option<Result<Verdict, TakeError>> {
    let tree = vtree_text(alloc).ok()?;
    let text = file_text(alloc, elements, subs).ok()?;
    let ids = ids_of(alloc, &tree, 20)?;
    let file = file_of(alloc, &text, 20)?;
    let vtree = vtree_of(alloc, &tree, 20)?;
    Some(verdict_on(alloc, &file, &ids, vtree, 1_000_000))
}

/// All 1,024 elements are a canonical node. Without the last its primes do not cover, and with two equal subs it is not
/// compressed.
#[test]
fn many_elements(rt: HostRuntime) {
    assert_eq!(rt; verdict(rt.alloc(), 1024, 1024), Some(Ok(Verdict::Yes)));
    let cover = Verdict::No {
        node: 4133,
        rule: Rule::Cover,
    };
    assert_eq!(rt; verdict(rt.alloc(), 1023, 1024), Some(Ok(cover)));
    let subs = Verdict::No {
        node: 4133,
        rule: Rule::Subs,
    };
    assert_eq!(rt; verdict(rt.alloc(), 1024, 1023), Some(Ok(subs)));
}
