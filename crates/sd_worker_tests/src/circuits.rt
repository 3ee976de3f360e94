// Circuits of texts. What no clause says: calls with ample memory answer, those on the longest text in time.
use sd_aiger::{AigerFault, read_aiger};
use sd_circuit::{Circuit, Wire};
use std::alloc::{AllocError, Global};
use std::test::Fail;

/// The conjunction of two inputs.
const CONJUNCTION: &str = "aag 3 2 0 1 1\n2\n4\n6\n6 2 4";

/// The same with its negation, the inputs in another order, and lines behind the last and-line.
const WITH_SYMBOLS: &str = "aag 3 2 0 2 1\n4\n2\n6\n7\n6 2 4\ni0 x\nc\nby hand";

/// Two and-lines, each before the one that it uses.
const REVERSED: &str = "aag 5 2 0 1 3\n2\n4\n11\n10 8 7\n8 6 3\n6 2 4\n";

// The circuit of a short text.
pub(crate) fn circuit_of(alloc: Global, text: &[u8]) -> Result<Circuit, AigerFault> {
    if text.len() > 1000 {
        return Err(AigerFault::OutOfMemory);
    }
    read_aiger(alloc, text)
}

// The fault of a short text.
fn fault_of(alloc: Global, text: &[u8]) -> Option<AigerFault> {
    circuit_of(alloc, text).err()
}

// How many inputs, outputs and gates the circuit of a short text has.
fn counts_of(alloc: Global, text: &str) -> Result<(u32, u32, u32), AigerFault> {
    let circuit = circuit_of(alloc, text.as_bytes())?;
    Ok((circuit.inputs(), circuit.outputs(), circuit.gates()))
}

// The sides of a gate.
fn gate_of(circuit: &Circuit, index: u32) -> Option<(Wire, Wire)> {
    if index < circuit.gates() {
        Some(circuit.gate(index))
    } else {
        None
    }
}

// An input.
fn input(variable: u32, positive: bool) -> Wire {
    Wire::Input { variable, positive }
}

// A gate.
fn gate(index: u32, positive: bool) -> Wire {
    Wire::Gate { index, positive }
}

/// Circuits by how much they have, and faults.
#[test]
fn texts_and_their_counts(rt: HostRuntime) {
    let alloc = rt.alloc();
    let found = [
        counts_of(alloc, CONJUNCTION),
        counts_of(alloc, WITH_SYMBOLS),
        counts_of(alloc, "aag 2 1 0 1 1\n2\n4\n4 4 2"),
        counts_of(alloc, "aag 2 1 1 1 0\n2\n4 2\n4"),
        counts_of(alloc, "aag 2 1 0 1 0\n2\n4"),
        counts_of(alloc, "aag 2000001 1 0 1 0\n2\n2"),
    ];
    let expected = [
        Ok((2, 1, 1)),
        Ok((2, 2, 1)),
        Err(AigerFault::Cycle { line: 4 }),
        Err(AigerFault::Latches { found: 1 }),
        Err(AigerFault::Undefined { line: 3 }),
        Err(AigerFault::IndexRange { found: 2_000_001 }),
    ];
    assert!(rt; found == expected);
}

/// Gates come in an order in which each stands behind what it uses, also where the text has them reversed.
#[test]
fn lines_in_reversed_order(rt: HostRuntime) -> Result<(), Fail> {
    let circuit = circuit_of(rt.alloc(), REVERSED.as_bytes())
        .ok()
        .ok_or("not read")?;
    let gates = [
        gate_of(&circuit, 0),
        gate_of(&circuit, 1),
        gate_of(&circuit, 2),
    ];
    let expected = [
        Some((input(1, true), input(2, true))),
        Some((gate(0, true), input(1, false))),
        Some((gate(1, true), gate(0, false))),
    ];
    assert!(rt; gates == expected);
    Ok(())
}

// The fault of the first bytes of the conjunction's text.
fn fault_of_first(length: usize) -> AigerFault {
    match length {
        0..=2 => AigerFault::NoHeader,
        3..=12 => AigerFault::BadHeader { line: 1 },
        13..=20 => AigerFault::CountDiffers {
            stated: 4,
            found: (length as u64 - 13) / 2,
        },
        _ => AigerFault::BadLine { line: 5 },
    }
}

// Whether each proper prefix of the conjunction's text has its fault.
fn prefixes_have_faults(alloc: Global) -> bool {
    let text = CONJUNCTION.as_bytes();
    for length in 0..text.len() {
        if fault_of(alloc, &text[..length]) != Some(fault_of_first(length)) {
            return false;
        }
    }
    true
}

#[test]
fn prefixes_of_a_text(rt: HostRuntime) {
    assert!(rt; prefixes_have_faults(rt.alloc()));
}

// Writes a number of seven digits and the byte behind it.
fn push_number(text: &mut Vec<u8>, number: u32, end: u8) -> Result<(), AllocError> {
    for divisor in [1_000_000, 100_000, 10_000, 1_000, 100, 10, 1] {
        text.push(b'0' + (number / divisor % 10) as u8)?;
    }
    text.push(end)?;
    Ok(())
}

// A chain of and-lines over one input, each before the one that it uses: of 2,000,000 variables and as many lines.
fn chain(alloc: Global) -> Result<Vec<u8>, AllocError> {
    let mut text = Vec::new(alloc);
    text.extend_from_slice(b"aag 2000000 1 0 1 1999999\n2\n4000000\n")?;
    for step in 0..1_999_999u32 {
        let defined = 4_000_000 - 2 * step;
        push_number(&mut text, defined, b' ')?;
        push_number(&mut text, defined - 2, b' ')?;
        push_number(&mut text, 2, b'\n')?;
    }
    Ok(text)
}

// How many gates the circuit of a text has, of any length.
fn gates_of(alloc: Global, text: &[u8]) -> Result<u32, AigerFault> {
    if text.len() > 67_108_864 {
        return Err(AigerFault::OutOfMemory);
    }
    Ok(read_aiger(alloc, text)?.gates())
}

/// The deepest circuit: no part of the reader goes down by recursion, and none goes over the lines for each line.
#[test]
fn a_chain_of_two_million_lines(rt: HostRuntime) -> Result<(), Fail> {
    let text = chain(rt.alloc())?;
    assert!(rt; gates_of(rt.alloc(), &text) == Ok(1_999_999));
    Ok(())
}
