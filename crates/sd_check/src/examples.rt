// Both outputs of a full adder in one file, as the program writes it, with the elements of each node in another order,
// and with one changed word.
use crate::rules::{Rule, Verdict};
use crate::tests::{file_of, ids_of, verdict_on, vtree_of};
use std::alloc::{AllocError, Global};
use std::test::Fail;

/// The balanced vtree over the variables 1 to 3.
const BALANCED: &str = "vtree 5\nL 0 1\nL 2 2\nL 4 3\nI 3 2 4\nI 1 0 3\n";

/// The sum and the carry.
const ADDER: &str = "sdd 14
L 0 0 -1
L 1 2 -2
L 2 4 3
L 3 2 2
L 4 4 -3
D 5 3 2 1 2 3 4
L 6 0 1
D 7 3 2 1 4 3 2
D 8 1 2 0 5 6 7
F 9
D 10 3 2 1 9 3 2
T 11
D 12 3 2 1 2 3 11
D 13 1 2 0 10 6 12
c root 0 8
c root 1 13";

/// The same with the elements of each node in another order.
const TURNED: &str = "sdd 14
L 0 0 -1
L 1 2 -2
L 2 4 3
L 3 2 2
L 4 4 -3
D 5 3 2 3 4 1 2
L 6 0 1
D 7 3 2 3 2 1 4
D 8 1 2 6 7 0 5
F 9
D 10 3 2 3 2 1 9
T 11
D 12 3 2 3 11 1 2
D 13 1 2 6 12 0 10
c root 0 8
c root 1 13";

// A text with another line of a number.
fn changed(alloc: Global, text: &str, number: usize, line: &str) -> Result<Vec<u8>, AllocError> {
    let mut bytes = Vec::new(alloc);
    for (index, own) in text.split('\n').enumerate() {
        let kept = if index == number { line } else { own };
        bytes.extend_from_slice(kept.as_bytes())?;
        bytes.push(b'\n')?;
    }
    Ok(bytes)
}

// The verdict on a text.
fn verdict(alloc: Global, text: &[u8]) -> Option<Verdict> {
    let ids = ids_of(alloc, BALANCED.as_bytes(), 3)?;
    let file = file_of(alloc, text, 3)?;
    let vtree = vtree_of(alloc, BALANCED.as_bytes(), 3)?;
    verdict_on(alloc, &file, &ids, vtree, 1000).ok()
}

/// What the program writes is canonical, and so it is in any order of the elements.
#[test]
fn written_file(rt: HostRuntime) {
    assert_eq!(rt; verdict(rt.alloc(), ADDER.as_bytes()), Some(Verdict::Yes));
    assert_eq!(rt; verdict(rt.alloc(), TURNED.as_bytes()), Some(Verdict::Yes));
}

/// One changed word of a line: a vtree id, a prime, a sub, or the sign of a literal.
#[test]
fn one_changed_word(rt: HostRuntime) -> Result<(), Fail> {
    let rows = [
        (2, "L 1 4 -2", 1, Rule::Vtree),
        (3, "L 2 4 -3", 5, Rule::Subs),
        (4, "L 3 2 -2", 5, Rule::Overlap),
        (8, "D 7 4 2 1 4 3 2", 7, Rule::Vtree),
        (9, "D 8 1 2 6 5 6 7", 8, Rule::Overlap),
        (11, "D 10 3 2 1 1 3 2", 10, Rule::Sub),
        (11, "D 10 3 2 1 2 3 2", 10, Rule::Subs),
        (13, "D 12 1 2 1 2 3 11", 12, Rule::Prime),
        (13, "D 12 3 2 1 9 3 11", 12, Rule::Trim),
    ];
    for (number, line, node, rule) in rows {
        let text = changed(rt.alloc(), ADDER, number, line)?;
        assert_eq!(rt;
            verdict(rt.alloc(), &text),
            Some(Verdict::No { node, rule })
        );
    }
    let another = changed(rt.alloc(), ADDER, 14, "D 13 1 2 0 2 6 12")?;
    assert_eq!(rt; verdict(rt.alloc(), &another), Some(Verdict::Yes));
    Ok(())
}
