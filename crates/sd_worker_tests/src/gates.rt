// What no clause says of a whole run: that parts of a formula, or starts, are in work at once, and that each enters the
// gate that has its number.
use sd_base::{Bytes, MemoryShelf, MemorySink, Name, NamedBytes};
use sd_parts::Gate;
use sd_tool::run_gated;
use std::alloc::{AllocError, Global};
use std::sync::atomic::{AtomicBool, Ordering};
use std::thread::Threads;

/// How often a gate looks whether the other one was entered.
const MOST_TURNS: u32 = 200_000_000;

/// What the first two parts tell each other: that they came, and that they saw the other one; whether the third one
/// came; and whether a part came to a gate of another number.
#[derive(Drop)]
struct Flags {
    first_came: AtomicBool,
    first_met: AtomicBool,
    second_came: AtomicBool,
    second_met: AtomicBool,
    third_came: AtomicBool,
    strayed: AtomicBool,
}

/// The gate of the part with this number. The first two wait for one another.
#[derive(Drop)]
struct Meeting<'a> {
    flags: &'a Flags,
    number: u32,
}

impl Gate for Meeting<'_> {
    fn enter(&self, part: u32) {
        let flags = self.flags;
        if part != self.number {
            flags.strayed.store(true, Ordering::SeqCst);
        } else if part == 0 {
            meet(&flags.first_came, &flags.second_came, &flags.first_met);
        } else if part == 1 {
            meet(&flags.second_came, &flags.first_came, &flags.second_met);
        } else if part == 2 {
            flags.third_came.store(true, Ordering::SeqCst);
        }
    }
}

// Tells that one part came, and waits for the other one.
fn meet(came: &AtomicBool, other: &AtomicBool, met: &AtomicBool) {
    came.store(true, Ordering::SeqCst);
    for _ in 0..MOST_TURNS {
        if other.load(Ordering::SeqCst) {
            met.store(true, Ordering::SeqCst);
            return;
        }
    }
}

// Flags of which none is set.
fn no_flags() -> Flags {
    Flags {
        first_came: AtomicBool::new(false),
        first_met: AtomicBool::new(false),
        second_came: AtomicBool::new(false),
        second_met: AtomicBool::new(false),
        third_came: AtomicBool::new(false),
        strayed: AtomicBool::new(false),
    }
}

// Whether the first two parts met, each part came to the gate of its number, and a third one came where there is one.
fn have_met(flags: &Flags, third: bool) -> bool {
    flags.first_met.load(Ordering::SeqCst)
        && flags.second_met.load(Ordering::SeqCst)
        && flags.third_came.load(Ordering::SeqCst) == third
        && !flags.strayed.load(Ordering::SeqCst)
}

// Gates with the numbers from 0 on.
fn meetings(alloc: Global, flags: &Flags) -> Result<Vec<Meeting<'_>>, AllocError> {
    let mut gates = Vec::new(alloc);
    for number in 0..64 {
        gates.push(Meeting { flags, number })?;
    }
    Ok(gates)
}

// The words of a line.
fn words_of(alloc: Global, line: &str) -> Result<Vec<String>, AllocError> {
    let mut words = Vec::new(alloc);
    for word in line.split_whitespace() {
        words.push(String::from_str(alloc, word)?)?;
    }
    Ok(words)
}

// One file, "in", of this text.
fn files_of(alloc: Global, text: &[u8]) -> Result<Vec<NamedBytes>, AllocError> {
    let mut files = Vec::new(alloc);
    let name = Name::copy_of(alloc, "in")?;
    let bytes = Bytes::new(text.to_vec(alloc)?);
    files.push(NamedBytes { name, bytes })?;
    Ok(files)
}

// Whether the first two parts of a run with these words meet, a third one comes where there is one, and the run ends
// with status 0 and prints this.
fn meets<R: Threads + Sync>(
    rt: &R,
    alloc: Global,
    line: &str,
    text: &[u8],
    third: bool,
    printed: &[u8],
) -> Result<bool, AllocError> {
    let flags = no_flags();
    let gates = meetings(alloc, &flags)?;
    let words = words_of(alloc, line)?;
    let mut shelf = MemoryShelf::new(alloc, files_of(alloc, text)?, 64, Vec::new(alloc));
    let mut out = MemorySink::new(alloc, Vec::new(alloc));
    let mut err = MemorySink::new(alloc, Vec::new(alloc));
    if gates.len() != 64 {
        return Ok(false);
    }
    let status = run_gated(
        rt, alloc, &words, &mut shelf, &mut out, &mut err, &mut None, gates,
    );
    Ok(status == 0 && out.bytes() == printed && have_met(&flags, third))
}

/// Two parts in two threads wait for one another, and so do the first two of three starts, each at the gate of its
/// number.
#[test]
fn two_are_in_work_at_once(rt: HostRuntime) -> Result<(), AllocError> {
    let apart = b"p dnf 4 2\n1 2 0\n3 4 0\n";
    let crossed = b"p dnf 4 2\n1 3 0\n2 4 0\n";
    let parts = "--dnf in --parts 2 --workers 2";
    assert!(rt; meets(&rt, rt.alloc(), parts, apart, false, b"size 8\n")?);
    let starts = "--dnf in --portfolio --workers 3";
    let answer = b"start right\nsize 8\n";
    assert!(rt; meets(&rt, rt.alloc(), starts, crossed, true, answer)?);
    Ok(())
}
