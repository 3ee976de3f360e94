// Gates at which the first two parts, or tasks, or starts, wait for one another.
use sd_parts::Gate;
use std::sync::atomic::{AtomicBool, Ordering};

/// How often a gate looks whether the other one was entered.
const MOST_TURNS: u32 = 200_000_000;

/// What the first two parts tell each other: that they came, and that they saw the other one; whether the third one
/// came; and whether a part came to a gate of another number.
#[derive(Drop)]
pub(crate) struct Flags {
    first_came: AtomicBool,
    first_met: AtomicBool,
    second_came: AtomicBool,
    second_met: AtomicBool,
    third_came: AtomicBool,
    strayed: AtomicBool,
}

/// The gate of the part with this number. The first two wait for one another.
#[derive(Drop)]
pub(crate) struct Meeting<'a> {
    pub(crate) flags: &'a Flags,
    pub(crate) number: u32,
}

impl Gate for Meeting<'_> {
    fn enter(&self, part: u32) {
        let flags = self.flags;
        if part != self.number {
            flags.strayed.store(true, Ordering::SeqCst);
        } else if part == 0 {
            meet(&flags.first_came, &flags.second_came, &flags.first_met);
        } else if part == 1 {
            meet(&flags.second_came, &flags.first_came, &flags.second_met);
        } else if part == 2 {
            flags.third_came.store(true, Ordering::SeqCst);
        }
    }
}

// Tells that one part came, and waits for the other one.
fn meet(came: &AtomicBool, other: &AtomicBool, met: &AtomicBool) {
    came.store(true, Ordering::SeqCst);
    for _ in 0..MOST_TURNS {
        if other.load(Ordering::SeqCst) {
            met.store(true, Ordering::SeqCst);
            return;
        }
    }
}

// Flags of which none is set.
pub(crate) fn no_flags() -> Flags {
    Flags {
        first_came: AtomicBool::new(false),
        first_met: AtomicBool::new(false),
        second_came: AtomicBool::new(false),
        second_met: AtomicBool::new(false),
        third_came: AtomicBool::new(false),
        strayed: AtomicBool::new(false),
    }
}

// Whether the first two parts met, each part came to the gate of its number, and a third one came where there is one.
pub(crate) fn have_met(flags: &Flags, third: bool) -> bool {
    flags.first_met.load(Ordering::SeqCst)
        && flags.second_met.load(Ordering::SeqCst)
        && flags.third_came.load(Ordering::SeqCst) == third
        && !flags.strayed.load(Ordering::SeqCst)
}
