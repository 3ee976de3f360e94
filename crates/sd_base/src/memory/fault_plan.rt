//! Faults that come by plan.

ghost use Rattle.std.specs.Prelude.{◌≡◌, ◌+◌, ◌-◌, ◌^◌, ◌≤◌, ◌↔◌, min, IsTrue};
ghost use Rattle.sd_base.specs.Faults.{Rose};

use crate::Failed;

/// A kind of call of a shelf.
#[derive(Clone, Copy, Debug, PartialEq, Eq)]
pub enum ShelfCall {
    StartRead,
    Read,
    StartWrite,
    Append,
    Finish,
}

/// The nth call of this kind fails, counted from 1.
#[derive(Clone, Copy, Debug, PartialEq, Eq)]
pub struct PlannedFault {
    pub call: ShelfCall,
    pub nth: u64,
}

/// What is to fail, and how many calls of each kind there were.
#[derive(Drop)]
pub(crate) struct FaultPlan {
    planned: Vec<PlannedFault>,
    start_reads: u64,
    reads: u64,
    start_writes: u64,
    appends: u64,
    finishes: u64,
}

impl FaultPlan {
    ghost use Rattle.sd_base.specs.Asked.{CountsRequests};
    ghost use Rattle.sd_base.specs.FaultPlan.{calls_of, AreOthersKept, IsNewPlan, IsPlanned};

    /// No call was made yet.
    pub(crate) fn new(planned: Vec<PlannedFault>) -> FaultPlan
        ensures { IsNewPlan planned.items result }
    {
        FaultPlan {
            planned,
            start_reads: 0,
            reads: 0,
            start_writes: 0,
            appends: 0,
            finishes: 0,
        }
    }

    /// Counts a call of this kind, and says whether it is to fail.
    pub(crate) fn fails(&mut self, call: ShelfCall) -> bool
        ensures counted { calls_of self.new call ≡ min (calls_of self.old call + 1) (2 ^ 64 - 1) }
        ensures others { AreOthersKept self.old call self.new }
        ensures planned { IsTrue result ↔ IsPlanned self.old call (calls_of self.new call) }
        ensures kept { self.new.planned.items ≡ self.old.planned.items }
        ensures requests { CountsRequests self.old call self.new }
    {
        let nth = self.count(call);
        self.planned.contains(&PlannedFault { call, nth })
    }

    // Counts a call of this kind, and answers its number.
    fn count(&mut self, call: ShelfCall) -> u64
        ensures number { result ≡ calls_of self.new call }
        ensures counted { calls_of self.new call ≡ min (calls_of self.old call + 1) (2 ^ 64 - 1) }
        ensures others { AreOthersKept self.old call self.new }
        ensures planned { self.new.planned.items ≡ self.old.planned.items }
    {
        match call {
            ShelfCall::StartRead => count_up(&mut self.start_reads),
            ShelfCall::Read => count_up(&mut self.reads),
            ShelfCall::StartWrite => count_up(&mut self.start_writes),
            ShelfCall::Append => count_up(&mut self.appends),
            ShelfCall::Finish => count_up(&mut self.finishes),
        }
    }
}

// One more; at its last value a count stands.
fn count_up(count: &mut u64) -> u64
    ensures number { result ≡ count.new }
    ensures counted { count.new ≡ min (count.old + 1) (2 ^ 64 - 1) }
{
    *count = count.saturating_add(1);
    *count
}

/// Counts a fault for which memory was refused, and the refusal. At its last value a count stands.
pub(crate) fn count_refusal(refusals: &mut u64, faults: &mut u64) -> Failed
    ensures refused { Rose refusals.old refusals.new }
    ensures later { faults.old ≤ faults.new }
    ensures rose { Rose faults.old faults.new }
    ensures one { faults.new ≡ min (faults.old + 1) (2 ^ 64 - 1) }
{
    *refusals = refusals.saturating_add(1);
    count_fault(faults)
}

/// Counts a fault. At its last value the count stands.
pub(crate) fn count_fault(faults: &mut u64) -> Failed
    ensures later { faults.old ≤ faults.new }
    ensures rose { Rose faults.old faults.new }
    ensures one { faults.new ≡ min (faults.old + 1) (2 ^ 64 - 1) }
{
    *faults = faults.saturating_add(1);
    Failed
}
