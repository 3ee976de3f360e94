//! A sink in memory, for tests. It tells what was written.
//! Where it finds no memory, it counts a fault.

use super::fault_plan::count_fault;
use crate::{Failed, Sink};
use std::alloc::Global;

/// Bytes in memory.
#[derive(Drop)]
pub struct MemorySink {
    written: Vec<u8>,
    // the numbers of the calls that fail
    planned: Vec<u64>,
    calls: u64,
    faults: u64,
}

impl MemorySink {
    ghost use Rattle.std.specs.Prelude.{◌≡◌, []};
    ghost use Rattle.sd_base.specs.MemoryShown.{memory_written, fails_at, calls_to, faults_of};

    /// A sink to which nothing was written.
    /// The `write` calls of these numbers fail, counted from 1.
    pub fn new(alloc: Global, planned: Vec<u64>) -> MemorySink
        ensures written { memory_written result ≡ [] }
        ensures planned { fails_at result ≡ planned.items }
        ensures calls { calls_to result ≡ 0 }
        ensures faults { faults_of result ≡ 0 }
    {
        MemorySink {
            written: Vec::new(alloc),
            planned,
            calls: 0,
            faults: 0,
        }
    }

    /// What was written.
    pub fn bytes(&self) -> &[u8]
        ensures { result.now ≡ memory_written self.now }
    {
        &self.written
    }
}

impl Sink for MemorySink {
    ghost use Rattle.std.specs.Prelude.{◌≡◌, ◌+◌, ◌-◌, ◌^◌, ◌<◌, ◌≤◌, ◌⊎◌, Some, min, length, take};
    ghost use Rattle.std.specs.Prelude.{IfOk, OnErr, IsErr, Contains};
    ghost use Rattle.sd_base.specs.Faults.{CountsOne, HasCause};
    ghost use Rattle.sd_base.specs.MemoryShown.{fails_at, calls_to, faults_of};
    ghost use Rattle.sd_base.specs.MemoryShown.{memory_room, memory_written};
    ghost use Rattle.sd_base.specs.Sink.{told_then};

    ghost written = { λ sink. Some sink.written.items };

    ghost faults = { λ sink. sink.faults };

    fn write(&mut self, piece: &[u8]) -> Result<usize, Failed>
        requires { 0 < length piece.now }
        ensures within { IfOk result (λ count. (0 < count) × (count ≤ length piece.now)) }
        ensures ok { IfOk result (λ count.
            Some (memory_written self.new)
            ≡ told_then (Some (memory_written self.old)) (take count piece.now)) }
        ensures err { OnErr result (memory_written self.new ≡ memory_written self.old) }
        ensures cause { HasCause (faults_of self.old) (faults_of self.new) result }
        ensures counts { CountsOne (faults_of self.old) (faults_of self.new) result }
        ensures counted { calls_to self.new ≡ min (calls_to self.old + 1) (2 ^ 64 - 1) }
        ensures planned { Contains (fails_at self.old) (calls_to self.new) → IsErr result }
        ensures unplanned { OnErr result (
            Contains (fails_at self.old) (calls_to self.new)
            ⊎ (memory_room self.old < length (memory_written self.old) + length piece.now)) }
        ensures plan { fails_at self.new ≡ fails_at self.old }
        ensures whole { IfOk result (λ count. count ≡ length piece.now) }
    {
        self.calls = self.calls.saturating_add(1);
        if self.planned.contains(&self.calls) || self.written.extend_from_slice(piece).is_err() {
            return Err(count_fault(&mut self.faults));
        }
        Ok(piece.len())
    }
}
