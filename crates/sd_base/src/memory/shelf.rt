//! A shelf in memory, for tests. It tells its files.
//! Where it finds no memory, it counts a fault.

ghost use Rattle.std.specs.Prelude.{◌+◌, ◌<◌, ◌≤◌, ◌^◌, length};
ghost use Rattle.sd_base.specs.Shelf.{AreNext};

use super::fault_plan::{FaultPlan, count_fault, count_refusal};
use super::named_bytes::{extend_file, find_bytes, make_empty};
use crate::{Failed, Name, NamedBytes, PlannedFault, Shelf, ShelfCall};
use std::alloc::Global;
use std::mem;

// What is in hand: no file, one being read from an offset on, or one being written.
#[derive(Drop)]
enum InHand {
    Nothing,
    Read(Name, usize),
    Write(Name),
}

/// Files in memory, of which the first of a name counts.
#[derive(Drop)]
pub struct MemoryShelf {
    alloc: Global,
    files: Vec<NamedBytes>,
    // what one `append` takes at most
    piece: usize,
    plan: FaultPlan,
    hand: InHand,
    // what was in hand when a `finish` last failed
    unfinished: InHand,
    read_faults: u64,
    write_faults: u64,
    // how often memory was refused for a name or for bytes
    refusals: u64,
    ghost takes_some: { 0 < piece },
}

impl MemoryShelf {
    ghost use Rattle.std.specs.Prelude.{◌≡◌, ◌<◌};
    ghost use Rattle.std.specs.Option.{option_map};
    ghost use Rattle.sd_base.specs.Files.{bytes_at};
    ghost use Rattle.sd_base.specs.Memory.{files_of};
    ghost use Rattle.sd_base.specs.MemoryShown.{memory_files, memory_hand, memory_unfinished};
    ghost use Rattle.sd_base.specs.MemoryShown.{memory_piece, memory_plan, read_faults_of, write_faults_of};
    ghost use Rattle.sd_base.specs.MemoryShown.{refusals_of};
    ghost use Rattle.sd_base.specs.FaultPlan.{IsNewPlan};
    ghost use Rattle.std.specs.Prelude.{[]};
    ghost use Rattle.sd_base.specs.Asked.{AreCalls};
    ghost use Rattle.sd_base.specs.Shelf.{NoFile};

    /// A shelf of these files, with none in hand. One `append` takes at most `piece` bytes.
    /// Of two files of one name the first counts.
    pub fn new(
        alloc: Global,
        files: Vec<NamedBytes>,
        piece: usize,
        planned: Vec<PlannedFault>,
    ) -> MemoryShelf
        requires { 0 < piece }
        ensures files { memory_files result ≡ files_of files.items }
        ensures hand { memory_hand result ≡ NoFile }
        ensures piece { memory_piece result ≡ piece }
        ensures unfinished { memory_unfinished result ≡ NoFile }
        ensures planned { IsNewPlan planned.items (memory_plan result) }
        ensures faults { (read_faults_of result ≡ 0) × (write_faults_of result ≡ 0) }
        ensures refusals { refusals_of result ≡ 0 }
        ensures asked { AreCalls (memory_plan result) [] }
    {
        MemoryShelf {
            alloc,
            files,
            piece,
            plan: FaultPlan::new(planned),
            hand: InHand::Nothing,
            unfinished: InHand::Nothing,
            read_faults: 0,
            write_faults: 0,
            refusals: 0,
        }
    }

    /// The bytes of the file of this name, if there is one.
    pub fn bytes_of(&self, name: &str) -> Option<&[u8]>
        ensures { option_map (λ bytes. bytes.now) result
            ≡ bytes_at (memory_files self.now) name.now }
    {
        find_bytes(&self.files, name)
    }
}

// Copies the bytes from an offset on, as many as there is room for.
fn copy_next(bytes: &[u8], offset: usize, into: &mut [u8]) -> usize
    requires { 0 < length into.old }
    ensures within { result ≤ length into.new }
    ensures fits { offset + result < 2 ^ 64 }
    ensures next { AreNext bytes.now offset result into.new }
{
    if offset >= bytes.len() {
        return 0;
    }
    let rest = &bytes[offset..];
    let count = rest.len().min(into.len());
    into[..count].copy_from_slice(&rest[..count]);
    count
}

impl Shelf for MemoryShelf {
    ghost use Rattle.std.specs.Prelude.{◌≡◌, ◌≢◌, ◌⊎◌, ◌<◌, ◌≤◌, [], length, min, take, Some};
    ghost use Rattle.std.specs.Prelude.{IfOk, OnOk, OnErr, IsErr};
    ghost use Rattle.sd_base.specs.Faults.{CountsOne, Rose, HasCause};
    ghost use Rattle.sd_base.specs.Files.{Lacks, told_with};
    ghost use Rattle.sd_base.specs.FaultPlan.{calls_of, GoesByPlan, IsPlanned};
    ghost use Rattle.sd_base.specs.Shelf.{NoFile, Reading, Writing, IsReading, IsWriting, TakesNext, appended};
    ghost use Rattle.sd_base.specs.MemoryShown.{memory_hand, memory_piece, memory_plan, told};
    ghost use Rattle.sd_base.specs.MemoryShown.{memory_unfinished};
    ghost use Rattle.sd_base.specs.MemoryShown.{read_faults_of, write_faults_of, refusals_of};
    ghost use Rattle.sd_base.specs.declared.memory.fault_plan.ShelfCall.TheVariants as calls;
    ghost use Rattle.sd_base.specs.Memory.{files_of, hand_of};
    ghost use Rattle.std.specs.Prelude.{◌∷◌};
    ghost use Rattle.sd_base.specs.Asked.{ToRead, ToWrite, Adds, AsksNothing, AreCalls};
    ghost use Rattle.sd_base.specs.MemoryShown.{memory_asked};

    ghost files = { λ shelf. Some (files_of shelf.files.items) };

    ghost hand = { λ shelf. hand_of shelf.hand };

    ghost read_faults = { λ shelf. shelf.read_faults };

    ghost write_faults = { λ shelf. shelf.write_faults };

    ghost unfinished = { λ shelf. hand_of shelf.unfinished };

    // the calls that begin a reading or a writing are counted
    ghost asked = { λ shelf requests. AreCalls shelf.plan requests };

    fn start_read(&mut self, name: &str) -> Result<(), Failed>
        requires { memory_hand self.old ≡ NoFile }
        ensures ok { OnOk result (memory_hand self.new ≡ Reading name.now 0) }
        ensures err { OnErr result (memory_hand self.new ≡ NoFile) }
        ensures files { told self.new ≡ told self.old }
        ensures lacks { Lacks (told self.old) name.now
            → IsErr result × (read_faults_of self.new ≡ read_faults_of self.old) }
        ensures cause { OnErr result (
            Lacks (told self.old) name.now
            ⊎ Rose (read_faults_of self.old) (read_faults_of self.new)) }
        ensures counts { Lacks (told self.old) name.now
            ⊎ CountsOne (read_faults_of self.old) (read_faults_of self.new) result }
        ensures read_faults { read_faults_of self.old ≤ read_faults_of self.new }
        ensures write_faults { write_faults_of self.new ≡ write_faults_of self.old }
        ensures unfinished { memory_unfinished self.new ≡ memory_unfinished self.old }
        ensures plan { GoesByPlan (memory_plan self.old) calls.StartRead (memory_plan self.new)
            result }
        ensures unplanned { OnErr result (
            IsPlanned (memory_plan self.old) calls.StartRead
            (calls_of (memory_plan self.new) calls.StartRead)
            ⊎ Lacks (told self.old) name.now
            ⊎ Rose (refusals_of self.old) (refusals_of self.new)) }
        ensures asked { Adds memory_asked self.old self.new (ToRead name.now ∷ []) }
    {
        let planned = self.plan.fails(ShelfCall::StartRead);
        let Some(_) = find_bytes(&self.files, name) else {
            return Err(Failed);
        };
        if planned {
            return Err(count_fault(&mut self.read_faults));
        }
        let Ok(held) = Name::copy_of(self.alloc, name) else {
            return Err(count_refusal(&mut self.refusals, &mut self.read_faults));
        };
        self.hand = InHand::Read(held, 0);
        Ok(())
    }

    fn read(&mut self, into: &mut [u8]) -> Result<usize, Failed>
        requires in_hand { IsReading (memory_hand self.old) }
        requires room { 0 < length into.old }
        ensures within { IfOk result (λ count. count ≤ length into.new) }
        ensures ok { IfOk result (λ count.
            TakesNext (told self.old) (memory_hand self.old) count into.new
            (memory_hand self.new)) }
        ensures err { OnErr result (memory_hand self.new ≡ NoFile) }
        ensures files { told self.new ≡ told self.old }
        ensures cause { HasCause (read_faults_of self.old) (read_faults_of self.new) result }
        ensures counts { CountsOne (read_faults_of self.old) (read_faults_of self.new) result }
        ensures write_faults { write_faults_of self.new ≡ write_faults_of self.old }
        ensures unfinished { memory_unfinished self.new ≡ memory_unfinished self.old }
        ensures plan { GoesByPlan (memory_plan self.old) calls.Read (memory_plan self.new) result }
        ensures planned { IsErr result
            → IsPlanned (memory_plan self.old) calls.Read
            (calls_of (memory_plan self.new) calls.Read) }
        ensures asked { AsksNothing memory_asked self.old self.new }
    {
        if self.plan.fails(ShelfCall::Read) {
            self.hand = InHand::Nothing;
            return Err(count_fault(&mut self.read_faults));
        }
        let InHand::Read(name, offset) = &mut self.hand else {
            unreachable!()
        };
        let Some(bytes) = find_bytes(&self.files, name.as_str()) else {
            return Ok(0);
        };
        let count = copy_next(bytes, *offset, into);
        *offset += count;
        Ok(count)
    }

    fn start_write(&mut self, name: &str) -> Result<(), Failed>
        requires { memory_hand self.old ≡ NoFile }
        ensures ok { OnOk result (
            (memory_hand self.new ≡ Writing name.now)
            × (told self.new ≡ told_with (told self.old) name.now [])) }
        ensures err { OnErr result (
            (memory_hand self.new ≡ NoFile) × (told self.new ≡ told self.old)) }
        ensures read_faults { read_faults_of self.new ≡ read_faults_of self.old }
        ensures cause { HasCause (write_faults_of self.old) (write_faults_of self.new) result }
        ensures counts { CountsOne (write_faults_of self.old) (write_faults_of self.new) result }
        ensures unfinished { memory_unfinished self.new ≡ memory_unfinished self.old }
        ensures plan { GoesByPlan (memory_plan self.old) calls.StartWrite (memory_plan self.new)
            result }
        ensures unplanned { OnErr result (
            IsPlanned (memory_plan self.old) calls.StartWrite
            (calls_of (memory_plan self.new) calls.StartWrite)
            ⊎ Rose (refusals_of self.old) (refusals_of self.new)) }
        ensures asked { Adds memory_asked self.old self.new (ToWrite name.now ∷ []) }
    {
        if self.plan.fails(ShelfCall::StartWrite) {
            return Err(count_fault(&mut self.write_faults));
        }
        let Ok(held) = Name::copy_of(self.alloc, name) else {
            return Err(count_refusal(&mut self.refusals, &mut self.write_faults));
        };
        if make_empty(self.alloc, &mut self.files, name).is_err() {
            return Err(count_refusal(&mut self.refusals, &mut self.write_faults));
        }
        self.hand = InHand::Write(held);
        Ok(())
    }

    fn append(&mut self, piece: &[u8]) -> Result<usize, Failed>
        requires in_hand { IsWriting (memory_hand self.old) }
        requires at_least_one { 0 < length piece.now }
        ensures within { IfOk result (λ count. (0 < count) × (count ≤ length piece.now)) }
        ensures ok { IfOk result (λ count.
            (memory_hand self.new ≡ memory_hand self.old)
            × (told self.new
            ≡ appended (told self.old) (memory_hand self.old) (take count piece.now))) }
        ensures err { OnErr result (
            (memory_hand self.new ≡ NoFile) × (told self.new ≡ told self.old)) }
        ensures read_faults { read_faults_of self.new ≡ read_faults_of self.old }
        ensures cause { HasCause (write_faults_of self.old) (write_faults_of self.new) result }
        ensures counts { CountsOne (write_faults_of self.old) (write_faults_of self.new) result }
        ensures piece { IfOk result (λ count. count
            ≡ min (length piece.now) (memory_piece self.old)) }
        ensures unfinished { memory_unfinished self.new ≡ memory_unfinished self.old }
        ensures plan { GoesByPlan (memory_plan self.old) calls.Append (memory_plan self.new)
            result }
        ensures unplanned { OnErr result (
            IsPlanned (memory_plan self.old) calls.Append
            (calls_of (memory_plan self.new) calls.Append)
            ⊎ Rose (refusals_of self.old) (refusals_of self.new)) }
        ensures asked { AsksNothing memory_asked self.old self.new }
    {
        if self.plan.fails(ShelfCall::Append) {
            self.hand = InHand::Nothing;
            return Err(count_fault(&mut self.write_faults));
        }
        let InHand::Write(name) = &self.hand else {
            unreachable!()
        };
        let count = piece.len().min(self.piece);
        // The file in hand is there, since `start_write` made it: memory was refused.
        if extend_file(&mut self.files, name.as_str(), &piece[..count]).is_err() {
            self.hand = InHand::Nothing;
            return Err(count_refusal(&mut self.refusals, &mut self.write_faults));
        }
        Ok(count)
    }

    fn finish(&mut self) -> Result<(), Failed>
        requires { memory_hand self.old ≢ NoFile }
        ensures hand { memory_hand self.new ≡ NoFile }
        ensures files { told self.new ≡ told self.old }
        ensures of_read { IsReading (memory_hand self.old)
            → HasCause (read_faults_of self.old) (read_faults_of self.new) result
            × (write_faults_of self.new ≡ write_faults_of self.old) }
        ensures of_write { IsWriting (memory_hand self.old)
            → HasCause (write_faults_of self.old) (write_faults_of self.new) result
            × (read_faults_of self.new ≡ read_faults_of self.old) }
        ensures counts_read { IsReading (memory_hand self.old)
            → CountsOne (read_faults_of self.old) (read_faults_of self.new) result }
        ensures counts_write { IsWriting (memory_hand self.old)
            → CountsOne (write_faults_of self.old) (write_faults_of self.new) result }
        ensures finished { OnOk result (memory_unfinished self.new ≡ memory_unfinished self.old) }
        ensures unfinished { OnErr result (memory_unfinished self.new ≡ memory_hand self.old) }
        ensures plan { GoesByPlan (memory_plan self.old) calls.Finish (memory_plan self.new)
            result }
        ensures planned { IsErr result
            → IsPlanned (memory_plan self.old) calls.Finish
            (calls_of (memory_plan self.new) calls.Finish) }
        ensures asked { AsksNothing memory_asked self.old self.new }
    {
        let held = mem::replace(&mut self.hand, InHand::Nothing);
        if !self.plan.fails(ShelfCall::Finish) {
            return Ok(());
        }
        if matches!(held, InHand::Read(_, _)) {
            self.unfinished = held;
            return Err(count_fault(&mut self.read_faults));
        }
        self.unfinished = held;
        Err(count_fault(&mut self.write_faults))
    }
}
