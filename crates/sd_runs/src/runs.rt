// The runs of one arena.
use crate::TakeError;
use crate::heads::{NONE, make_heads};
use crate::marks::{NO_START, START, free_mark};
use crate::ordering::chain_marked;
use crate::writing::{extend, write};
use std::alloc::Global;
use std::marker::Model;

/// Runs of pairs in one arena. A free run is used again for a list of its own length only: the last
/// given first, or, of two elements, in order where they were put in order.
///
/// A run keeps its start and its length for good: runs are neither split nor joined. A free run keeps
/// the start of the next free run of its length in its own first element, so whether a run is live is
/// told by the chains of free runs, and giving one back writes an element, a mark and a head.
#[derive(Drop)]
pub struct Runs {
    // the elements of all runs, live or free: the next new run starts behind them
    elements: Vec<(u32, u32)>,
    // for each length the start of the free run that is taken next, or `NONE`
    heads: Vec<u32>,
    // the sum of the lengths of the live runs
    used: u32,
    // what the number of elements never passes
    bound: u32,
    // for each element whether a run starts there, so that the fields tell the runs, and whether that is
    // a free one of two elements, so that these are put in order by one walk along the marks
    marks: Vec<u8>,
}

impl Model for Runs {
    ghost use Rattle.std.specs.Prelude.{length};
    ghost use Rattle.sd_runs.specs.Arena.{Arena, arena_code};
    ghost use Rattle.sd_runs.specs.Fields.{filled_map, stacks_of, lists_of};
    ghost use Rattle.sd_runs.specs.Stored.{HoldsRuns, AreMarked};

    ghost Value = { Arena };

    ghost coded = { arena_code };

    ghost view = { λ r. record {
      live = filled_map (lists_of r.elements.items r.marks.items r.heads.items);
      free = filled_map (stacks_of r.elements.items r.heads.items);
      extent = length r.elements.items;
      bound = r.bound;
    } };

    ghost invariant = { λ r. HoldsRuns r.elements.items r.marks.items r.heads.items r.used r.bound
        × AreMarked r.marks.items (stacks_of r.elements.items r.heads.items)
        (length r.elements.items) };
}

impl Runs {
    ghost use Rattle.std.specs.Prelude.{◌≡◌, ◌+◌, ◌<◌, ◌≤◌, ◌^◌, [], length, OnOk};
    ghost use Rattle.std.specs.Prelude.{OnErr, IfOk, IfErr, Some, None};
    ghost use Rattle.std.specs.FinMap.{get};
    ghost use Rattle.sd_runs.specs.Arena.{IsArena, free_of, live_length, live_total};
    ghost use Rattle.sd_runs.specs.Taking.{empty_arena, first, next_start, taken};
    ghost use Rattle.sd_runs.specs.Taking.{given_back, KeepsLive, IsFull, IsRefusal, IsReordered};

    /// An arena of no runs, for at most `bound` elements, live or free. Takes no memory.
    pub fn new(alloc: Global, bound: u32) -> Runs
        requires { bound < 2 ^ 31 }
        ensures empty { result ≡ empty_arena bound }
        ensures arena { IsArena result }
    {
        Runs {
            elements: Vec::new(alloc),
            heads: Vec::new(alloc),
            used: 0,
            bound,
            marks: Vec::new(alloc),
        }
    }

    /// Makes a run of this list, of one element or more, live and answers its start: that of the
    /// first free run of its length (given last, or first in order), or else the extent, which grows.
    /// After an error nothing is changed.
    #[inline(always)]
    pub fn take(&mut self, list: &[(u32, u32)]) -> Result<u32, TakeError>
        requires { 0 < length list.now }
        ensures start { IfOk result (λ start. start ≡ next_start self.old (length list.now)) }
        ensures fresh { IfOk result (λ start. get self.old.live start ≡ None) }
        ensures ok { OnOk result (self.new ≡ taken self.old list.now) }
        ensures live { IfOk result (λ start. get self.new.live start ≡ Some list.now) }
        ensures kept { OnOk result (KeepsLive self.old self.new) }
        ensures used { OnOk result (live_total self.new ≡ live_total self.old + length list.now) }
        ensures arena { IsArena self.new }
        ensures room { OnOk result (¬ IsFull self.old (length list.now)) }
        ensures err { OnErr result (self.new ≡ self.old) }
        ensures full { IfErr result (λ e. IsRefusal self.old (length list.now) e) }
    {
        let length = list.len();
        match self.first_free(length) {
            Some(start) => {
                self.reuse(start, list);
                Ok(start)
            }
            None => {
                let elements = self.elements.len() as u64 + length as u64;
                if elements > u64::from(self.bound) {
                    return Err(TakeError::ArenaFull { elements });
                }
                self.grow(list)
            }
        }
    }

    // The free run of this length that is taken next: the one given last, or the first in order.
    #[inline(always)]
    fn first_free(&self, length: usize) -> Option<u32>
        ensures { result ≡ first (free_of self.now length) }
    {
        if length < self.heads.len() {
            let head = self.heads[length];
            if head == NONE { None } else { Some(head) }
        } else {
            None
        }
    }

    // Makes the free run of its length that is taken next live, with this list.
    #[inline(always)]
    fn reuse(&mut self, start: u32, list: &[(u32, u32)])
        requires at_least_one { 0 < length list.now }
        requires kept { first (free_of self.old (length list.now)) ≡ Some start }
        ensures fresh { get self.old.live start ≡ None }
        ensures ok { self.new ≡ taken self.old list.now }
        ensures arena { IsArena self.new }
    {
        let length = list.len();
        let start = start as usize;
        self.heads[length] = self.elements[start].0;
        write(&mut self.elements, start, list);
        self.marks[start] = START;
        self.used += length as u32;
    }

    // A new run at the end of the arena. What may be refused comes before the fields change that are
    // seen.
    #[inline(never)]
    fn grow(&mut self, list: &[(u32, u32)]) -> Result<u32, TakeError>
        requires at_least_one { 0 < length list.now }
        requires kept { free_of self.old (length list.now) ≡ [] }
        requires room { self.old.extent + length list.now ≤ self.old.bound }
        ensures start { IfOk result (λ start. start ≡ self.old.extent) }
        ensures fresh { get self.old.live self.old.extent ≡ None }
        ensures ok { OnOk result (self.new ≡ taken self.old list.now) }
        ensures err { OnErr result (self.new ≡ self.old) }
        ensures arena { IsArena self.new }
        ensures memory { IfErr result (λ e. e ≡ TakeError.OutOfMemory) }
    {
        make_heads(&mut self.heads, list.len())?;
        self.marks.reserve(list.len())?;
        let start = self.elements.len() as u32;
        extend(&mut self.elements, list)?;
        // room for the marks was reserved before the arena grew, so these can't fail
        let _ = self.marks.push(START);
        let _ = self.marks.resize(self.elements.len(), NO_START);
        self.used += list.len() as u32;
        Ok(start)
    }

    /// Frees the live run of this length that starts here. Takes no memory.
    pub fn give(&mut self, start: u32, length: u32)
        requires { live_length self.old start ≡ Some length }
        ensures given_back { self.new ≡ given_back self.old start length }
        ensures arena { IsArena self.new }
    {
        self.elements[start as usize] = (self.heads[length as usize], 0);
        self.heads[length as usize] = start;
        self.marks[start as usize] = free_mark(length);
        self.used -= length;
    }

    /// May change the order in which free runs of two elements are taken, and changes nothing else. In
    /// which order they come then is chosen for speed, and no caller may build on it. Takes no memory and
    /// cannot fail.
    pub fn order_twos(&mut self, from: u32)
        ensures reordered { IsReordered self.old self.new 2 }
        ensures arena { IsArena self.new }
    {
        // Those from `from` on come in the order of their starts, and then those before it. That takes a
        // step for each element of the arena, and none where no run of two is free.
        if self.heads.len() > 2 && self.heads[2] != NONE {
            let from = (from as usize).min(self.marks.len());
            self.heads[2] = chain_marked(&self.marks, &mut self.elements, from);
        }
    }

    /// The list of the live run of this length that starts here.
    pub fn get(&self, start: u32, length: u32) -> &[(u32, u32)]
        requires { live_length self.now start ≡ Some length }
        ensures { get self.now.live start ≡ Some result.now }
    {
        let start = start as usize;
        &self.elements[start..start + length as usize]
    }

    /// The sum of the lengths of the live runs.
    pub fn used(&self) -> u32
        ensures used { result ≡ live_total self.now }
        ensures arena { IsArena self.now }
    {
        self.used
    }

    /// The number of all elements, live or free.
    pub fn extent(&self) -> u32
        ensures extent { result ≡ self.now.extent }
        ensures arena { IsArena self.now }
    {
        self.elements.len() as u32
    }
}
