//! What a move does to the lists of nodes: a node gets another list, whose former run stays as a loose one, and a loose
//! run is put back or given back.

ghost use Rattle.std.specs.Prelude.{◌≡◌, ◌+◌, ℕ, List, length, Some, IfOk, IfErr, OnErr};
ghost use Rattle.std.specs.Option.{IsSome};
ghost use Rattle.std.specs.FinMap.{get};
ghost use Rattle.std.specs.List.Sorted.{IsPermutation};
ghost use Rattle.sd_manager.specs.Table.{uses_of};
ghost use Rattle.sd_manager.specs.Valid.{IsTable};
ghost use Rattle.sd_manager.specs.Making.{IsRefusal, KeepsRule};
ghost use Rattle.sd_manager.specs.Moving.{FitsNode, IsAscending, IsAbsent};
ghost use Rattle.sd_manager.specs.Moving.{IsRewritten, IsPutBack, IsDiscarded, IsGivenBack};

use crate::manager::Manager;
use crate::node_id::NodeId;
use crate::pairs::sort_into;
use crate::recount::{recount, uncount};
use crate::uses::{add_uses, drop_run_uses, drop_uses};
use sd_runs::TakeError;
use sd_vtree::VNode;

impl Manager {
    /// Gives a loose run back, by its start and its length: it is free then, and its list uses no node any more.
    pub fn give_run(&mut self, run: (u32, u32))
        requires loose { (list : List (ℕ × ℕ)) × (get self.old.loose run.0 ≡ Some list)
            × (length list ≡ run.1) }
        ensures given_back { IsGivenBack self.old self.new run.0 run.1 }
        ensures table { IsTable self.new }
    {
        drop_run_uses(&mut self.nodes, run);
        self.nodes.give_run(run);
    }

    /// Removes a detached node that no list, no loose run and no root uses. Its number and its run are free then.
    pub fn discard(&mut self, number: u32)
        requires moving { IsSome self.old.moving }
        requires node { IsSome (get self.old.detached number) }
        requires unused { uses_of self.old (2050 + number) ≡ 0 }
        ensures discarded { IsDiscarded self.old self.new number }
        ensures table { IsTable self.new }
    {
        uncount(&mut self.counts, &self.nodes, number);
        drop_uses(&mut self.nodes, number);
        self.nodes.remove(number);
    }

    /// Gives a detached node these elements, links it at its place, and answers the run that it had, by its start and
    /// its length: a loose one from now on, which holds the nodes of its list until it is put back or given back.
    ///
    /// ArenaFull where the elements find no room in the arena, and OutOfMemory where memory runs out; then nothing is
    /// changed.
    pub fn rewrite(
        &mut self,
        number: u32,
        elements: &[(NodeId, NodeId)],
    ) -> Result<(u32, u32), TakeError>
        requires moving { IsSome self.old.moving }
        requires node { IsSome (get self.old.detached number) }
        requires fits { (k : ℕ × List (ℕ × ℕ)) → get self.old.detached number ≡ Some k
            → FitsNode self.old k.0 elements.now }
        requires absent { (k : ℕ × List (ℕ × ℕ)) (list : List (ℕ × ℕ))
            → get self.old.detached number ≡ Some k → IsPermutation elements.now list →
            IsAscending list → IsAbsent self.old k.0 list }
        ensures ok { IfOk result (λ run. IsRewritten self.old self.new number elements.now run.0
            run.1) }
        ensures err { OnErr result (self.new ≡ self.old) }
        ensures full { IfErr result (λ e. IsRefusal self.old (length elements.now) e) }
        ensures rule { IfErr result (λ e. KeepsRule self.new e) }
        ensures table { IsTable self.new }
    {
        sort_into(&mut self.sorted, elements)?;
        let list = self.sorted.as_slice();
        let run = match self.nodes.take_run(list) {
            Ok(run) => run,
            Err(error) => return Err(error),
        };
        add_uses(&mut self.nodes, list);
        let former = self.nodes.replace_run(number, run);
        recount(&mut self.counts, &self.nodes, number, former);
        self.nodes.relink(number);
        Ok(former)
    }

    /// Links a detached node at a place with the list of a loose run, which is loose no more. The run that the node had
    /// is free then. Takes no memory.
    pub fn put_back(&mut self, number: u32, place: VNode, run: (u32, u32))
        requires moving { IsSome self.old.moving }
        requires node { IsSome (get self.old.detached number) }
        requires run { (list : List (ℕ × ℕ)) × (get self.old.loose run.0 ≡ Some list)
            × (length list ≡ run.1) }
        requires fits { (list : List (ℕ × ℕ)) → get self.old.loose run.0 ≡ Some list
            → FitsNode self.old place list × IsAscending list }
        requires absent { (list : List (ℕ × ℕ)) → get self.old.loose run.0 ≡ Some list
            → IsAbsent self.old place list }
        ensures put_back { IsPutBack self.old self.new number place run.0 }
        ensures table { IsTable self.new }
    {
        drop_uses(&mut self.nodes, number);
        let former = self.nodes.replace_run(number, run);
        recount(&mut self.counts, &self.nodes, number, former);
        self.nodes.give_run(former);
        self.nodes.retag(number, place.0);
        self.nodes.relink(number);
    }
}
