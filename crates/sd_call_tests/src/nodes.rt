// Which numbers a table of nodes gives, which no contract tells. The helpers have no contract, so a test has nothing
// to prove.
use crate::expect::{are_numbers, are_so};
use sd_runs::TakeError;
use sd_unique::{Found, Nodes};
use std::alloc::Global;
use std::test::Fail;

// The list of the nodes of these tests at a place.
fn list_of(place: u32) -> [(u32, u32); 2] {
    [(place, 1), (place, 0)]
}

// Makes a node at this place, if there is none.
fn make(nodes: &mut Nodes, place: u32) -> Result<Found, TakeError> {
    nodes.find_or_insert(place, &list_of(place))
}

// Makes a node at each of these places.
fn make_all(nodes: &mut Nodes, from: u32, to: u32) -> Result<(), TakeError> {
    for place in from..to {
        make(nodes, place)?;
    }
    Ok(())
}

// The number of the node of this place, if there is one.
fn at(nodes: &Nodes, place: u32) -> Option<u32> {
    nodes.find(place, &list_of(place))
}

// Counts one use of the node of this place, if it has none.
fn use_once(nodes: &mut Nodes, place: u32) {
    if let Some(node) = nodes.find(place, &list_of(place)) {
        if nodes.uses(node) == 0 {
            nodes.add_use(node);
        }
    }
}

// Counts one use less of the node of this place, if it has any.
fn drop_one(nodes: &mut Nodes, place: u32) {
    if let Some(node) = nodes.find(place, &list_of(place)) {
        if nodes.uses(node) > 0 {
            nodes.drop_use(node);
        }
    }
}

// Retires so many idle nodes, as far as there are.
fn retire_idle(nodes: &mut Nodes, count: u32) {
    for _step in 0..count {
        let Some(node) = nodes.idle() else {
            return;
        };
        nodes.retire(node);
    }
}

// Counts one use of each node below 40,000 at a multiple of `step`.
fn use_by_step(nodes: &mut Nodes, step: u32) {
    for place in 0..40_000_u32 {
        if step > 0 && place % step == 0 {
            use_once(nodes, place);
        }
    }
}

// A table of 40,000 nodes, of which those at the multiples of `step` have a use.
fn used_by_step(alloc: Global, step: u32) -> Result<Nodes, TakeError> {
    let mut nodes = Nodes::new(alloc, 100_000)?;
    make_all(&mut nodes, 0, 40_000)?;
    use_by_step(&mut nodes, step);
    let _ = nodes.idle();
    Ok(nodes)
}

// Drops the use of so many nodes, in an order that is not that of their places.
fn drop_in_order(nodes: &mut Nodes, count: u32) {
    for step in 0..count.min(40_000) {
        drop_one(nodes, step * 37 % 40_000);
    }
}

// Whether each of these places has a node.
fn are_all(nodes: &Nodes, from: u32, to: u32) -> bool {
    for place in from..to {
        if at(nodes, place).is_none() {
            return false;
        }
    }
    true
}

// Inserts a node, if there is none of this place and list.
fn insert(nodes: &mut Nodes, place: u32, list: &[(u32, u32)]) -> Result<Option<u32>, TakeError> {
    if list.is_empty() || nodes.find(place, list).is_some() {
        return Ok(None);
    }
    Ok(Some(nodes.insert(place, list)?))
}

// Whether the answer is that the arena has no room for a fourth element.
fn is_full(answer: Result<Option<u32>, TakeError>) -> bool {
    answer == Err(TakeError::ArenaFull { elements: 4 })
}

// Whether the answer is this number.
fn is_number(answer: Result<Option<u32>, TakeError>, number: u32) -> bool {
    answer == Ok(Some(number))
}

// The start of a run that was taken.
fn start_of(run: Result<(u32, u32), TakeError>) -> Result<Option<u32>, TakeError> {
    Ok(Some(run?.0))
}

// An arena of three elements: whether of two lists of two the first one is the node 0, and the second one has no room;
// and whether a run of two has none, and one of one starts behind the list.
fn three(alloc: Global) -> Result<[bool; 4], TakeError> {
    let mut nodes = Nodes::new(alloc, 3)?;
    let first = insert(&mut nodes, 1, &[(2, 3), (4, 5)]);
    let second = insert(&mut nodes, 1, &[(2, 5), (4, 3)]);
    let two = start_of(nodes.take_run(&[(6, 7), (8, 9)]));
    let one = start_of(nodes.take_run(&[(6, 7)]));
    Ok([
        is_number(first, 0),
        is_full(second),
        is_full(two),
        is_number(one, 2),
    ])
}

/// Of an arena of three elements a list of two is taken, and there is no room for two more, as a node or as a run. A
/// run of one is taken.
#[test]
fn three_elements(rt: HostRuntime) -> Result<(), Fail> {
    are_so(&three(rt.alloc())?)
}

// What is idle, how many elements there are, and how many records.
fn counts(nodes: &mut Nodes) -> [Option<u32>; 3] {
    [nodes.idle(), Some(nodes.used()), Some(nodes.records())]
}

// Retires all nodes but one in an order of their own, and makes as many others. Answers the counts between and behind.
fn made_again(nodes: &mut Nodes) -> Result<[[Option<u32>; 3]; 2], TakeError> {
    drop_in_order(nodes, 39_999);
    retire_idle(nodes, 40_000);
    let between = counts(nodes);
    make_all(nodes, 40_000, 79_999)?;
    Ok([between, counts(nodes)])
}

// The counts, as their test wants them.
fn are_counts(nodes: &mut Nodes) -> Result<bool, TakeError> {
    let between = [None, Some(2), Some(40_000)];
    let behind = [Some(39_998), Some(80_000), Some(40_000)];
    Ok(made_again(nodes)? == [between, behind])
}

// The numbers of the first two, the last and the one that stayed, where the counts are right and all others are found.
fn numbers_again(nodes: &mut Nodes) -> Result<[Option<u32>; 4], TakeError> {
    if !are_counts(nodes)? || !are_all(nodes, 40_000, 79_999) {
        return Ok([None; 4]);
    }
    let (first, second) = (at(nodes, 40_000), at(nodes, 40_001));
    Ok([first, second, at(nodes, 79_998), at(nodes, 39_963)])
}

// The same of a new table.
fn as_many(alloc: Global) -> Result<[Option<u32>; 4], TakeError> {
    let mut nodes = used_by_step(alloc, 1)?;
    numbers_again(&mut nodes)
}

/// Of 40,000 nodes all but one are retired, in an order of their own. As many others get their numbers, from that of
/// the last one on and then the least first, and runs: each is found, and the table is as large as before. The last one
/// that was made is the first that is idle.
#[test]
fn as_many_again(rt: HostRuntime) -> Result<(), Fail> {
    let wanted = [Some(39_999), Some(0), Some(39_998), Some(39_963)];
    are_numbers(&as_many(rt.alloc())?, &wanted)
}

// In the midst of a sweep: the numbers of a dead node, a used one and an idle one, and that of a new one.
fn in_the_midst(nodes: &mut Nodes) -> Result<[Option<u32>; 4], TakeError> {
    retire_idle(nodes, 5_000);
    let (dead, used, idle) = (at(nodes, 39_998), at(nodes, 39_996), at(nodes, 2));
    make(nodes, 50_000)?;
    let new = at(nodes, 50_000);
    use_once(nodes, 50_000);
    Ok([dead, used, idle, new])
}

// Behind that sweep: the counts, if just what is used is found, and the numbers of the new node and the next one.
fn behind_it(nodes: &mut Nodes) -> Result<[Option<u32>; 5], TakeError> {
    retire_idle(nodes, 40_000);
    let [idle, used, _] = counts(nodes);
    if !are_fourths(nodes) {
        return Ok([None; 5]);
    }
    make(nodes, 50_001)?;
    let (new, next) = (at(nodes, 50_000), at(nodes, 50_001));
    Ok([idle, used, new, next, Some(nodes.records())])
}

// Whether of the places below 40,000 just every fourth has a node.
fn are_fourths(nodes: &Nodes) -> bool {
    for place in 0..40_000_u32 {
        if at(nodes, place).is_some() != (place % 4 == 0) {
            return false;
        }
    }
    true
}

// The numbers behind a sweep, where those in its midst are right.
fn numbers_behind(nodes: &mut Nodes) -> Result<[Option<u32>; 5], TakeError> {
    let midst = [None, Some(39_996), Some(2), Some(39_999)];
    if in_the_midst(nodes)? == midst {
        return behind_it(nodes);
    }
    Ok([None; 5])
}

// The same of a new table.
fn found(alloc: Global) -> Result<[Option<u32>; 5], TakeError> {
    let mut nodes = used_by_step(alloc, 4)?;
    numbers_behind(&mut nodes)
}

/// Of 40,000 nodes all but every fourth are retired in a sweep. In its midst, where the buckets have no chains any
/// more, nodes are found by their keys, and a new one gets the greatest number that is free; behind it the nodes that
/// are used are found and no others, and the next new one gets the least number that is free.
#[test]
fn found_within_a_sweep(rt: HostRuntime) -> Result<(), Fail> {
    let wanted = [None, Some(20_002), Some(39_999), Some(1), Some(40_000)];
    are_numbers(&found(rt.alloc())?, &wanted)
}

// Gives the node of a place another place, if no node is there with its list.
fn move_to(nodes: &mut Nodes, place: u32, other: u32) {
    if let Some(node) = nodes.find(place, &list_of(place)) {
        nodes.unlink(node);
    }
    if let Some(node) = nodes.first_detached() {
        nodes.retag(node, other);
    }
    if let Some(node) = nodes.first_detached() {
        if nodes.find(nodes.place(node), nodes.list(node)).is_none() {
            nodes.relink(node);
        }
    }
}

// A node is moved in the midst of a sweep: its number where it is then, the counts behind the sweep, and its numbers
// where it is and where it was.
fn moved_in_the_midst(nodes: &mut Nodes) -> [Option<u32>; 5] {
    retire_idle(nodes, 5_000);
    move_to(nodes, 28_464, 50_000);
    let midst = nodes.find(50_000, &list_of(28_464));
    retire_idle(nodes, 40_000);
    let [idle, used, _] = counts(nodes);
    let here = nodes.find(50_000, &list_of(28_464));
    [midst, idle, used, here, at(nodes, 28_464)]
}

// The same of a new table.
fn moved(alloc: Global) -> Result<[Option<u32>; 5], TakeError> {
    let mut nodes = used_by_step(alloc, 4)?;
    Ok(moved_in_the_midst(&mut nodes))
}

/// In the midst of a large sweep, where the buckets have no chains, a node is unlinked that stood behind a dead one in
/// its bucket, gets another place and is linked again: it is found there at once and behind the sweep, and no more
/// where it was.
#[test]
fn moved_within_a_sweep(rt: HostRuntime) -> Result<(), Fail> {
    let wanted = [Some(28_464), None, Some(20_000), Some(28_464), None];
    are_numbers(&moved(rt.alloc())?, &wanted)
}

// 6,000 nodes come on the stack and 2,000 of them are used again. The counts behind the sweep, and the numbers of two
// new nodes.
fn few_of_many(nodes: &mut Nodes) -> Result<[Option<u32>; 4], TakeError> {
    drop_in_order(nodes, 6_000);
    use_again(nodes);
    retire_idle(nodes, 40_000);
    let [idle, used, _] = counts(nodes);
    make_all(nodes, 50_000, 50_002)?;
    Ok([idle, used, at(nodes, 50_000), at(nodes, 50_001)])
}

// The same of a new table.
fn few(alloc: Global) -> Result<[Option<u32>; 4], TakeError> {
    let mut nodes = used_by_step(alloc, 1)?;
    few_of_many(&mut nodes)
}

// Counts one use of 2,000 of the nodes that lost theirs in order.
fn use_again(nodes: &mut Nodes) {
    for step in 4_000..6_000_u32 {
        use_once(nodes, step * 37 % 40_000);
    }
}

/// A sweep is large where many nodes stood on the stack in it, also if those that die are few and stand below the
/// others: behind it the free numbers are in order.
#[test]
fn many_on_the_stack(rt: HostRuntime) -> Result<(), Fail> {
    let wanted = [None, Some(72_000), Some(0), Some(28)];
    are_numbers(&few(rt.alloc())?, &wanted)
}
