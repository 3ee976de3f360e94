// What the readers keep, where a run shows the value alone: the nodes of an SDD file, the literals of a formula, and
// the numbers of a job.
use crate::expect::are_so;
use sd_cache::Cache;
use sd_file::{FileNode, SddFile, build, read_sdd};
use sd_formula::{Formula, GenerateError, Kind, generate, read_dimacs};
use sd_manager::Manager;
use sd_runs::TakeError;
use sd_vfile::{Ids, VtreeFault, count_variables, read_ids};
use sd_vtree::Vtree;
use sd_words::read_words;
use std::alloc::{AllocError, Global};
use std::test::Fail;

/// A file of another tool: its ids have a gap, and its decomposition is not compressed.
const ELSEWHERE: &str = "c made elsewhere\nsdd 4\nL 0 9 1\nL 1 9 -1\nL 3 7 2\nD 2 8 2 0 3 1 3\n";

/// The conjunction of the variables 1 and 2 in one pair, which is no partition.
const ONE_PAIR: &str = "sdd 3\nL 0 0 1\nL 1 2 2\nD 2 1 1 0 1\n";

// The file of a short text over two variables.
fn file_of(alloc: Global, text: &str) -> Option<SddFile> {
    let bytes = text.as_bytes();
    if bytes.len() > 1000 {
        return None;
    }
    read_sdd(alloc, bytes, 2).ok()
}

// The id of a node, and what it is.
fn node_of(file: &SddFile, index: u32) -> Option<(u64, FileNode)> {
    if index < file.nodes() {
        Some((file.id(index), file.node(index)))
    } else {
        None
    }
}

// The two pairs of a node that has two.
fn pairs_of(file: &SddFile, index: u32) -> Option<[(u32, u32); 2]> {
    if index >= file.nodes() {
        return None;
    }
    match file.node(index) {
        FileNode::Decomposition { vtree: _, count } => {
            if count == 2 {
                Some([file.pair(index, 0), file.pair(index, 1)])
            } else {
                None
            }
        }
        FileNode::Constant(_) | FileNode::Literal { .. } => None,
    }
}

// Whether the second node of a file is the negative literal of a file of another tool.
fn has_literal(file: &SddFile) -> bool {
    let literal = FileNode::Literal {
        vtree: 9,
        literal: -1,
    };
    node_of(file, 1) == Some((1, literal))
}

// Whether the fourth node of a file is its decomposition.
fn has_decomposition(file: &SddFile) -> bool {
    let last = FileNode::Decomposition { vtree: 8, count: 2 };
    node_of(file, 3) == Some((2, last))
}

// Whether the file of another tool has its four nodes.
fn is_read(file: &SddFile) -> [bool; 4] {
    let pairs = pairs_of(file, 3) == Some([(0, 2), (1, 2)]);
    let named = file.variables() == 2 && file.nodes() == 4;
    [named, has_literal(file), has_decomposition(file), pairs]
}

/// Ids with a gap, and pairs by the places of their nodes.
#[test]
fn file_of_another_tool(rt: HostRuntime) -> Result<(), Fail> {
    let file = file_of(rt.alloc(), ELSEWHERE).ok_or("not read")?;
    are_so(&is_read(&file))
}

// The code of the node of a file in an arena of at most so many elements, or why there is none.
fn built(alloc: Global, file: &SddFile, bound: u32) -> Result<u32, TakeError> {
    let vtree = Vtree::balanced(alloc, 2)?;
    if vtree.variables() != file.variables() {
        return Err(TakeError::OutOfMemory);
    }
    let mut m = Manager::new(alloc, vtree, bound.min(1000))?;
    let mut c = Cache::new(alloc)?;
    Ok(build(alloc, &mut m, &mut c, file)?.0)
}

// Whether an arena of one element has no room for a second one that the file takes, and one of two has.
fn are_built(alloc: Global, file: &SddFile) -> [bool; 2] {
    let full = Err(TakeError::ArenaFull { elements: 2 });
    let first = built(alloc, file, 1) == full;
    [first, built(alloc, file, 2) == Ok(2050)]
}

/// An arena of one element has no room for the two elements of a conjunction, and one of two has.
#[test]
fn no_room_for_a_node(rt: HostRuntime) -> Result<(), Fail> {
    let file = file_of(rt.alloc(), ONE_PAIR).ok_or("not read")?;
    are_so(&are_built(rt.alloc(), &file))
}

// Writes a group as a line.
fn write_group(into: &mut String, literals: &[i32]) -> Result<(), AllocError> {
    for literal in literals {
        write!(into, "{literal} ")?;
    }
    into.push_str("0\n")
}

// The groups of a formula, a line each. An `x` marks an exclusive one.
fn groups_of(alloc: Global, f: &Formula) -> Result<String, AllocError> {
    let mut groups = String::new(alloc);
    for index in 0..f.groups() {
        if f.is_exclusive(index) {
            groups.push_str("x ")?;
        }
        write_group(&mut groups, f.group(index))?;
    }
    Ok(groups)
}

// Whether a formula has these groups.
fn has_groups(alloc: Global, f: &Formula, groups: &str) -> bool {
    match groups_of(alloc, f) {
        Ok(found) => found.as_str() == groups,
        Err(_) => false,
    }
}

// Whether a short text is a formula of this kind with these groups.
fn is_formula(alloc: Global, text: &[u8], kind: Kind, groups: &str) -> bool {
    if text.len() > 1000 {
        return false;
    }
    match read_dimacs(alloc, text, kind) {
        Ok(f) => f.kind() == kind && has_groups(alloc, &f, groups),
        Err(_) => false,
    }
}

const SATLIB: &[u8] = b"c SATLIB layout\np cnf 2 2\n 1 2 0\n-1 2 0\n%\n0\n\n";

const WINDOWS: &[u8] = b"c \xff\r\np dnf 2 1\r\n1 -2\r\n 0\r\n";

const LONG: &[u8] = b"p dnf 1024 2\n1024 -1024 -1024 0 007 0\n";

const LINES: &[u8] = b" p\tcnf 2 3\n1\n\n c 0\n-2 0 0\n-0";

// Whether five texts have their groups.
fn are_formulas(alloc: Global) -> [bool; 5] {
    [
        is_formula(alloc, b"p cnf 3 0", Kind::Cnf, ""),
        is_formula(alloc, SATLIB, Kind::Cnf, "1 2 0\n-1 2 0\n"),
        is_formula(alloc, WINDOWS, Kind::Dnf, "1 -2 0\n"),
        is_formula(alloc, LONG, Kind::Dnf, "1024 -1024 -1024 0\n7 0\n"),
        is_formula(alloc, LINES, Kind::Cnf, "1 -2 0\n0\n0\n"),
    ]
}

/// Literals are kept as they are written, repeated and opposite ones too, over lines and behind a `%` line.
#[test]
fn texts_and_their_groups(rt: HostRuntime) -> Result<(), Fail> {
    are_so(&are_formulas(rt.alloc()))
}

const MARKED: &[u8] = b"p cnf 3 5\nx 1 2\n-3 0 x-1 1 1 0 1 0 x0\nx -0";

/// The mark as a word, joined to a literal and to a zero.
#[test]
fn exclusive_groups(rt: HostRuntime) -> Result<(), Fail> {
    let groups = "x 1 2 -3 0\nx -1 1 1 0\n1 0\nx 0\nx 0\n";
    are_so(&[is_formula(rt.alloc(), MARKED, Kind::Cnf, groups)])
}

// The second and the third group, where there are so many.
fn middle(alloc: Global, f: &Formula) -> Result<Option<Formula>, AllocError> {
    if f.groups() < 3 {
        return Ok(None);
    }
    Ok(Some(f.part(alloc, 1, 3)?))
}

// Whether a formula has this kind, so many variables and these groups.
fn is_so(alloc: Global, f: &Formula, kind: Kind, variables: u32, groups: &str) -> [bool; 3] {
    let groups = has_groups(alloc, f, groups);
    [f.kind() == kind, f.variables() == variables, groups]
}

/// A part has its groups alone, counted from 0, and the kind and the variables of the whole.
#[test]
fn the_middle_of_four_groups(rt: HostRuntime) -> Result<(), Fail> {
    let text = b"p cnf 3 4\n1 -2 0 x2 3 0 0 -1 0\n";
    let whole = read_dimacs(rt.alloc(), text, Kind::Cnf)?;
    let part = middle(rt.alloc(), &whole)?.ok_or("too few groups")?;
    are_so(&is_so(rt.alloc(), &part, Kind::Cnf, 3, "x 2 3 0\n0\n"))
}

/// A formula without groups, of either kind.
#[test]
fn no_groups_at_all(rt: HostRuntime) -> Result<(), Fail> {
    let formula = Formula::empty(rt.alloc(), Kind::Dnf, 1024);
    are_so(&is_so(rt.alloc(), &formula, Kind::Dnf, 1024, ""))
}

// How many variables the header of a short text announces.
fn announced(text: &[u8]) -> Option<Result<u32, VtreeFault>> {
    if text.len() > 1000 {
        return None;
    }
    Some(count_variables(text))
}

// Whether the header of a short text announces so many variables.
fn has_variables(text: &[u8], count: u32) -> bool {
    matches!(announced(text), Some(Ok(found)) if found == count)
}

// Whether the header of a short text has this number of nodes, which no vtree has.
fn has_nodes(text: &[u8], count: u64) -> bool {
    matches!(announced(text), Some(Err(VtreeFault::NodesRange { found })) if found == count)
}

// Whether the headers of five texts announce what they should, and one is absent.
fn are_announced() -> [bool; 6] {
    [
        has_variables(b"vtree 1\n", 1),
        has_variables(b"c a comment\nvtree 3\nL\n", 2),
        has_variables(b"vtree 2047\n", 1024),
        matches!(announced(b"L 0 1\n"), Some(Err(VtreeFault::NoHeader))),
        has_nodes(b"vtree 4\n", 4),
        has_nodes(b"vtree 2049\n", 2049),
    ]
}

/// The header alone tells how many variables a vtree has; the lines behind it are not read.
#[test]
fn variables_by_a_header() -> Result<(), Fail> {
    are_so(&are_announced())
}

// The ids of a short text over two variables.
fn ids_of(alloc: Global, text: &[u8]) -> Option<Result<Ids, VtreeFault>> {
    if text.len() > 1000 {
        return None;
    }
    Some(read_ids(alloc, text, 2))
}

// The positions of four ids, of which no line has the one in the middle.
fn positions_of(ids: &Ids) -> [Option<u32>; 4] {
    [7, 8, 9, 20].map(|id| ids.position(id))
}

// Whether a short text of a vtree gives these positions to the four ids.
fn are_at(alloc: Global, text: &[u8], positions: [Option<u32>; 4]) -> bool {
    match ids_of(alloc, text) {
        Some(Ok(ids)) => positions_of(&ids) == positions,
        Some(Err(_)) | None => false,
    }
}

// Whether a short text has two roots.
fn is_forest(alloc: Global, text: &[u8]) -> bool {
    let ids = ids_of(alloc, text);
    matches!(&ids, Some(Err(VtreeFault::NotOneRoot { roots: 2 })))
}

// Whether a vtree and the turned one have their positions, and two leaves are no vtree.
fn are_found(alloc: Global) -> [bool; 3] {
    let positions = [Some(0), None, Some(2), Some(1)];
    let first = are_at(alloc, b"vtree 3\nL 7 1\nL 9 2\nI 20 7 9\n", positions);
    let positions = [Some(2), None, Some(0), Some(1)];
    let turned = are_at(alloc, b"vtree 3\nL 7 1\nL 9 2\nI 20 9 7\n", positions);
    let forest = is_forest(alloc, b"vtree 2\nL 7 1\nL 9 2\n");
    [first, turned, forest]
}

/// The positions of nodes are looked up by the ids of their lines, which a run shows in no other way.
#[test]
fn positions_by_ids(rt: HostRuntime) -> Result<(), Fail> {
    are_so(&are_found(rt.alloc()))
}

// Whether these numbers are refused.
fn is_bad(alloc: Global, count: u64, seed: u64) -> bool {
    let answer = generate(alloc, count, seed);
    matches!(&answer, Err(GenerateError::BadNumber))
}

/// Numbers that the words refuse are refused here too.
#[test]
fn numbers_that_are_refused(rt: HostRuntime) -> Result<(), Fail> {
    let alloc = rt.alloc();
    let (few, many) = (is_bad(alloc, 2, 0), is_bad(alloc, 1025, 0));
    are_so(&[few, many, is_bad(alloc, 4, 4_294_967_296)])
}

// The words of a line.
fn words_of(alloc: Global, line: &str) -> Result<Vec<String>, AllocError> {
    let mut words = Vec::new(alloc);
    for word in line.split_whitespace() {
        words.push(String::from_str(alloc, word)?)?;
    }
    Ok(words)
}

// The rounds and the groups of a search, the slack and the limit that the words of a line stand for.
fn numbers_of(alloc: Global, line: &str) -> Option<[Option<u32>; 4]> {
    let words = words_of(alloc, line).ok()?;
    match read_words(alloc, words.as_slice()) {
        Ok(job) => Some([job.minimise, job.every, Some(job.slack), Some(job.limit)]),
        Err(_) => None,
    }
}

// Whether the words of a line stand for these numbers.
fn have_numbers(alloc: Global, line: &str, numbers: [Option<u32>; 4]) -> bool {
    numbers_of(alloc, line) == Some(numbers)
}

// Whether a search has its numbers, and the jobs of a formula and of a script those that no word names.
fn are_job(alloc: Global) -> [bool; 3] {
    let searching = "--dnf d --minimise 3 --every 4 --slack 150 --limit 9";
    let plain = [None, None, Some(200), Some(16_777_216)];
    let first = have_numbers(alloc, searching, [Some(3), Some(4), Some(150), Some(9)]);
    let formula = have_numbers(alloc, "--cnf in --start right --out-sdd out", plain);
    let script = have_numbers(alloc, "--generate 1024:4294967295 --script s", plain);
    [first, formula, script]
}

/// A run shows none of the numbers that no word names.
#[test]
fn numbers_of_a_job(rt: HostRuntime) -> Result<(), Fail> {
    are_so(&are_job(rt.alloc()))
}
