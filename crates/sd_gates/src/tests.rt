// Outputs as nodes, with ample memory. The helpers have no contract, so a test has nothing to prove.
use crate::output::output_node;
use crate::sharing::GateNodes;
use sd_aiger::read_aiger;
use sd_cache::Cache;
use sd_circuit::Circuit;
use sd_compile::Pace;
use sd_manager::Manager;
use sd_runs::TakeError;
use sd_vtree::Vtree;
use std::alloc::Global;
use std::test::Fail;

// The circuit of a short text.
fn circuit(alloc: Global, text: &str) -> Option<Circuit> {
    let bytes = text.as_bytes();
    if bytes.len() > 1000 {
        return None;
    }
    read_aiger(alloc, bytes).ok()
}

// The codes of the nodes of all outputs over the balanced tree, in an arena of so many elements, where each output may
// sweep if more than `most` are in use; and how many are in use behind the last one.
fn made(
    alloc: Global,
    circuit: &Circuit,
    bound: u32,
    most: u32,
) -> Result<(Vec<u32>, u32), TakeError> {
    let mut codes = Vec::new(alloc);
    let inputs = circuit.inputs();
    if inputs == 0 {
        return Ok((codes, 0));
    }
    let vtree = Vtree::balanced(alloc, inputs)?;
    if vtree.variables() != inputs {
        return Ok((codes, 0));
    }
    let mut m = Manager::new(alloc, vtree, bound.min(1000))?;
    let mut c = Cache::new(alloc)?;
    let mut gates = GateNodes::new(alloc);
    'outputs: for index in 0..circuit.outputs() {
        let mut pace = Pace::of_operations();
        pace.most = most;
        let node = output_node(alloc, &mut m, &mut c, circuit, &mut gates, index, &mut pace)?;
        codes.push(node.0)?;
    }
    Ok((codes, m.used()))
}

// Whether the outputs have nodes of these codes, and so many elements are in use behind them.
fn are_made(made: Result<(Vec<u32>, u32), TakeError>, codes: &[u32], used: u32) -> bool {
    match made {
        Ok((those, left)) => those.as_slice() == codes && left == used,
        Err(_) => false,
    }
}

const PLAIN: &str = "aag 3 2 0 4 1\n4\n2\n0\n1\n4\n3\n6 2 4\n";

/// Constants have the codes 0 and 1. The first input is the first line's, whatever its number: its code is 2, and that
/// of the second one's negation is 5.
#[test]
fn constants_and_inputs(rt: HostRuntime) -> Result<(), Fail> {
    let Some(plain) = circuit(rt.alloc(), PLAIN) else {
        assert!(rt; false);
        return Ok(());
    };
    let nodes = made(rt.alloc(), &plain, 0, 0);
    assert!(rt; are_made(nodes, &[0, 1, 2, 5], 0));
    Ok(())
}

const BOTH: &str = "aag 3 2 0 4 1\n4\n2\n6\n7\n7\n6\n6 2 4\n";

/// A conjunction and its negation have two elements each. Outputs that are repeated have the nodes that they had, also
/// where a sweep comes behind a gate.
#[test]
fn repeated_outputs_share_their_nodes(rt: HostRuntime) -> Result<(), Fail> {
    let Some(both) = circuit(rt.alloc(), BOTH) else {
        assert!(rt; false);
        return Ok(());
    };
    let codes = [2050, 2051, 2051, 2050];
    assert!(rt; are_made(made(rt.alloc(), &both, 1000, 1000), &codes, 4));
    assert!(rt; are_made(made(rt.alloc(), &both, 1000, 0), &codes, 4));
    Ok(())
}

const APART: &str = "aag 5 3 0 2 2\n2\n4\n6\n8\n10\n8 2 4\n10 2 6\n";

/// Two conjunctions have two elements each. A sweep behind the gate of the second output takes the first one away.
#[test]
fn a_sweep_takes_what_no_later_output_needs(rt: HostRuntime) -> Result<(), Fail> {
    let Some(apart) = circuit(rt.alloc(), APART) else {
        assert!(rt; false);
        return Ok(());
    };
    let codes = [2050, 2051];
    assert!(rt; are_made(made(rt.alloc(), &apart, 1000, 1000), &codes, 4));
    assert!(rt; are_made(made(rt.alloc(), &apart, 1000, 0), &codes, 2));
    Ok(())
}

/// An arena of three elements has room for the conjunction and not for its negation.
#[test]
fn an_arena_is_full(rt: HostRuntime) -> Result<(), Fail> {
    let Some(both) = circuit(rt.alloc(), BOTH) else {
        assert!(rt; false);
        return Ok(());
    };
    let full = Some(TakeError::ArenaFull { elements: 4 });
    assert_eq!(rt; made(rt.alloc(), &both, 3, 0).err(), full);
    Ok(())
}
