//! A circuit in the order of its gates.

ghost use Rattle.std.specs.Prelude.{◌≡◌, ℕ, ◌+◌, ◌<◌, ◌≤◌, Bool, false, ◌&&◌, List, [], length, IfOk, IfErr};
ghost use Rattle.std.specs.Prelude.{slice_index_or};
ghost use Rattle.sd_model.specs.Circuit.{circuit_output, output_literal};
ghost use Rattle.sd_circuit.specs.Order.{IsClosed, IsOrdered, CycleIsFirst};
ghost use Rattle.sd_circuit.specs.Circuits.{OrderedCircuit, text_of, gate_line, literal_of, IsWireWithin};
ghost use Rattle.sd_circuit.specs.Circuits.{wire_value, gate_values};
ghost use Rattle.sd_circuit.specs.Stored.{IsTold};

use crate::and_line::And;
use crate::order::{OrderError, order_gates};
use crate::origins::origins_of;
use crate::wire::Wire;
use std::alloc::Global;
use std::marker::Model;

/// A circuit of conjunctions and negations: the lists of its text, and its gates in an order in which each stands
/// behind those that it uses. Contracts see it as `OrderedCircuit`: gate k is the and-line at place k of the order.
#[derive(Drop)]
pub struct Circuit {
    // the greatest number of a variable
    variables: u32,
    inputs: Vec<u32>,
    outputs: Vec<u32>,
    ands: Vec<And>,
    // the places of the and-lines, in the order of the gates
    order: Vec<u32>,
    // of each variable what defines it: 0 if nothing does, an input's number from 1, or one more than the number of
    // inputs and that of the gate
    origins: Vec<u32>,
}

impl Model for Circuit {
    ghost use Rattle.sd_circuit.specs.Circuits.{OrderedCircuit, text_of};
    ghost use Rattle.sd_circuit.specs.Stored.{HoldsCircuit};

    ghost Value = { OrderedCircuit };

    ghost view = { λ c. record {
      text = text_of c.variables c.inputs.items c.outputs.items c.ands.items;
      order = c.order.items;
    } };

    ghost invariant = { λ c. HoldsCircuit (record {
      text = text_of c.variables c.inputs.items c.outputs.items c.ands.items;
      order = c.order.items;
    }) c.origins.items };
}

impl Circuit {
    /// The circuit of a text's lists, with at most 1,024 inputs, 1,024 outputs and 2,000,000 variables. Where an
    /// and-line lies on a cycle there is none, and the first such and-line is told.
    pub fn new(
        alloc: Global,
        variables: u32,
        inputs: Vec<u32>,
        outputs: Vec<u32>,
        ands: Vec<And>,
    ) -> Result<Circuit, OrderError>
        requires variables { variables ≤ 2000000 }
        requires inputs { length inputs.items ≤ 1024 }
        requires outputs { length outputs.items ≤ 1024 }
        requires fits { length inputs.items + length ands.items ≤ variables }
        requires closed { IsClosed (text_of variables inputs.items outputs.items ands.items) }
        ensures text { IfOk result (λ c. c.text ≡ text_of variables inputs.items outputs.items ands.items) }
        ensures ordered { IfOk result (λ c. IsOrdered ands.items c.order) }
        ensures cycle { IfErr result (CycleIsFirst ands.items) }
    {
        let order = match order_gates(alloc, variables, &ands) {
            Ok(order) => order,
            Err(error) => return Err(error),
        };
        let origins = match origins_of(alloc, variables, &inputs, &ands, &order) {
            Ok(origins) => origins,
            Err(_) => return Err(OrderError::OutOfMemory),
        };
        Ok(Circuit {
            variables,
            inputs,
            outputs,
            ands,
            order,
            origins,
        })
    }

    /// The circuit without inputs, outputs and gates. It takes no memory.
    pub fn empty(alloc: Global) -> Circuit
        ensures text { result.text ≡ text_of 0 [] [] [] }
        ensures order { result.order ≡ [] }
    {
        Circuit {
            variables: 0,
            inputs: Vec::new(alloc),
            outputs: Vec::new(alloc),
            ands: Vec::new(alloc),
            order: Vec::new(alloc),
            origins: Vec::new(alloc),
        }
    }

    /// The number of inputs, at most 1,024.
    pub fn inputs(&self) -> u32
        ensures value { result ≡ length self.now.text.inputs }
        ensures within_limit { result ≤ 1024 }
    {
        self.inputs.len() as u32
    }

    /// The number of outputs, at most 1,024.
    pub fn outputs(&self) -> u32
        ensures value { result ≡ length self.now.text.outputs }
        ensures within_limit { result ≤ 1024 }
    {
        self.outputs.len() as u32
    }

    /// The number of gates, at most 2,000,000.
    pub fn gates(&self) -> u32
        ensures value { result ≡ length self.now.order }
        ensures ordered { IsOrdered self.now.text.ands self.now.order }
        ensures within_limit { result ≤ 2000000 }
    {
        self.order.len() as u32
    }

    /// The two sides of a gate, counted from 0: the right sides of its and-line. Where they are gates, these stand
    /// before it.
    pub fn gate(&self, index: u32) -> (Wire, Wire)
        requires { index < length self.now.order }
        ensures first { literal_of self.now result.0 ≡ (gate_line self.now index).first }
        ensures second { literal_of self.now result.1 ≡ (gate_line self.now index).second }
        ensures first_earlier { IsWireWithin self.now index result.0 }
        ensures second_earlier { IsWireWithin self.now index result.1 }
        ensures value { (a : List Bool) → slice_index_or (gate_values self.now a) index false
            ≡ (wire_value a (gate_values self.now a) result.0
            && wire_value a (gate_values self.now a) result.1) }
    {
        let line = self.ands[self.order[index as usize] as usize];
        (self.wire(line.first), self.wire(line.second))
    }

    /// What an output is, counted from 0. Its value is that of the output in every valuation of the text.
    pub fn output(&self, index: u32) -> Wire
        requires { index < length self.now.text.outputs }
        ensures literal { literal_of self.now result ≡ output_literal self.now.text index }
        ensures within { IsWireWithin self.now (length self.now.order) result }
        ensures value { (a : List Bool) → circuit_output self.now.text index a
            ≡ wire_value a (gate_values self.now a) result }
    {
        self.wire(self.outputs[index as usize])
    }

    // What a literal is.
    fn wire(&self, literal: u32) -> Wire
        requires { IsTold self.now.text self.now.order (length self.now.order) literal }
        ensures literal { literal_of self.now result ≡ literal }
        ensures within { (gates : ℕ) → gates ≤ length self.now.order
            → IsTold self.now.text self.now.order gates literal → IsWireWithin self.now gates result }
    {
        let positive = literal % 2 == 0;
        let variable = literal / 2;
        if variable == 0 {
            return Wire::Constant(!positive);
        }
        let origin = self.origins[variable as usize];
        let inputs = self.inputs.len() as u32;
        if origin <= inputs {
            Wire::Input {
                variable: origin,
                positive,
            }
        } else {
            Wire::Gate {
                index: origin - inputs - 1,
                positive,
            }
        }
    }
}
