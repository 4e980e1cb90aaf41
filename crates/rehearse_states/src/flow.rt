//! The flow: a node for each state in which a device command asks, and one for each way to end.
ghost use Rattle.std.specs.Prelude.{◌≡◌, ◌+◌, ◌∷◌, ◌++◌, [], Some, length, map, reverse, IfOk, MatchOption, OnOk, ⊤};
ghost use Rattle.std.specs.List.{slice_get};
ghost use Rattle.text.specs.TextsShown.{bytes_of_words};
ghost use Rattle.rehearse_rules.specs.EndingsShown.{halt_shown};
ghost use Rattle.rehearse_states.specs.Flow.{Asks, Ends};
ghost use Rattle.rehearse_states.specs.Drawing.{asks_in, node_shown, nodes_shown, renumbered, HasMore};

use crate::run_end::{copy_halt, same_halt};
use bootstore_state::StoreError;
use rehearse_rules::Halt;
use std::alloc::Global;

/// A node of the flow.
#[derive(Drop)]
pub enum Node {
    /// A device command asks.
    Asks {
        /// All its fields, its name first.
        words: Vec<Vec<u8>>,
        /// The node that follows its success.
        success: usize,
        /// The node that follows its failure.
        failure: usize,
    },
    /// The run ends.
    Ends(Halt),
}

/// The nodes that were made. A node comes after the nodes to which it leads, and places count from
/// 0.
#[derive(Drop)]
pub struct Flow {
    pub nodes: Vec<Node>,
    /// The places of the ways to end.
    pub ends: Vec<usize>,
}

impl Flow {
    /// No nodes. Takes no memory.
    pub fn new(alloc: Global) -> Flow
        ensures { result.nodes.items ≡ [] }
    {
        Flow {
            nodes: Vec::new(alloc),
            ends: Vec::new(alloc),
        }
    }

    /// The place of this way to end, if it has one.
    fn find(&self, halt: &Halt) -> Option<usize>
        ensures { MatchOption result ⊤ (λ place. slice_get (nodes_shown self.now.nodes) place
            ≡ Some (Ends (halt_shown halt.now))) }
    {
        for place in &self.ends {
            if let Some(Node::Ends(other)) = self.nodes.get(*place) {
                if same_halt(other, halt) {
                    return Some(*place);
                }
            }
        }
        None
    }

    /// The place of a way to end. Makes a node if it is new. Errors: `Memory`.
    pub fn end(&mut self, halt: &Halt) -> Result<usize, StoreError>
        ensures place { IfOk result (λ place. slice_get (nodes_shown self.new.nodes) place
            ≡ Some (Ends (halt_shown halt.now))) }
        ensures grows { OnOk result
            (HasMore (nodes_shown self.old.nodes) (nodes_shown self.new.nodes)) }
        ensures last { IfOk result (λ place. self.old.nodes.items ≡ [] → place + 1
            ≡ length self.new.nodes.items) }
        ensures asks { OnOk result
            (asks_in (nodes_shown self.new.nodes) ≡ asks_in (nodes_shown self.old.nodes)) }
    {
        if let Some(place) = self.find(halt) {
            return Ok(place);
        }
        let place = self.nodes.len();
        let copy = copy_halt(halt)?;
        self.nodes.push(Node::Ends(copy))?;
        self.ends.push(place)?;
        Ok(place)
    }

    /// Makes a node for a state in which a device command asks, and returns its place. Errors:
    /// `Memory`.
    pub fn ask(
        &mut self,
        words: Vec<Vec<u8>>,
        success: usize,
        failure: usize,
    ) -> Result<usize, StoreError>
        ensures place { IfOk result (λ place. place ≡ length self.old.nodes.items) }
        ensures nodes { OnOk result (nodes_shown self.new.nodes ≡ nodes_shown self.old.nodes
            ++ Asks (bytes_of_words words.items) success failure ∷ []) }
    {
        let place = self.nodes.len();
        self.nodes.push(Node::Asks {
            words,
            success,
            failure,
        })?;
        Ok(place)
    }

    /// The nodes in the order of their lines: the last node made is the first, and numbers count
    /// from 1.
    pub fn into_lines(self, alloc: Global) -> Result<Vec<Node>, StoreError>
        ensures { IfOk result (λ lines. nodes_shown lines
            ≡ reverse (map (renumbered (length self.nodes.items)) (nodes_shown self.nodes))) }
    {
        let count = self.nodes.len();
        let mut left = self.nodes;
        let mut lines = Vec::new(alloc);
        while let Some(node) = left.pop() {
            lines.push(renumber(node, count))?;
        }
        Ok(lines)
    }
}

/// The node with the numbers of lines in place of places, if there are this many nodes.
fn renumber(node: Node, count: usize) -> Node
    ensures { node_shown result ≡ renumbered count (node_shown node) }
{
    match node {
        Node::Asks {
            words,
            success,
            failure,
        } => Node::Asks {
            words,
            success: count.saturating_sub(success),
            failure: count.saturating_sub(failure),
        },
        Node::Ends(halt) => Node::Ends(halt),
    }
}
