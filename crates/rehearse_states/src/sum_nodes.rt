//! What the rows of a state are made of: a node for each end that is met, and one for each state in which a device
//! command asks. A node comes after those of which it is made, and places count from 0.

use crate::run_end::RunEnd;
use std::rc::Rc;

/// A node of which rows are made.
#[derive(Drop)]
pub enum SumNode {
    /// A run is over.
    Over(Rc<RunEnd>),
    /// A device command asks.
    Both {
        /// Whether a success is expected there; none if neither answer is.
        expected: Option<bool>,
        /// The place of what follows its success.
        won: usize,
        /// The place of what follows its failure.
        lost: usize,
    },
}
