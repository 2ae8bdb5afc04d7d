//! The best ways of going on, of all that a level of the search has.

use std::alloc::{AllocError, Global};

/// One way of going on. The less is lost the better; of equals those go first that were offered first.
#[derive(Clone, Copy, PartialEq, Eq, PartialOrd, Ord)]
pub(crate) struct Child {
    /// How much less it may be worth than any number.
    loss: u64,
    /// The place of the state that it goes on from.
    pub state: usize,
    /// The place of the block that is placed.
    pub block: usize,
    /// Whether the first cut is along the width.
    pub along_width: bool,
}

/// The best children so far. They are offered in the order of their states, blocks and axes.
#[derive(Drop)]
pub(crate) struct Choice {
    children: Vec<Child>,
    /// So many are kept.
    most: usize,
    /// What has lost no less than this isn't kept.
    limit: u64,
}

/// So many times the children that are kept are gathered before the others are left out.
const GATHERED: usize = 4;

impl Child {
    /// A child whose filling may be worth so much.
    #[inline]
    pub(crate) fn new(rating: u64, state: usize, block: usize, along_width: bool) -> Child {
        Child {
            loss: u64::MAX - rating,
            state,
            block,
            along_width,
        }
    }
}

impl Choice {
    /// A choice of so many children.
    pub(crate) fn new(alloc: Global, most: usize) -> Choice {
        Choice {
            children: Vec::new(alloc),
            most,
            limit: u64::MAX,
        }
    }

    /// Begins anew.
    pub(crate) fn clear(&mut self) {
        self.children.clear();
        self.limit = u64::MAX;
    }

    /// Takes a child, unless there are enough that are better.
    #[inline]
    pub(crate) fn offer(&mut self, child: Child) -> Result<(), AllocError> {
        if child.loss < self.limit {
            self.children.push(child)?;
            if self.children.len() >= self.most.saturating_mul(GATHERED) {
                self.narrow();
            }
        }
        Ok(())
    }

    // Leaves out all but the best.
    fn narrow(&mut self) {
        let Some(last) = self.most.checked_sub(1) else {
            self.children.clear();
            return;
        };
        if last < self.children.len() {
            let (_, worst, _) = self.children.select_nth_unstable(last);
            self.limit = worst.loss;
            self.children.truncate(self.most);
        }
    }

    /// The best children, the best one first.
    pub(crate) fn best(&mut self) -> &[Child] {
        self.narrow();
        self.children.sort_unstable();
        &self.children
    }
}
