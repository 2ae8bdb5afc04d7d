//! What a search finds.

use cut_tree::Node;

/// Units that are cut alike.
#[derive(Drop)]
pub struct FoundUnit {
    /// The place of their size in the stock's list.
    pub place: usize,
    /// How many units they are.
    pub times: u32,
    /// The tree of their plan.
    pub node: Node,
}

/// What a step found.
#[derive(Drop)]
pub enum Found {
    /// Nothing to report yet.
    Nothing,
    /// Prices that may give a better bound: one a want, 0 where it has none, at most 1000000000.
    Prices {
        /// Those prices.
        numbers: Vec<u32>,
        /// About how many points an axis of the table has that gives the bound; of bars, and where a
        /// step is given, it says nothing.
        points: usize,
    },
    /// The units of a plan that is better than those before.
    Units(Vec<FoundUnit>),
    /// No more will be found.
    Ended,
}
