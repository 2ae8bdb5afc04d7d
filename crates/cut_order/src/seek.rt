//! The search for prices and units (`cut_search`). It owes nothing but that it is safe and ends:
//! what it finds is checked.

use crate::instance::Instance;
use cut_bound::StockSize;
use cut_search::search::Search;
use cut_search_bars::stock::SearchSize;
use std::alloc::{AllocError, Global};

// The sizes as a search takes them.
fn search_sizes(alloc: Global, sizes: &[StockSize]) -> Result<Vec<SearchSize>, AllocError> {
    sizes
        .iter()
        .map(|stock| SearchSize {
            size: stock.size,
            cost: stock.cost,
            limit: stock.limit,
        })
        .collect(alloc)
}

/// A search for an instance that has made no table yet.
pub fn search_for(alloc: Global, instance: &Instance) -> Result<Search, AllocError> {
    let sizes = search_sizes(alloc, &instance.sizes)?;
    Search::new(
        alloc,
        instance.kind,
        instance.kerf,
        instance.step,
        instance.stages,
        &sizes,
        &instance.wants,
    )
}
