//! The search for plans of a whole order, of bars or of sheets.

use crate::sheets::search::SheetSearch;
use cut_measure::Kind;
use cut_search_bars::bars::BarSearch;
use cut_search_bars::found::Found;
use cut_search_bars::stock::SearchSize;
use cut_wants::wants::Want;
use std::alloc::{AllocError, Global};

/// A search.
#[derive(Drop)]
pub enum Search {
    /// Of bars.
    Bars(BarSearch),
    /// Of sheets.
    Sheets(SheetSearch),
}

impl Search {
    /// A search that has made no table yet. `step` and `stages` are a sheet's: the step of the
    /// bound's tables, if one is given, and how many stages a plan may have, 2 to 255, if that is
    /// limited.
    pub fn new(
        alloc: Global,
        kind: Kind,
        kerf: u32,
        step: Option<u32>,
        stages: Option<u32>,
        sizes: &[SearchSize],
        wants: &[Want],
    ) -> Result<Search, AllocError> {
        match kind {
            Kind::Bar => Ok(Search::Bars(BarSearch::new(alloc, kerf, sizes, wants)?)),
            Kind::Sheet => {
                let sheets = SheetSearch::new(alloc, kerf, step, stages, sizes, wants)?;
                Ok(Search::Sheets(sheets))
            }
        }
    }

    /// Continues the search: for bars by at most one table, for sheets by some 50 ms. `least` is the
    /// greatest certified bound so far, `best` the cost of the best checked plan that makes all
    /// pieces, if there is one.
    pub fn go_on(
        &mut self,
        alloc: Global,
        least: u64,
        best: Option<u64>,
    ) -> Result<Found, AllocError> {
        match self {
            Search::Bars(bars) => bars.go_on(alloc, least, best),
            Search::Sheets(sheets) => sheets.go_on(alloc, least, best),
        }
    }
}
