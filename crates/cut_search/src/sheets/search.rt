//! The search for plans of whole orders of sheets: a course over the whole stock, and a course for
//! each size that may be bought, over that size and those that have a limit.

use crate::sheets::best::{Best, found_units};
use crate::sheets::course::{Course, places_with};
use crate::sheets::flow::Reported;
use crate::sheets::worker::{MAX_WORK, SLICE};
use cut_search_bars::found::{Found, FoundUnit};
use cut_search_bars::stock::SearchSize;
use cut_wants::wants::Want;
use std::alloc::{AllocError, Global};

/// The courses over one size may be so many slices ahead of the calls of the search. A call of a query
/// that rates prices isn't a call of the search, and a query for one size alone may have fewer of
/// these.
const AHEAD: u64 = 2;

/// The course over the whole stock has at least so much of a call's work.
const MIN_WHOLE: u64 = 100;

/// A search.
#[derive(Drop)]
pub struct SheetSearch {
    /// The course over the whole stock.
    whole: Course,
    /// The courses over one of the sizes that may be bought and those that have a limit.
    alone: Vec<Course>,
    /// How often the search was called.
    calls: u64,
    /// What was reported: pieces that are left out, cost, rest.
    reported: Best,
    /// Whether there are units that are still to be reported.
    has_units: bool,
    /// Whether there are prices that are still to be reported.
    has_prices: bool,
}

/// A course for each size that may be bought, if there are several such sizes. A size that, with
/// those that have a limit, can't hold each piece that the whole stock holds has no course.
fn alone_courses(
    alloc: Global,
    kerf: u32,
    step: Option<u32>,
    stages: Option<u32>,
    sizes: &[SearchSize],
    wants: &[Want],
    whole: &Course,
) -> Result<Vec<Course>, AllocError> {
    let mut courses = Vec::new(alloc);
    let endless = sizes.iter().filter(|size| size.limit.is_none()).count();
    if endless < 2 {
        return Ok(courses);
    }
    for (place, size) in sizes.iter().enumerate() {
        if size.limit.is_none() {
            let places = places_with(alloc, sizes, place)?;
            let course = Course::new(alloc, kerf, step, stages, sizes, wants, places)?;
            if course.holds_all(&whole.worker.job) {
                courses.push(course)?;
            }
        }
    }
    Ok(courses)
}

impl SheetSearch {
    /// A search that has made nothing yet.
    pub fn new(
        alloc: Global,
        kerf: u32,
        step: Option<u32>,
        stages: Option<u32>,
        sizes: &[SearchSize],
        wants: &[Want],
    ) -> Result<SheetSearch, AllocError> {
        let mut places = Vec::new(alloc);
        for place in 0..sizes.len() {
            places.push(place)?;
        }
        let whole = Course::new(alloc, kerf, step, stages, sizes, wants, places)?;
        let alone = alone_courses(alloc, kerf, step, stages, sizes, wants, &whole)?;
        Ok(SheetSearch {
            whole,
            alone,
            calls: 0,
            reported: Best::new(),
            has_units: false,
            has_prices: false,
        })
    }

    /// Stops the courses over one size that won't find a lower cost than the best plan's.
    fn leave(&mut self) {
        let best = &self.whole.flow.best;
        let is_whole = best.missing == 0;
        for course in self.alone.iter_mut() {
            let is_vain = is_whole && course.least() >= best.cost;
            if is_vain || course.flow.has_cost() {
                course.flow.stop();
            }
        }
    }

    /// If no lower cost can be found, stops the courses over one size, and the course over the whole
    /// stock goes on to the largest rest if it has a plan of that cost.
    fn finish(&mut self, goal: u64) {
        if self.reported.missing > 0 || self.whole.worker.hints.bound < goal {
            return;
        }
        if self.whole.flow.best.missing == 0 && self.whole.flow.best.cost <= goal {
            self.whole.flow.finish();
        } else {
            self.whole.flow.stop();
        }
        for course in self.alone.iter_mut() {
            course.flow.stop();
        }
    }

    /// The place of the course over one size that has had the fewest slices, among those that still
    /// have slices to come.
    fn next_alone(&self) -> Option<usize> {
        let mut next: Option<(u64, usize)> = None;
        let target = self.calls.saturating_add(AHEAD);
        for (place, course) in self.alone.iter().enumerate() {
            let slices = course.slices;
            let is_behind = slices < target && !course.flow.has_ended();
            if is_behind && next.map_or(true, |(least, _)| slices < least) {
                next = Some((slices, place));
            }
        }
        next.map(|(_, place)| place)
    }

    /// Offers the units of a course over one size to the course over the whole stock, which keeps
    /// them if they are its best.
    fn take_units(&mut self, alloc: Global, place: usize) -> Result<(), AllocError> {
        let Some(course) = self.alone.get(place) else {
            return Ok(());
        };
        let job = &self.whole.worker.job;
        let free = job.numbers(alloc)?;
        if let Some(units) = course.best_units(alloc, job, &free)? {
            let reported = self.whole.flow.offer(alloc, &self.whole.worker, &units)?;
            self.has_units = self.has_units || reported == Reported::Units;
        }
        Ok(())
    }

    /// Continues the courses over one size, and returns how much work they did.
    fn go_on_alone(&mut self, alloc: Global) -> Result<u64, AllocError> {
        let most = MAX_WORK.saturating_sub(MIN_WHOLE);
        let mut spent = 0u64;
        for _ in 0..self.alone.len().saturating_mul(4) {
            let Some(place) = self.next_alone() else {
                break;
            };
            let rest = most.saturating_sub(spent);
            if rest == 0 {
                break;
            }
            if let Some(course) = self.alone.get_mut(place) {
                let own = course.flow.best.cost;
                let reported = course.take_slice(alloc, rest, own)?;
                spent = spent.saturating_add(course.worker.spent).saturating_add(1);
                if reported == Reported::Units {
                    self.take_units(alloc, place)?;
                }
            }
        }
        Ok(spent)
    }

    /// Continues the course over the whole stock, by about so much work at most.
    fn go_on_whole(&mut self, alloc: Global, most: u64, goal: u64) -> Result<(), AllocError> {
        match self.whole.run(alloc, most, goal)? {
            Reported::Units => self.has_units = true,
            Reported::Prices => self.has_prices = true,
            Reported::Nothing | Reported::Ended => {}
        }
        Ok(())
    }

    /// The best units, if they are better than those that were reported.
    fn units(&mut self, alloc: Global) -> Result<Option<Vec<FoundUnit>>, AllocError> {
        let job = &self.whole.worker.job;
        let Some(best) = &self.whole.flow.best.units else {
            return Ok(None);
        };
        if !self.reported.offer_rest(alloc, job, best)? {
            return Ok(None);
        }
        self.reported.units = None;
        Ok(Some(found_units(alloc, job, best)?))
    }

    /// What a call reports.
    fn found(&mut self, alloc: Global) -> Result<Found, AllocError> {
        if self.has_units {
            self.has_units = false;
            if let Some(units) = self.units(alloc)? {
                return Ok(Found::Units(units));
            }
        }
        if self.has_prices {
            self.has_prices = false;
            return Ok(Found::Prices {
                numbers: Vec::from_slice(alloc, &self.whole.flow.worths)?,
                points: self.whole.flow.points,
            });
        }
        let is_over = self.alone.iter().all(|course| course.flow.has_ended());
        if is_over && self.whole.flow.has_ended() {
            return Ok(Found::Ended);
        }
        Ok(Found::Nothing)
    }

    /// Continues the search by some 50 ms. `least` is the greatest certified bound so far, `best`
    /// the cost of the best checked plan that makes all pieces, if there is one.
    pub fn go_on(
        &mut self,
        alloc: Global,
        least: u64,
        best: Option<u64>,
    ) -> Result<Found, AllocError> {
        let own = if self.reported.missing == 0 {
            self.reported.cost
        } else {
            u64::MAX
        };
        let goal = own.min(best.unwrap_or(u64::MAX));
        let hints = &mut self.whole.worker.hints;
        hints.bound = hints.bound.max(least);
        self.calls = self.calls.saturating_add(1);
        self.finish(goal);
        self.leave();
        let spent = self.go_on_alone(alloc)?;
        let rest = if self.alone.is_empty() {
            SLICE
        } else {
            MAX_WORK.saturating_sub(spent)
        };
        self.go_on_whole(alloc, rest, goal)?;
        self.found(alloc)
    }
}
