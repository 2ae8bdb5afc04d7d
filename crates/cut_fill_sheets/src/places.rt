//! The points of a side: the lengths that the guide tells apart. Any other length counts as the point below it.

use std::alloc::{AllocError, Global};

/// A side has so many points at most, so that a point's place is a byte.
const MAX_POINTS: usize = 255;

/// So many even points at least stand behind the least sums.
const MIN_EVEN: usize = 8;

/// The points of a side, which begin with 0, and the place of each length among them.
#[derive(Drop)]
pub(crate) struct Places {
    points: Vec<u32>,
    places: Vec<u8>,
}

/// The places of a cut's parts, the shorter one's and the longer one's.
#[derive(Clone, Copy)]
pub(crate) struct Pair {
    pub short: usize,
    pub long: usize,
}

/// The cuts of each point into a length of the list and what is over.
#[derive(Drop)]
pub(crate) struct Cuts {
    pairs: Vec<Pair>,
    /// Where the pairs of each point end.
    ends: Vec<usize>,
}

/// What one length adds to the list of sums next.
#[derive(Clone, Copy)]
struct Source {
    length: u32,
    /// The place of the sum that it is added to.
    place: usize,
    sum: u32,
}

impl Source {
    // Goes on to the next sum, where this one is in the list now.
    fn pass(&mut self, sums: &[u32], newest: u32) {
        if self.sum <= newest {
            self.place = self.place.saturating_add(1);
            self.sum = match sums.get(self.place) {
                Some(sum) => sum.saturating_add(self.length),
                None => u32::MAX,
            };
        }
    }
}

/// So many of the least sums of the lengths at most, as far as they aren't longer than the whole. They begin with 0.
fn least_sums(
    alloc: Global,
    lengths: &[u32],
    whole: u32,
    most: usize,
) -> Result<Vec<u32>, AllocError> {
    let mut sums = Vec::new(alloc);
    sums.push(0u32)?;
    let mut sources = Vec::new(alloc);
    for length in lengths {
        sources.push(Source {
            length: *length,
            place: 0,
            sum: *length,
        })?;
    }
    for _ in 1..most {
        let next = sources.iter().map(|source| source.sum).min();
        let next = next.unwrap_or(u32::MAX);
        if next > whole {
            break;
        }
        sums.push(next)?;
        for source in sources.iter_mut() {
            source.pass(&sums, next);
        }
    }
    Ok(sums)
}

/// Adds even points from a first one on, up to the whole.
fn push_even(points: &mut Vec<u32>, first: u32, whole: u32, most: usize) -> Result<(), AllocError> {
    let count = most.saturating_sub(points.len()).max(MIN_EVEN);
    let over = u64::from(whole.saturating_sub(first));
    for place in 0..count {
        let behind = over.saturating_mul(place as u64) / (count as u64).max(1);
        let behind = u32::try_from(behind).unwrap_or(u32::MAX);
        points.push(first.saturating_add(behind))?;
    }
    Ok(())
}

/// Some `most` points of a side: half of them the least sums of the lengths, the lengths themselves, even ones behind the sums,
/// and the whole side.
fn points_of(
    alloc: Global,
    lengths: &[u32],
    whole: u32,
    most: usize,
) -> Result<Vec<u32>, AllocError> {
    let half = most / 2;
    let mut points = least_sums(alloc, lengths, whole, half)?;
    let is_cut_short = points.len() >= half;
    let last = points.last().copied().unwrap_or(0);
    if is_cut_short && last < whole {
        for length in lengths {
            if *length > last && *length <= whole {
                points.push(*length)?;
            }
        }
        push_even(&mut points, last.saturating_add(1), whole, most)?;
    }
    points.push(whole)?;
    points.sort_unstable();
    points.dedup();
    if points.len() > MAX_POINTS {
        points.truncate(MAX_POINTS - 1);
        points.push(whole)?;
    }
    Ok(points)
}

/// The place of each length up to the whole.
fn places_of(alloc: Global, points: &[u32], whole: u32) -> Result<Vec<u8>, AllocError> {
    let mut places = vec![in alloc; 0u8; (whole as usize).saturating_add(1)]?;
    let ends = points.iter().skip(1).copied();
    let ends = ends.chain([whole.saturating_add(1)]);
    for ((place, start), end) in points.iter().enumerate().zip(ends) {
        let place = u8::try_from(place).unwrap_or(u8::MAX);
        if let Some(run) = places.as_mut_slice().get_mut(*start as usize..end as usize) {
            run.fill(place);
        }
    }
    Ok(places)
}

impl Places {
    /// Some `most` points of a side that is so long, by lengths that rise and are at least 1.
    pub(crate) fn new(
        alloc: Global,
        lengths: &[u32],
        whole: u32,
        most: usize,
    ) -> Result<Places, AllocError> {
        let points = points_of(alloc, lengths, whole, most)?;
        let places = places_of(alloc, &points, whole)?;
        Ok(Places { points, places })
    }

    /// How many points there are.
    pub(crate) fn len(&self) -> usize {
        self.points.len()
    }

    /// The place of the last point that isn't longer than a length.
    #[inline]
    pub(crate) fn of(&self, length: u32) -> usize {
        match self.places.get(length as usize) {
            Some(place) => usize::from(*place),
            None => 0,
        }
    }

    // For each shorter part of a cut of a point the longest other part, both by places; 0 where there is none.
    fn longest_parts(&self, lengths: &[(u32, usize)], point: u32, longest: &mut [usize]) {
        longest.fill(0);
        for (length, place) in lengths {
            if *length >= point {
                break;
            }
            let over = self.of(point.saturating_sub(*length));
            if let Some(long) = longest.get_mut(over.min(*place)) {
                *long = over.max(*place).max(*long);
            }
        }
    }

    /// The cuts of each point by lengths that rise. Those are left out whose parts are both no longer than those of another cut.
    pub(crate) fn cuts(&self, alloc: Global, lengths: &[u32]) -> Result<Cuts, AllocError> {
        let mut cuts = Cuts {
            pairs: Vec::new(alloc),
            ends: Vec::new(alloc),
        };
        let mut placed = Vec::new(alloc);
        for length in lengths {
            placed.push((*length, self.of(*length)))?;
        }
        let mut longest = vec![in alloc; 0usize; self.len()]?;
        for point in &self.points {
            self.longest_parts(&placed, *point, &mut longest);
            cuts.push(&longest)?;
        }
        Ok(cuts)
    }
}

impl Cuts {
    // The pairs of one more point.
    fn push(&mut self, longest: &[usize]) -> Result<(), AllocError> {
        let mut most = 0;
        for (short, long) in longest.iter().enumerate().skip(1).rev() {
            if *long > most {
                most = *long;
                self.pairs.push(Pair { short, long: most })?;
            }
        }
        self.ends.push(self.pairs.len())?;
        Ok(())
    }

    /// The pairs of a point.
    pub(crate) fn of(&self, point: usize) -> &[Pair] {
        let end = self.ends.get(point).copied().unwrap_or(0);
        let start = match point.checked_sub(1) {
            Some(before) => self.ends.get(before).copied().unwrap_or(0),
            None => 0,
        };
        self.pairs.as_slice().get(start..end).unwrap_or(&[])
    }
}
