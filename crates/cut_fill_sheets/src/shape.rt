//! Trees of cuts as flat lists. All sides have the kerf added, so that the parts of a rectangle tile it.

use cut_measure::Axis;
use cut_tree::{MAX_CUTS, Node};
use cut_wants::wants::Want;
use std::alloc::{AllocError, Global};

/// A node of a tree. The nodes of a cut's first part follow it, and then those of its second part.
#[derive(Clone, Copy)]
pub(crate) enum Mark {
    /// A part that is left over.
    Rest,
    /// A piece by its place among the pieces, and whether it is turned.
    Piece(usize, bool),
    /// A cut along the axis, after which the first part has this side.
    Cut(Axis, u32),
}

/// The sides of a part, in tenths of a millimetre, the kerf added.
#[derive(Clone, Copy, PartialEq, Eq)]
struct Part {
    w: u32,
    h: u32,
}

/// A tree of cuts of a rectangle, whose sides have the kerf added, as those of all parts have.
#[derive(Drop)]
pub struct Shape {
    marks: Vec<Mark>,
}

/// The sides of a want's piece with the kerf.
fn want_part(want: &Want, turned: bool, kerf: u32) -> Part {
    let w = want.size.w().saturating_add(kerf);
    let h = want.size.h().saturating_add(kerf);
    if turned {
        Part { w: h, h: w }
    } else {
        Part { w, h }
    }
}

impl Part {
    fn side(self, axis: Axis) -> u32 {
        match axis {
            Axis::X => self.w,
            Axis::Y => self.h,
        }
    }

    // The part with another side.
    fn with(self, axis: Axis, side: u32) -> Part {
        match axis {
            Axis::X => Part { w: side, h: self.h },
            Axis::Y => Part { w: self.w, h: side },
        }
    }

    // Both parts of a cut.
    fn cut(self, axis: Axis, at: u32) -> (Part, Part) {
        let over = self.side(axis).saturating_sub(at);
        (self.with(axis, at), self.with(axis, over))
    }

    fn cells(self) -> u64 {
        u64::from(self.w).saturating_mul(u64::from(self.h))
    }
}

/// A want's piece that fills a part, and nothing else: None where there is no such want.
fn piece_node(wants: &[Want], place: usize, turned: bool, part: Part, kerf: u32) -> Option<Node> {
    let want = wants.get(place)?;
    if want_part(want, turned, kerf) != part || turned && !want.may_turn {
        return None;
    }
    Some(Node::Piece(want.demand, turned))
}

/// The node of a cut of a part at an added side, with its parts' nodes.
fn cut_node(
    alloc: Global,
    axis: Axis,
    at: u32,
    side: u32,
    kerf: u32,
    first: Node,
    second: Node,
) -> Result<Option<Node>, AllocError> {
    if at <= kerf || at >= side {
        return Ok(None);
    }
    let place = at - kerf;
    let first = Box::new(alloc, first)?;
    if side - at > kerf {
        let second = Box::new(alloc, second)?;
        return Ok(Some(Node::Cut(axis, place, first, second)));
    }
    match second {
        Node::Rest => Ok(Some(Node::Trim(axis, place, first))),
        _ => Ok(None),
    }
}

/// Nodes of parts that are read from a list's end, the last one first.
#[derive(Drop)]
struct Reader<'a> {
    alloc: Global,
    wants: &'a [Want],
    kerf: u32,
    nodes: Vec<Node>,
}

impl Reader<'_> {
    // The node of a mark on its part.
    fn node(&mut self, mark: Mark, part: Part) -> Result<Option<Node>, AllocError> {
        match mark {
            Mark::Rest => Ok(Some(Node::Rest)),
            Mark::Piece(place, turned) => {
                Ok(piece_node(self.wants, place, turned, part, self.kerf))
            }
            Mark::Cut(axis, at) => {
                let (Some(first), Some(second)) = (self.nodes.pop(), self.nodes.pop()) else {
                    return Ok(None);
                };
                cut_node(
                    self.alloc,
                    axis,
                    at,
                    part.side(axis),
                    self.kerf,
                    first,
                    second,
                )
            }
        }
    }

    // Whether the marks are those of nodes, which are kept.
    fn read(&mut self, marks: &[Mark], parts: &[Part]) -> Result<bool, AllocError> {
        for (mark, part) in marks.iter().zip(parts).rev() {
            let Some(node) = self.node(*mark, *part)? else {
                return Ok(false);
            };
            self.nodes.push(node)?;
        }
        Ok(true)
    }
}

/// Parts of a list of marks that is written from its end.
#[derive(Drop)]
struct Writer {
    /// The marks, the last one first.
    marks: Vec<Mark>,
    /// How many marks each part has.
    lengths: Vec<usize>,
}

impl Writer {
    // One more part of one mark.
    fn push(&mut self, mark: Mark) -> Result<(), AllocError> {
        self.marks.push(mark)?;
        self.lengths.push(1)?;
        Ok(())
    }

    // Whether the last two parts are rests.
    fn ends_in_rests(&self) -> bool {
        let marks = self.marks.iter().rev().take(2);
        let rests = marks.filter(|mark| matches!(mark, Mark::Rest)).count();
        let lengths = self.lengths.iter().rev().take(2);
        rests == 2 && lengths.filter(|length| **length == 1).count() == 2
    }

    // A cut of the last two parts; of two rests there is one rest.
    fn join(&mut self, cut: Mark) -> Result<(), AllocError> {
        let are_rests = self.ends_in_rests();
        let first = self.lengths.pop().unwrap_or(0);
        let second = self.lengths.pop().unwrap_or(0);
        if are_rests {
            self.marks.pop();
            self.lengths.push(1)?;
            return Ok(());
        }
        self.marks.push(cut)?;
        self.lengths
            .push(first.saturating_add(second).saturating_add(1))?;
        Ok(())
    }
}

/// Whether one more piece is allowed, which is counted then.
fn take(allowed: &mut [u32], place: usize) -> bool {
    match allowed.get_mut(place) {
        Some(count) if *count > 0 => {
            *count -= 1;
            true
        }
        _ => false,
    }
}

impl Shape {
    /// The shape of these marks.
    pub(crate) fn of(marks: Vec<Mark>) -> Shape {
        Shape { marks }
    }

    /// A shape without a piece: one rest.
    pub fn empty(alloc: Global) -> Result<Shape, AllocError> {
        let mut marks = Vec::new(alloc);
        marks.push(Mark::Rest)?;
        Ok(Shape { marks })
    }

    /// The same shape.
    pub fn copy(&self, alloc: Global) -> Result<Shape, AllocError> {
        let marks = Vec::from_slice(alloc, &self.marks)?;
        Ok(Shape { marks })
    }

    /// How many cuts there are.
    pub fn cuts(&self) -> u32 {
        let mut cuts = 0u32;
        for mark in &self.marks {
            if let Mark::Cut(..) = mark {
                cuts = cuts.saturating_add(1);
            }
        }
        cuts
    }

    /// How many pieces of each want there are.
    pub fn counts(&self, alloc: Global, wants: usize) -> Result<Vec<u32>, AllocError> {
        let mut counts = vec![in alloc; 0u32; wants]?;
        for mark in &self.marks {
            if let Mark::Piece(place, _) = mark {
                if let Some(count) = counts.get_mut(*place) {
                    *count = count.saturating_add(1);
                }
            }
        }
        Ok(counts)
    }

    /// The shape as the first part, of the side `at`, of a rectangle whose side along the axis is `side`; the shape itself
    /// where that isn't longer.
    pub fn cut_off(self, axis: Axis, at: u32, side: u32) -> Result<Shape, AllocError> {
        let Shape { mut marks } = self;
        if at < side {
            marks.insert(0, Mark::Cut(axis, at))?;
            marks.push(Mark::Rest)?;
        }
        Ok(Shape { marks })
    }

    // The part of each mark of the shape on a part.
    fn parts(&self, alloc: Global, whole: Part) -> Result<Vec<Part>, AllocError> {
        let mut parts = Vec::new(alloc);
        let mut pending = Vec::new(alloc);
        let none = Part { w: 0, h: 0 };
        let mut next = whole;
        for mark in &self.marks {
            parts.push(next)?;
            next = match mark {
                Mark::Cut(axis, at) => {
                    let (first, second) = next.cut(*axis, *at);
                    pending.push(second)?;
                    first
                }
                _ => pending.pop().unwrap_or(none),
            };
        }
        Ok(parts)
    }

    /// The sides of the largest rest of the shape on a rectangle; 0 by 0 where there is none.
    pub fn largest_rest(&self, alloc: Global, w: u32, h: u32) -> Result<(u32, u32), AllocError> {
        let parts = self.parts(alloc, Part { w, h })?;
        let mut largest = Part { w: 0, h: 0 };
        for (mark, part) in self.marks.iter().zip(&parts) {
            if let Mark::Rest = mark {
                if part.cells() > largest.cells() {
                    largest = *part;
                }
            }
        }
        Ok((largest.w, largest.h))
    }

    /// The tree of the shape on a rectangle whose sides have the kerf added, with the wants' demands. None where the marks
    /// aren't those of one tree, a piece doesn't fill its part, or there are more cuts than a plan may have.
    pub fn node(
        &self,
        alloc: Global,
        wants: &[Want],
        w: u32,
        h: u32,
        kerf: u32,
    ) -> Result<Option<Node>, AllocError> {
        if self.cuts() > MAX_CUTS {
            return Ok(None);
        }
        let parts = self.parts(alloc, Part { w, h })?;
        let mut reader = Reader {
            alloc,
            wants,
            kerf,
            nodes: Vec::new(alloc),
        };
        if !reader.read(&self.marks, &parts)? || reader.nodes.len() != 1 {
            return Ok(None);
        }
        Ok(reader.nodes.pop())
    }

    /// The shape with no more pieces than these counts of each want: of more the first ones are kept. Rests that were
    /// pieces are joined where a cut parts them alone.
    pub fn within(&self, alloc: Global, counts: &[u32]) -> Result<Shape, AllocError> {
        let mut allowed = Vec::from_slice(alloc, counts)?;
        let mut kept = Vec::new(alloc);
        for mark in &self.marks {
            let mark = match *mark {
                Mark::Piece(place, _) if !take(&mut allowed, place) => Mark::Rest,
                mark => mark,
            };
            kept.push(mark)?;
        }
        let mut writer = Writer {
            marks: Vec::new(alloc),
            lengths: Vec::new(alloc),
        };
        for mark in kept.iter().rev() {
            match mark {
                Mark::Cut(..) => writer.join(*mark)?,
                _ => writer.push(*mark)?,
            }
        }
        let Writer { mut marks, .. } = writer;
        marks.reverse();
        Ok(Shape { marks })
    }
}
