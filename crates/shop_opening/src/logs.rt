//! What the bytes of a store's log say: SQLite's format, as the port (`sqlite_wal`) writes it.

use sqlite_wal::checksum_of;

type Sum = (u32, u32);

// The bytes of a log's head, those of a frame before its page, and those of a log that has no frame.
const HEAD: usize = 32;

const FRAME_HEAD: usize = 24;

const NO_FRAME: usize = 41;

/// What a log's bytes say.
#[derive(Clone, Copy, Debug, PartialEq, Eq)]
pub(crate) enum LogState {
    /// It has no commit to take.
    Empty,
    /// It has commits.
    Commits,
    /// No crash leaves it.
    Damaged,
}

fn number_at(bytes: &[u8], at: usize) -> u32 {
    let Some([a, b, c, d]) = bytes.get(at..at.saturating_add(4)) else {
        return 0;
    };
    u32::from_be_bytes([*a, *b, *c, *d])
}

fn sum_at(bytes: &[u8], at: usize) -> Sum {
    (number_at(bytes, at), number_at(bytes, at.saturating_add(4)))
}

// Whether a log's sums read words with the highest byte first.
fn is_big(log: &[u8]) -> bool {
    log.get(3) == Some(&0x83)
}

// Whether a log begins with a head: the magic number, and the sum of what stands before it.
fn has_head(log: &[u8]) -> bool {
    let magic = [0x37u8, 0x7f, 0x06];
    let Some(front) = log.get(..24) else {
        return false;
    };
    if !front.starts_with(&magic) {
        return false;
    }
    match front[3] {
        0x82 | 0x83 => checksum_of(is_big(log), (0, 0), front) == sum_at(log, 24),
        _ => false,
    }
}

// Whether the head has the mark of a store that is being made, which no later head has.
fn has_mark(log: &[u8]) -> bool {
    number_at(log, 12) == 0xffff_ffff
}

// The bytes of a page, where the head names a size that a page may have.
fn page_size(log: &[u8]) -> Option<usize> {
    let size = number_at(log, 8);
    if (512..=65536).contains(&size) {
        Some(size as usize)
    } else {
        None
    }
}

// Whether a frame has the salts of its log, and the sum that follows from the one before it.
fn is_good(log: &[u8], before: Sum, frame: &[u8]) -> bool {
    let (Some(front), Some(page)) = (frame.get(..8), frame.get(FRAME_HEAD..)) else {
        return false;
    };
    if frame.get(8..16) != log.get(16..24) {
        return false;
    }
    let big = is_big(log);
    checksum_of(big, checksum_of(big, before, front), page) == sum_at(frame, 16)
}

// Whether a frame ends a commit.
fn ends_commit(frame: &[u8]) -> bool {
    number_at(frame, 4) != 0
}

// What the frames of a log report, whose pages have this size. Once a frame isn't good, none behind it is taken; so a whole commit
// there isn't what a stop leaves: frames that are good, which begin behind one that ends a commit and end with one that does.
fn walk(log: &[u8], size: usize) -> LogState {
    let mut sum = sum_at(log, 24);
    let mut taken = true;
    let mut run = false;
    let mut ended = false;
    let mut state = LogState::Empty;
    let frames = log.get(HEAD..).unwrap_or(&[]);
    for frame in frames.chunks_exact(FRAME_HEAD.saturating_add(size)) {
        let good = is_good(log, sum, frame);
        let ends = ends_commit(frame);
        taken = taken && good;
        run = !taken && good && (run || ended);
        if run && ends {
            return LogState::Damaged;
        }
        if taken && ends {
            state = LogState::Commits;
        }
        ended = ends;
        sum = sum_at(frame, 16);
    }
    state
}

// What a log without a head reports. A merge that was stopped leaves a first byte of 0, with all commits in the store by then; and
// what is left beside a store that was being made has its mark.
fn headless(log: &[u8], is_begun: bool) -> LogState {
    if log.first() == Some(&0) || (is_begun && has_mark(log)) {
        LogState::Empty
    } else {
        LogState::Damaged
    }
}

/// What a log's bytes say. `is_begun`: the store beside it is still empty, as one that is being created.
pub(crate) fn log_state(log: &[u8], is_begun: bool) -> LogState {
    if log.len() <= NO_FRAME {
        return LogState::Empty;
    }
    if !has_head(log) {
        return headless(log, is_begun);
    }
    match page_size(log) {
        Some(size) => walk(log, size),
        None => LogState::Empty,
    }
}
