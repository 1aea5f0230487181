//! Lists of numbers, read and written at any index: an elimination is right whatever it reads.

/// No vertex, and no place.
pub(crate) const NONE: u32 = u32::MAX;

/// An index as 32 bits; `NONE` if it has more.
pub(crate) fn stored(i: usize) -> u32 {
    match u32::try_from(i) {
        Ok(x) => x,
        Err(_) => NONE,
    }
}

/// The number at an index; `NONE` if there is none.
#[inline]
pub(crate) fn at(list: &[u32], i: usize) -> u32 {
    match list.get(i) {
        Some(x) => *x,
        None => NONE,
    }
}

/// Writes a number at an index, if there is one.
#[inline]
pub(crate) fn put(list: &mut [u32], i: usize, x: u32) {
    if let Some(place) = list.get_mut(i) {
        *place = x;
    }
}

/// Adds one to a number of a list.
#[inline]
pub(crate) fn count(counts: &mut [u32], i: u32) {
    if let Some(number) = counts.get_mut(i as usize) {
        *number = number.saturating_add(1);
    }
}

/// Puts the sum of the numbers before it in place of each. Says what the sum of all is.
pub(crate) fn take_starts(counts: &mut [u32]) -> u32 {
    let mut total = 0u32;
    for start in counts.iter_mut() {
        let count = *start;
        *start = total;
        total = total.saturating_add(count);
    }
    total
}

/// A part of a list.
#[derive(Clone, Copy)]
pub(crate) struct Span {
    pub(crate) start: usize,
    pub(crate) end: usize,
}

impl Span {
    /// So many numbers from an index on.
    #[inline]
    pub(crate) fn new(start: usize, count: usize) -> Self {
        Span {
            start,
            end: start.saturating_add(count),
        }
    }

    /// How many numbers it has.
    #[inline]
    pub(crate) fn len(self) -> usize {
        self.end.saturating_sub(self.start)
    }
}
