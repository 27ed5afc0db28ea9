//! Readings of a profile's tables between their records.
use view_quotes::{column_ends, column_number};

/// A number without its sign.
pub fn size(number: i128) -> i128 {
    number.saturating_abs()
}

/// A product, as far as there is room for it.
pub fn times(one: i128, other: i128) -> i128 {
    one.saturating_mul(other)
}

/// The number of a record behind the heading, by its place among these, the first being 0.
pub fn record_of(place: usize) -> u32 {
    u32::try_from(place.saturating_add(2)).unwrap_or(u32::MAX)
}

/// A reading of a table on the straight line between two of its records: numerator and denominator.
#[derive(Clone, Copy, Debug)]
pub struct OnLine {
    pub num: i128,
    pub den: i128,
}

/// The reading at an argument between those of two places.
pub fn on_line(
    arguments: &[i128],
    numbers: &[i128],
    places: (usize, usize),
    argument: i128,
) -> OnLine {
    let (below, above) = places;
    let (low, high) = (
        column_number(arguments, below),
        column_number(arguments, above),
    );
    let den = high.saturating_sub(low);
    let front = times(column_number(numbers, below), high.saturating_sub(argument));
    let behind = times(column_number(numbers, above), argument.saturating_sub(low));
    OnLine {
        num: front.saturating_add(behind),
        den,
    }
}

/// The two places of a table between which an argument lies; of one on which it lies, that and the
/// next, where there is one.
pub fn around(arguments: &[i128], argument: i128) -> Option<(usize, usize)> {
    let (first, last) = column_ends(arguments);
    if argument < first || last < argument {
        return None;
    }
    let above = arguments.partition_point(|other| *other <= argument);
    let above = above.min(arguments.len().saturating_sub(1)).max(1);
    Some((above.saturating_sub(1), above))
}
