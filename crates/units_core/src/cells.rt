ghost use Rattle.std.specs.Prelude.{◌≡◌, ◌↔◌, IsTrue};
ghost use Rattle.units_core.specs.Cells.{cell_in, two_in, three_in, span_of, Conflicts};

/// A cell by bay, row and tier (ISO 9711-1), in the seven digits that bay plans write: three of the
/// bay, two of the row, two of the tier. An odd bay is one of 20 feet, an even bay one of 40 feet
/// over its two odd neighbours.
#[derive(Clone, Copy, Debug, PartialEq, Eq, Hash)]
pub struct Cell {
    pub bay: u16,
    pub row: u8,
    pub tier: u8,
}

/// The number that two bytes write, where both are digits.
fn two(tens: u8, ones: u8) -> Option<u8>
    ensures { result ≡ two_in tens ones }
{
    if tens.is_ascii_digit() && ones.is_ascii_digit() {
        Some(10 * (tens - b'0') + (ones - b'0'))
    } else {
        None
    }
}

/// The number that three bytes write, where all are digits.
fn three(hundreds: u8, tens: u8, ones: u8) -> Option<u16>
    ensures { result ≡ three_in hundreds tens ones }
{
    if hundreds.is_ascii_digit() && tens.is_ascii_digit() && ones.is_ascii_digit() {
        let below = 10 * u16::from(tens - b'0') + u16::from(ones - b'0');
        Some(100 * u16::from(hundreds - b'0') + below)
    } else {
        None
    }
}

impl Cell {
    /// The cell that six or seven ASCII digits name, six being read with a 0 before them; `None`
    /// for any other text.
    pub fn read(text: &[u8]) -> Option<Cell>
        ensures { result ≡ cell_in text.now }
    {
        let (bay, row, tier) = match text {
            [b1, b2, b3, r1, r2, t1, t2] => (three(*b1, *b2, *b3), two(*r1, *r2), two(*t1, *t2)),
            [b2, b3, r1, r2, t1, t2] => (three(b'0', *b2, *b3), two(*r1, *r2), two(*t1, *t2)),
            _ => return None,
        };
        Some(Cell {
            bay: bay?,
            row: row?,
            tier: tier?,
        })
    }
}

/// The first and the last of the 20-foot bays that a cell covers: an odd bay is one itself, an even
/// bay covers its two odd neighbours, and bay 0 covers 0 and 1.
pub fn span(cell: Cell) -> (u16, u16)
    ensures { result ≡ span_of cell.bay }
{
    let bay = cell.bay;
    if bay % 2 == 1 {
        (bay, bay)
    } else {
        (bay.saturating_sub(1), bay + 1)
    }
}

/// Whether two cells overlap: row and tier are equal, and they have a 20-foot bay in common.
pub fn conflicts(a: Cell, b: Cell) -> bool
    ensures { IsTrue result ↔ Conflicts a b }
{
    let (a_first, a_last) = span(a);
    let (b_first, b_last) = span(b);
    a.row == b.row && a.tier == b.tier && a_first <= b_last && b_first <= a_last
}
