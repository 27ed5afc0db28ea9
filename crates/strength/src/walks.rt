/// What a walk along the stations leaves to the next one: the row of the Bonjean table in which the
/// first draught was found, and the room for its areas and sums, so that none has to clear it. The
/// loads don't depend on it.
#[derive(Clone, Copy)]
pub struct Walk {
    pub(crate) row: usize,
    /// The immersed areas by the numbers of the stations.
    pub(crate) areas: [i64; 64],
    /// The areas of the stations before each, by what they count in twice a volume, added up.
    pub(crate) volumes: [i64; 64],
    /// The same by what they count in six times its moment about the after perpendicular.
    pub(crate) moments: [i128; 64],
}

impl Default for Walk {
    fn default() -> Walk {
        Walk {
            row: 0,
            areas: [0; 64],
            volumes: [0; 64],
            moments: [0; 64],
        }
    }
}
