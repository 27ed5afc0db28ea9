/// The texts of a profile's tables.
#[derive(Clone, Copy, Debug)]
pub struct TableTexts<'a> {
    /// `cells.csv`
    pub cells: &'a [u8],
    /// `hydro.csv`
    pub hydro: &'a [u8],
    /// `kn.csv`
    pub levers: &'a [u8],
    /// `bonjean.csv`
    pub bonjean: &'a [u8],
    /// `tanks.csv`
    pub tanks: &'a [u8],
    /// `gm.csv`, for a ship that has one
    pub least_gm: Option<&'a [u8]>,
}
