/// Why a condition has no figures: the first of the ship's tables that it lies outside of.
#[derive(Clone, Copy, Debug, PartialEq, Eq)]
pub enum Outside {
    /// O1: the displacement lies outside of the hydrostatic table.
    Hydro,
    /// O2: the displacement lies outside of the table of cross curves.
    Levers,
    /// O3: the draught at a station, rounded down, lies outside of the Bonjean table.
    Bonjean,
    /// O4: buoyancy and displacement differ by more than the ship's limit.
    Closing,
    /// O5: the displacement lies outside of the table of least metacentric heights.
    GmLimit,
}
