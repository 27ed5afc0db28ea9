ghost use Rattle.std.specs.Prelude.{◌*◌, ◌^◌, ◌≤◌, pos, ◌≤ℤ◌, unsigned_abs};

/// A ship afloat, in whole numbers: what is aboard, and the hydrostatic particulars at her
/// displacement, each of which is to be divided by `gap`, the length of the table's interval in
/// which the displacement lies.
#[derive(Clone, Copy)]
pub struct Afloat {
    /// The displacement in kg.
    pub kg: i128,
    /// The moment about the after perpendicular, in kg mm.
    pub x: i128,
    /// The moment about the centre line, in kg mm, to starboard.
    pub y: i128,
    /// The moment about the keel with the free surface moments, in kg mm.
    pub upright: i128,
    /// The divisor of the particulars, in kg.
    pub gap: i128,
    /// The mean draught in mm.
    pub draught: i128,
    /// The height of the transverse metacentre above the keel, in mm.
    pub kmt: i128,
    /// The longitudinal centre of buoyancy, in mm.
    pub lcb: i128,
    /// The longitudinal centre of flotation, in mm.
    pub lcf: i128,
    /// The moment to change trim, in kg mm for 1 mm.
    pub mct: i128,
    /// The length between perpendiculars, in mm. It isn't divided.
    pub lbp: i128,
    pub ghost kg_positive: { pos 1 ≤ℤ kg },
    pub ghost kg_within: { unsigned_abs kg ≤ 10 ^ 9 },
    pub ghost x_within: { unsigned_abs x ≤ 10 ^ 15 },
    pub ghost y_within: { unsigned_abs y ≤ 10 ^ 15 },
    pub ghost upright_within: { unsigned_abs upright ≤ 2 * 10 ^ 15 },
    pub ghost gap_positive: { pos 1 ≤ℤ gap },
    pub ghost gap_within: { unsigned_abs gap ≤ 10 ^ 8 },
    pub ghost draught_within: { unsigned_abs draught ≤ 10 ^ 13 },
    pub ghost kmt_within: { unsigned_abs kmt ≤ 10 ^ 14 },
    pub ghost lcb_within: { unsigned_abs lcb ≤ 10 ^ 14 },
    pub ghost lcf_within: { unsigned_abs lcf ≤ 10 ^ 14 },
    pub ghost mct_positive: { pos 1 ≤ℤ mct },
    pub ghost mct_within: { unsigned_abs mct ≤ 10 ^ 17 },
    pub ghost lbp_positive: { pos 1 ≤ℤ lbp },
    pub ghost lbp_within: { unsigned_abs lbp ≤ 10 ^ 6 },
}
