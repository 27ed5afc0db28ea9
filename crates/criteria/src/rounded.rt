ghost use Rattle.std.specs.Prelude.{◌≡◌, ℕ};
ghost use Rattle.units_core.specs.Ratio.{Ratio};
ghost use Rattle.criteria.specs.Exact.{condition_by};
ghost use Rattle.criteria.specs.Judgement.{printed_of, read};
ghost use Rattle.criteria.specs.Measures.{AreMeasures};
ghost use Rattle.criteria.specs.Printed.{AreRounded};

use crate::exact::Exact;
use crate::measures::CurveMeasures;
use crate::reciprocals::Reciprocal;
use crate::rounding::{
    aft_down, angle, area_figure, fwd_down, gm_down, lever_down, list_down, mean_down, trim_down,
};
use hydrostat::{Afloat, DraughtLine};
use strength::Strains;
use units_core::Mm;

/// The figures of a condition, rounded down: lengths in mm, the list in ten-thousandths, areas in
/// mm degrees, the angle in degrees, forces in kg, bending moments in kg mm.
#[derive(Clone, Copy, Default)]
pub struct RoundedFigures {
    pub gm: i128,
    pub mean: i128,
    pub aft: i128,
    pub fwd: i128,
    pub trim: i128,
    pub list: Option<i128>,
    pub area_30: i128,
    pub area_40: i128,
    pub area_30_40: i128,
    pub lever: i128,
    pub angle: usize,
    pub strains: Strains,
}

impl RoundedFigures {
    /// Makes them those of a ship of this length afloat, with these draughts along her and measures
    /// of her levers; the loads on her hull are there already. They are written where they are,
    /// since a move of them is a copy of 700 bytes.
    #[inline(always)]
    pub(crate) fn set(&mut self, a: &Afloat, length: Mm, line: &DraughtLine, curve: &CurveMeasures)
        requires of { line.now.of ≡ a.now }
        requires length { a.now.lbp ≡ length }
        ensures figures { AreRounded self.new a.now curve.now }
        ensures strains { self.new.strains ≡ self.old.strains }
    {
        // The levers have one divisor, and so have the areas.
        let near = Reciprocal::of(curve.best.den);
        self.gm = gm_down(a);
        self.mean = mean_down(a);
        self.aft = aft_down(line);
        self.fwd = fwd_down(line, length);
        self.trim = trim_down(a);
        self.list = list_down(a);
        self.area_30 = area_figure(curve.sum_30, near);
        self.area_40 = area_figure(curve.sum_40, near);
        self.area_30_40 = area_figure(curve.sum_30_40, near);
        self.lever = lever_down(curve, near);
        self.angle = angle(curve);
    }

    /// Makes them those of a condition of a ship of this length, whose exact numbers
    /// [`exact_into`](crate::exact_into) gives: as [`judge_into`](crate::judge_into) has them. The
    /// loads on her hull are there already.
    pub fn round(&mut self, exact: &Exact, length: Mm)
        requires { exact.now.afloat.lbp ≡ length }
        ensures { (y : ℕ → Ratio) → AreMeasures exact.now.curve y
            → read self.new ≡ printed_of length (condition_by exact.now y self.old.strains) }
    {
        let line = DraughtLine::new(&exact.afloat);
        self.set(&exact.afloat, length, &line, &exact.curve);
    }
}
