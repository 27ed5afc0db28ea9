ghost use Rattle.std.specs.Prelude.{◌^◌, ◌≤◌, unsigned_abs};

use units_core::Frac;

/// The tangents of 0, 0.5, 1, .., 45 degrees, in 10^-9 and rounded to the nearest.
#[rattlefmt::skip]
const TANGENTS: [u32; 91] = [
    0, 8_726_868, 17_455_065, 26_185_922, 34_920_769, 43_660_943, 52_407_779,
    61_162_620, 69_926_812, 78_701_707, 87_488_664, 96_289_048, 105_104_235, 113_935_608,
    122_784_561, 131_652_498, 140_540_835, 149_451_001, 158_384_440, 167_342_609, 176_326_981,
    185_339_045, 194_380_309, 203_452_299, 212_556_562, 221_694_663, 230_868_191, 240_078_759,
    249_328_003, 258_617_584, 267_949_192, 277_324_544, 286_745_386, 296_213_495, 305_730_681,
    315_298_789, 324_919_696, 334_595_320, 344_327_613, 354_118_573, 363_970_234, 373_884_679,
    383_864_035, 393_910_476, 404_026_226, 414_213_562, 424_474_816, 434_812_375, 445_228_685,
    455_726_256, 466_307_658, 476_975_533, 487_732_589, 498_581_608, 509_525_449, 520_567_051,
    531_709_432, 542_955_700, 554_309_051, 565_772_778, 577_350_269, 589_045_016, 600_860_619,
    612_800_788, 624_869_352, 637_070_261, 649_407_593, 661_885_561, 674_508_517, 687_280_959,
    700_207_538, 713_293_068, 726_542_528, 739_961_075, 753_554_050, 767_326_988, 781_285_627,
    795_435_917, 809_784_033, 824_336_386, 839_099_631, 854_080_685, 869_286_738, 884_725_265,
    900_404_044, 916_331_174, 932_515_086, 948_964_567, 965_688_775, 982_697_263, 1_000_000_000,
];

/// The greatest tangent that is read as an angle: that of 45 degrees.
const STEEPEST: i128 = 1_000_000_000;

/// An angle: so many half degrees, and a part of the next, which is `part` of `gap`.
#[derive(Clone, Copy)]
struct Angle {
    halves: i128,
    part: i128,
    gap: i128,
}

/// The list by its limit, in hundredths of a degree: the value and the limit rounded up, the margin
/// down.
#[derive(Clone, Copy, Debug, PartialEq, Eq)]
pub struct ListReading {
    /// The list, and the margin to its limit; `None` beyond 45 degrees.
    pub value: Option<(i128, i128)>,
    pub limit: i128,
}

/// The product of two numbers of an angle, which all are below 2^33.
fn times(one: i128, other: i128) -> i128 {
    one.saturating_mul(other)
}

/// A fraction, rounded down.
fn down(num: i128, den: i128) -> i128 {
    num.div_euclid(den.max(1))
}

/// The angle of a tangent in 10^-9, on the straight line between two entries of the table.
fn angle_of(tangent: i128) -> Angle {
    let mut at = 0;
    for i in 1..90usize {
        if i128::from(TANGENTS[i]) <= tangent {
            at = i;
        }
    }
    let at = at.min(89);
    let low = i128::from(TANGENTS[at]);
    Angle {
        halves: at as i128,
        part: tangent.saturating_sub(low),
        gap: i128::from(TANGENTS[at + 1]) - low,
    }
}

/// An angle in hundredths of a degree, rounded up.
fn hundredths_up(angle: Angle) -> i128 {
    times(50, angle.halves).saturating_sub(down(times(-50, angle.part), angle.gap))
}

/// One angle less another in hundredths of a degree, rounded down.
fn hundredths_less(one: Angle, other: Angle) -> i128 {
    let parts = times(one.part, other.gap).saturating_sub(times(other.part, one.gap));
    times(50, one.halves.saturating_sub(other.halves)).saturating_add(down(
        times(50, parts),
        times(one.gap, other.gap),
    ))
}

/// The tangent in 10^-9, rounded up, of a list in ten-thousandths that isn't below 0; `None` beyond
/// 45 degrees.
fn tangent_of(list: Frac) -> Option<i128>
    requires { unsigned_abs list.den ≤ 10 ^ 32 }
{
    let whole = list.num.div_euclid(list.den);
    let rest = list.num.rem_euclid(list.den);
    if whole < 0 || whole > 10_000 {
        return None;
    }
    let tangent = 100_000 * whole - (-100_000 * rest).div_euclid(list.den);
    if tangent > STEEPEST {
        None
    } else {
        Some(tangent)
    }
}

/// The reading of a list's size, in ten-thousandths of its tangent, by the ship's limit of 0 to
/// 10,000.
pub fn list_reading(list: Frac, most: i64) -> ListReading
    requires list { unsigned_abs list.den ≤ 10 ^ 32 }
{
    let limit = angle_of(100_000 * i128::from(most.clamp(0, 10_000)));
    let value = match tangent_of(list) {
        Some(tangent) => {
            let angle = angle_of(tangent.clamp(0, STEEPEST));
            Some((hundredths_up(angle), hundredths_less(limit, angle)))
        }
        None => None,
    };
    ListReading {
        value,
        limit: hundredths_up(limit),
    }
}

/// The list of so many whole degrees, up to 45, as the report prints a list: in ten-thousandths of
/// its tangent, rounded down.
pub fn list_of_degrees(degrees: usize) -> i128 {
    let halves = degrees.min(45) * 2;
    i128::from(TANGENTS[halves]) / 100_000
}
