//! The curves by step: which points of each are drawn, worked out once for its chart and for the
//! script.
use claim_run::{Gate, Job, Workers, run};
use plain_text::count_of;
use std::alloc::{AllocError, Global};
use std::marker::Model;
use std::sync::Wait;
use std::thread::Threads;
use view_curves::{Figure, Series, drawn_points};

/// The figures of the curves, in the order in which the script names them. Behind them is the curve
/// of the least metacentric height.
pub const FIGURES: [Figure; 7] = [
    Figure::Gm,
    Figure::List,
    Figure::Aft,
    Figure::Fwd,
    Figure::Trim,
    Figure::Shear,
    Figure::Bending,
];

/// The number of the curve of the least metacentric height, and of all curves.
const LEAST_GM: usize = 7;

const COUNT: u32 = 8;

/// A point of a curve.
#[derive(Clone, Copy, Debug)]
pub struct CurvePoint {
    pub step: u32,
    pub figure: i128,
    /// Whether a condition without a figure lies between it and the point before.
    pub is_broken: bool,
}

/// The points of a curve that are drawn, in their order.
#[derive(Drop)]
struct Thinned {
    number: u32,
    points: Vec<CurvePoint>,
}

impl Model for Thinned {
    ghost use Rattle.std.specs.Prelude.{ℕ};

    ghost Value = { ℕ };

    ghost view = { λ t. t.number };
}

/// A figure of each condition, none where it has none.
fn curve_of(
    alloc: Global,
    series: &Series,
    figure: Figure,
) -> Result<Vec<Option<i128>>, AllocError> {
    let mut curve = Vec::with_capacity(alloc, series.figures().len())?;
    for plotted in series.figures() {
        curve.push(match plotted {
            Some(plotted) => plotted.figure(figure),
            None => None,
        })?;
    }
    Ok(curve)
}

/// Whether a condition without a figure lies between one, if there is one, and another behind it.
fn is_broken(figures: &[Option<i128>], before: Option<usize>, behind: usize) -> bool {
    let Some(before) = before else {
        return false;
    };
    for at in before.saturating_add(1)..behind {
        if let Some(None) = figures.get(at) {
            return true;
        }
    }
    false
}

/// The points of a curve that are drawn.
fn points_of(alloc: Global, figures: &[Option<i128>]) -> Result<Vec<CurvePoint>, AllocError> {
    let mut points = Vec::new(alloc);
    let mut before = None;
    for at in &drawn_points(alloc, figures)? {
        if let Some(Some(figure)) = figures.get(*at) {
            points.push(CurvePoint {
                step: count_of(*at),
                figure: *figure,
                is_broken: is_broken(figures, before, *at),
            })?;
            before = Some(*at);
        }
    }
    Ok(points)
}

/// The points of each curve, as a job for workers.
#[derive(Drop)]
struct Thinning<'a> {
    series: &'a Series,
}

impl<'a> Job for Thinning<'a> {
    type Out = Thinned;

    ghost value = { λ t k. k };

    ghost pieces = { λ t. 8 };

    fn piece(&self, alloc: Global, k: u32) -> Result<Thinned, AllocError> {
        let points = match FIGURES.get(k as usize) {
            Some(figure) => points_of(alloc, curve_of(alloc, self.series, *figure)?.as_slice())?,
            None => points_of(alloc, self.series.beside().least_gm.as_slice())?,
        };
        Ok(Thinned { number: k, points })
    }
}

/// The curves by step of some conditions.
#[derive(Drop)]
pub struct Curves {
    all: Vec<Thinned>,
}

/// The curves by step of all conditions, each worked out by one of the workers.
pub fn curves_of<G: Gate, R: Threads + Wait + Sync>(
    rt: &R,
    alloc: Global,
    gate: &G,
    workers: Workers,
    series: &Series,
) -> Result<Curves, AllocError> {
    let all = run(rt, alloc, gate, workers, COUNT, &Thinning { series })?;
    Ok(Curves { all })
}

impl Curves {
    /// The points of the curve of a number.
    fn at(&self, number: usize) -> &[CurvePoint] {
        match self.all.get(number) {
            Some(thinned) => thinned.points.as_slice(),
            None => &[],
        }
    }

    /// The points of the curve of a figure.
    pub fn of(&self, figure: Figure) -> &[CurvePoint] {
        let mut number = 0usize;
        for other in FIGURES {
            if other == figure {
                break;
            }
            number = number.saturating_add(1);
        }
        self.at(number)
    }

    /// The points of the curve of the least metacentric height.
    pub fn least_gm(&self) -> &[CurvePoint] {
        self.at(LEAST_GM)
    }
}
