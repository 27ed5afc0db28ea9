//! What a verdict says, for a digest.
use crate::digests::Digest;
use criteria::{Figures, Verdict};
use hydrostat::Outside;
use units_core::Frac;

/// Takes in a fraction.
fn add_fraction(fraction: Frac, digest: &mut Digest) {
    digest.add_wide(fraction.num);
    digest.add_wide(fraction.den);
}

/// Takes in how a ship floats, with her levers and loads.
fn add_figures(figures: &Figures, digest: &mut Digest) {
    add_fraction(figures.floating.gm, digest);
    add_fraction(figures.floating.mean, digest);
    add_fraction(figures.floating.aft, digest);
    add_fraction(figures.floating.fwd, digest);
    add_fraction(figures.floating.trim, digest);
    if let Some(list) = figures.floating.list {
        add_fraction(list, digest);
    }
    for lever in &figures.levers.num {
        digest.add_wide(*lever);
    }
    digest.add_wide(figures.levers.den);
    for load in figures.loads.frames.as_slice() {
        digest.add_wide(load.shear);
        digest.add_wide(load.bending);
    }
    digest.add_wide(figures.loads.closing);
}

/// Takes in a verdict: its figures and the criterion that fails, or the table outside of which the
/// ship lies.
pub fn add_verdict(verdict: &Option<Verdict>, digest: &mut Digest) {
    match verdict {
        Some(Verdict::Passes(figures)) => add_figures(figures, digest),
        Some(Verdict::Fails(criterion, figures)) => {
            digest.add_word(criterion.code());
            add_figures(figures, digest);
        }
        Some(Verdict::Outside(outside)) => digest.add(match outside {
            Outside::Hydro => 11,
            Outside::Levers => 12,
            Outside::Bonjean => 13,
            Outside::Closing => 14,
            Outside::GmLimit => 15,
        }),
        None => digest.add(6),
    }
}
