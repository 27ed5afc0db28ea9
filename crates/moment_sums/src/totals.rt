ghost use Rattle.std.specs.Option.{option_to_list};
ghost use Rattle.std.specs.Prelude.{◌≡◌, ◌+◌, ◌*◌, ◌^◌, ◌<◌, ◌≤◌, length, true, unsigned_abs};
ghost use Rattle.prefix_scan.specs.Laws.{most_parts};
ghost use Rattle.moment_sums.specs.Sum.{Weight, MomentX, MomentY, MomentZ, Surface, WeightAft};
ghost use Rattle.moment_sums.specs.Sum.{MomentAft, changed_by, joined, negated, of_body};
ghost use Rattle.moment_sums.specs.Bounded.{IsBounded};
ghost use Rattle.moment_sums.specs.Changes.{change_in, change_of};
ghost use Rattle.moment_sums.specs.Kept.{bodies_of, both_kept, is_bounded, kept_of, size_of};
ghost use Rattle.moment_sums.specs.Kept.{values};

use crate::changes::{add_or_take, change_shares, moment_of, surface_of};
use crate::limits::{are_centres, are_parts, are_shares, both, is_share, times};
use crate::rows::{add, add_masses, negate, negate_all, negate_masses, plus};
use crate::shares::kg;
use prefix_scan::Monoid;
use std::marker::Model;
use units_core::{Body, Frames, Step};

/// What is aboard, or what a step changes of it, added up.
#[derive(Clone, Copy, Drop)]
pub struct Totals {
    kg: i128,
    x: i128,
    y: i128,
    z: i128,
    fsm: i128,
    /// In 64 bits, which hold the mass of as many bodies as there can be: so a sum is shorter.
    weights_aft: [i64; 16],
    moments_aft: [i128; 16],
    parts: u32,
}

impl Model for Totals {
    ghost use Rattle.moment_sums.specs.Kept.{IsKept, Kept};

    ghost Value = { Kept };

    ghost view = { λ t. record {
      kg = t.kg;
      x = t.x;
      y = t.y;
      z = t.z;
      fsm = t.fsm;
      weights_aft = t.weights_aft;
      moments_aft = t.moments_aft;
      parts = t.parts;
    } };

    ghost invariant = { λ t. IsKept t.kg t.x t.y t.z t.fsm t.weights_aft t.moments_aft t.parts };

    ghost inverse = { λ v. record {
      kg = v.kg;
      x = v.x;
      y = v.y;
      z = v.z;
      fsm = v.fsm;
      weights_aft = v.weights_aft;
      moments_aft = v.moments_aft;
      parts = v.parts;
    } };
}

impl Totals {
    /// How many bodies were added or taken away.
    pub fn parts(&self) -> u32
        ensures { result ≡ self.now.parts }
    {
        self.parts
    }

    /// The displacement in kg.
    pub fn kg(&self) -> i128
        ensures { result ≡ values self.now Weight }
    {
        self.kg
    }

    /// The moment about the after perpendicular, in kg mm.
    pub fn x(&self) -> i128
        ensures { result ≡ values self.now MomentX }
    {
        self.x
    }

    /// The moment about the centre line, in kg mm.
    pub fn y(&self) -> i128
        ensures { result ≡ values self.now MomentY }
    {
        self.y
    }

    /// The moment about the keel, in kg mm.
    pub fn z(&self) -> i128
        ensures value { result ≡ values self.now MomentZ }
        ensures within { unsigned_abs result ≤ 2 ^ 20 * 10 ^ 15 }
    {
        self.z
    }

    /// The free surface moments, in kg mm.
    pub fn fsm(&self) -> i128
        ensures value { result ≡ values self.now Surface }
        ensures within { unsigned_abs result ≤ 2 ^ 20 * 10 ^ 12 }
    {
        self.fsm
    }

    /// The mass aft of a frame, in kg.
    pub fn weight_aft(&self, frame: usize) -> i128
        requires { frame < 16 }
        ensures { result ≡ values self.now (WeightAft frame) }
    {
        i128::from(self.weights_aft[frame])
    }

    /// The moment about a frame of the mass aft of it, in kg mm.
    pub fn moment_aft(&self, frame: usize) -> i128
        requires { frame < 16 }
        ensures { result ≡ values self.now (MomentAft frame) }
    {
        self.moments_aft[frame]
    }

    /// Each value with the other sign.
    pub fn minus(&self) -> Totals
        ensures values { values result ≡ negated (values self.now) }
        ensures parts { result.parts ≡ self.now.parts }
        ensures size { size_of result ≡ size_of self.now }
    {
        Totals {
            kg: negate(self.kg),
            x: negate(self.x),
            y: negate(self.y),
            z: negate(self.z),
            fsm: negate(self.fsm),
            weights_aft: negate_masses(&self.weights_aft),
            moments_aft: negate_all(&self.moments_aft),
            parts: self.parts,
        }
    }

    /// One body's own values.
    pub fn of(body: &Body, frames: &Frames) -> Totals
        ensures values { values result ≡ of_body frames.now body.now }
        ensures parts { result.parts ≡ 1 }
        ensures size { size_of result ≡ 1 }
    {
        let mut sum = Totals::unit();
        sum.change(body, frames, false);
        sum
    }
}

impl Totals {
    /// This sum with a body that is put in, or without one that is taken out.
    #[inline(always)]
    fn change(&mut self, body: &Body, frames: &Frames, taken: bool)
        requires room { size_of self.old + 1 ≤ most_parts }
        ensures kept { self.new
            ≡ both_kept self.old (kept_of (change_of taken frames.now body.now) 1) }
        ensures few { length frames.now ≤ 16 }
    {
        let place = body.place();
        self.kg = add_or_take(self.kg, kg(body), taken);
        self.x = add_or_take(self.x, moment_of(body, place.x), taken);
        self.y = add_or_take(self.y, moment_of(body, place.y), taken);
        self.z = add_or_take(self.z, moment_of(body, place.z), taken);
        self.fsm = add_or_take(self.fsm, surface_of(body), taken);
        change_shares(
            &mut self.weights_aft,
            &mut self.moments_aft,
            body,
            frames,
            taken,
        );
        self.parts += 1;
    }

    /// This sum with what is put in or without what is taken out, where there is a body.
    #[inline(always)]
    fn change_in(&mut self, body: &Option<Body>, frames: &Frames, taken: bool)
        requires room { size_of self.old + length (option_to_list body.now) ≤ most_parts }
        ensures kept { self.new ≡ both_kept self.old
            (kept_of (change_in taken frames.now body.now) (length (option_to_list body.now))) }
        ensures values { values self.new
            ≡ joined (values self.old) (change_in taken frames.now body.now) }
    {
        if let Some(body) = body {
            self.change(body, frames, taken);
        }
    }

    /// This sum after a step.
    #[inline(always)]
    fn change_by(&mut self, step: &Step, frames: &Frames)
        requires room { size_of self.old + bodies_of step.now ≤ most_parts }
        ensures kept { self.new
            ≡ both_kept self.old (kept_of (changed_by frames.now step.now) (bodies_of step.now)) }
        ensures values { values self.new
            ≡ joined (values self.old) (changed_by frames.now step.now) }
    {
        self.change_in(&step.out, frames, true);
        self.change_in(&step.put, frames, false);
    }

    /// This sum with one body more: its mass in kg, its moments and its free surface moment in kg
    /// mm, and at each frame the mass aft of it and that mass's moment.
    pub fn add(&mut self, body: &Body, frames: &Frames)
        requires room { size_of self.old + 1 ≤ most_parts }
        ensures kept { self.new ≡ both_kept self.old (kept_of (of_body frames.now body.now) 1) }
        ensures values { values self.new ≡ joined (values self.old) (of_body frames.now body.now) }
        ensures size { size_of self.new ≡ size_of self.old + 1 }
    {
        self.change(body, frames, false);
    }

    /// This sum after a step: without the body that the step takes out, with the one that it puts
    /// in. Masses are in kg, moments in kg mm. It is what joining [`Totals::of_step`] to it gives,
    /// with no sum in between.
    pub fn add_step(&mut self, step: &Step, frames: &Frames)
        requires room { size_of self.old + bodies_of step.now ≤ most_parts }
        ensures { self.new
            ≡ both_kept self.old (kept_of (changed_by frames.now step.now) (bodies_of step.now)) }
    {
        self.change_by(step, frames);
    }
}

impl Totals {
    /// What a step changes: the body that it takes out with the other sign, and the one that it
    /// puts in. The share of a body that is taken out is its share when it was put in, negated.
    pub fn of_step(step: &Step, frames: &Frames) -> Totals
        ensures values { values result ≡ changed_by frames.now step.now }
        ensures parts { result.parts ≡ bodies_of step.now }
        ensures size { size_of result ≤ 2 }
        ensures kept { result ≡ kept_of (changed_by frames.now step.now) (bodies_of step.now) }
    {
        let mut sum = Totals::unit();
        sum.change_by(step, frames);
        sum
    }

    /// Makes this what a step changes, as [`Totals::of_step`] gives it, but in place: a sum that is
    /// returned is copied.
    pub fn set_step(&mut self, step: &Step, frames: &Frames)
        ensures kept { self.new ≡ kept_of (changed_by frames.now step.now) (bodies_of step.now) }
        ensures size { size_of self.new ≤ 2 }
    {
        *self = Totals::unit();
        self.change_by(step, frames);
    }
}

impl Totals {
    /// Whether the bodies of a ship can add up to this: no negative mass, no centre beyond a
    /// kilometre either way, aft of each frame no more mass than there is, no mass more than two
    /// kilometres aft of it, and free surface moments of at most 2 * 10^14 kg mm.
    pub fn is_bounded(&self) -> bool
        ensures tests { result ≡ is_bounded self.now }
        ensures bounds { result ≡ true → IsBounded (values self.now) }
    {
        let centres = are_centres(times(1_000_000, self.kg), self.x, self.y, self.z);
        let surface = is_share(200_000_000_000_000, self.fsm);
        let weights = are_parts(self.kg, &self.weights_aft);
        let moments = are_shares(times(2_000_000, self.kg), &self.moments_aft);
        both(
            both(0 <= self.kg, both(centres, surface)),
            both(weights, moments),
        )
    }
}

impl Monoid for Totals {
    ghost use Rattle.moment_sums.specs.Kept.{both_kept, none_kept, size_of};
    ghost use Rattle.moment_sums.specs.KeptLaws.{kept_laws};

    ghost empty = { none_kept };

    ghost op = { both_kept };

    ghost weight = { size_of };

    ghost laws = { kept_laws };

    fn unit() -> Totals {
        Totals {
            kg: 0,
            x: 0,
            y: 0,
            z: 0,
            fsm: 0,
            weights_aft: [0; 16],
            moments_aft: [0; 16],
            parts: 0,
        }
    }

    fn size(&self) -> u32 {
        self.parts
    }

    fn join(&self, right: &Totals) -> Totals {
        Totals {
            kg: plus(self.kg, right.kg),
            x: plus(self.x, right.x),
            y: plus(self.y, right.y),
            z: plus(self.z, right.z),
            fsm: plus(self.fsm, right.fsm),
            weights_aft: add_masses(&self.weights_aft, &right.weights_aft),
            moments_aft: add(&self.moments_aft, &right.moments_aft),
            parts: self.parts + right.parts,
        }
    }
}
