ghost use Rattle.std.specs.Prelude.{◌≡◌, option_map};
ghost use Rattle.units_core.specs.Steps.{body_weighed, step_weighed};

use crate::bodies::Body;
use crate::measures::Kg;

/// What a step does to the bodies aboard: it takes the one out and puts the other in. A filling
/// takes out what its tank held before.
#[derive(Clone, Copy, Debug, PartialEq, Eq)]
pub struct Step {
    /// The body that it takes out, if there is one.
    pub out: Option<Body>,
    /// The body that it puts in, if there is one.
    pub put: Option<Body>,
}

/// The body of another weight, if there is one.
fn body_with_weight(body: Option<Body>, kg: Kg) -> Option<Body>
    ensures { result ≡ option_map (body_weighed kg) body }
{
    let body = body?;
    Body::new(kg.get(), body.place(), body.fsm())
}

impl Step {
    /// The step with bodies of another weight.
    pub fn with_weight(&self, kg: Kg) -> Step
        ensures { result ≡ step_weighed kg self.now }
    {
        Step {
            out: body_with_weight(self.out, kg),
            put: body_with_weight(self.put, kg),
        }
    }
}
