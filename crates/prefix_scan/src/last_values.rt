use crate::monoids::Monoid;

/// The last value that is there, of a number of parts. The order in which two such values are
/// joined counts.
#[derive(Clone, Copy, Debug, PartialEq, Eq)]
pub struct Last {
    pub value: Option<u32>,
    pub parts: u32,
}

impl Monoid for Last {
    ghost use Rattle.prefix_scan.specs.Lasts.{joined, last_laws, none_yet};

    ghost empty = { none_yet };

    ghost op = { joined };

    ghost weight = { λ x. x.parts };

    ghost laws = { last_laws };

    fn unit() -> Last {
        Last {
            value: None,
            parts: 0,
        }
    }

    fn size(&self) -> u32 {
        self.parts
    }

    fn join(&self, right: &Last) -> Last {
        let value = match right.value {
            Some(value) => Some(value),
            None => self.value,
        };
        Last {
            value,
            parts: self.parts + right.parts,
        }
    }
}
