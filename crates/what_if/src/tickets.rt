ghost use Rattle.std.specs.Prelude.{◌≡◌};

use boxcar::Pushed;
use lift_sequence::Op;
use std::marker::Model;

/// What opens a list at the desk where it was published. It has no list itself: the list is at the
/// desk.
#[derive(Drop)]
pub struct Ticket {
    place: usize,
    pushed: Pushed<Vec<Op>>,
}

impl Model for Ticket {
    ghost use Rattle.std.specs.Prelude.{◌≡◌};
    ghost use Rattle.what_if.specs.Desks.{TicketRecord};

    ghost Value = { TicketRecord };

    ghost view = { λ t. record { place = t.place; list = t.pushed } };

    ghost invariant = { λ t. t.place ≡ t.pushed.index };
}

impl Ticket {
    /// The ticket of a list that was published.
    pub(crate) fn of(pushed: Pushed<Vec<Op>>) -> Ticket
        ensures { result ≡ record { place = pushed.index; list = pushed } }
    {
        let place = pushed.index();
        Ticket { place, pushed }
    }

    /// The number of the list, which is passed on to a colleague.
    pub fn place(&self) -> usize
        ensures { result ≡ self.now.place }
    {
        self.place
    }

    /// What shows the list at its desk.
    pub(crate) fn entry(&self) -> &Pushed<Vec<Op>>
        ensures list { result.now ≡ self.now.list }
        ensures place { result.now.index ≡ self.now.place }
    {
        &self.pushed
    }
}
