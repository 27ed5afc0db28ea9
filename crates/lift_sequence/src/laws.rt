ghost use Rattle.std.specs.Prelude.{◌≡◌, ◌⊎◌, ◌↔◌, ◌+◌, ℕ, List, All, true, length, take, Option};
ghost use Rattle.std.specs.Prelude.{Some, None};
ghost use Rattle.std.specs.List.{Contains};
ghost use Rattle.std.specs.Option.{is_some};
ghost use Rattle.stow_messages.specs.declared.items.Item.{Item};
ghost use Rattle.stow_messages.specs.declared.lifts.Lift.{Lift};
ghost use Rattle.stow_messages.specs.declared.step_rows.StepRow.{StepRow};
ghost use Rattle.stow_messages.specs.Steps.{EachLiftOnce};
ghost use Rattle.ship_profile.specs.declared.fills.TankFill.{TankFill};
ghost use Rattle.ship_profile.specs.Record.{ProfileRecord, Texts};
ghost use Rattle.ship_profile.specs.Written.{IsWritten};
ghost use Rattle.units_core.specs.declared.cells.Cell.{Cell};
ghost use Rattle.lift_sequence.specs.declared.containers.Container.{Container};
ghost use Rattle.lift_sequence.specs.declared.faults.SeqFault.{SeqFault};
ghost use Rattle.lift_sequence.specs.declared.operations.Op.{Op};
ghost use Rattle.lift_sequence.specs.Aboard.{Aboard, after_all, with_cell};
ghost use Rattle.lift_sequence.specs.Arrival.{arrival_bodies, arrival_fault, on_arrival};
ghost use Rattle.lift_sequence.specs.Bodies.{bodies};
ghost use Rattle.lift_sequence.specs.Faults.{IsArrivalFault, IsLegalArrival, IsLegalSequence};
ghost use Rattle.lift_sequence.specs.Faults.{IsSequenceFault};
ghost use Rattle.lift_sequence.specs.Follow.{AreReweighedOnce, FewMoves, Reweighs};
ghost use Rattle.lift_sequence.specs.Follow.{ReweighsSequences};
ghost use Rattle.lift_sequence.specs.Independent.{IndependentCommute, TellsIndependent};
ghost use Rattle.lift_sequence.specs.Legal.{overlap};
ghost use Rattle.lift_sequence.specs.Places.{HasLift, HasPlaces, filled_tanks, taken_cells};
ghost use Rattle.lift_sequence.specs.Rivals.{HaveShortBays, HasNoRival, IsLeastRival};
ghost use Rattle.lift_sequence.specs.Sequence.{ops_of, sequence_fault};

/// An arrival has one answer: nothing is wrong with it, or it has exactly one fault. The answer
/// that the definitions (`specs/Faults.antt`) give is the one that
/// [`Arrival::new`](crate::Arrival::new) answers.
pub fn arrivals_have_one_answer()
    ensures fault { (ship : ProfileRecord) (items : List Item) (fills : List TankFill)
        (f : SeqFault) → IsArrivalFault ship items fills f →
        arrival_fault ship items fills ≡ Some f }
    ensures legal { (ship : ProfileRecord) (items : List Item) (fills : List TankFill) →
        IsLegalArrival ship items fills → arrival_fault ship items fills ≡ None }
    ensures either { (ship : ProfileRecord) (items : List Item) (fills : List TankFill) →
        IsLegalArrival ship items fills ⊎ ((f : SeqFault) × IsArrivalFault ship items fills f) }
    ensures not_both { (ship : ProfileRecord) (items : List Item) (fills : List TankFill)
        (f : SeqFault) → IsLegalArrival ship items fills → IsArrivalFault ship items fills f → ⊥ }
{}

/// A sequence of steps has one answer too, whatever is aboard; it is what
/// [`Sequence::new`](crate::Sequence::new) answers.
pub fn sequences_have_one_answer()
    ensures fault { (ship : ProfileRecord) (at : Aboard) (ops : List Op) (f : SeqFault) →
        IsSequenceFault ship at ops f → sequence_fault ship at ops ≡ Some f }
    ensures legal { (ship : ProfileRecord) (at : Aboard) (ops : List Op) →
        IsLegalSequence ship at ops → sequence_fault ship at ops ≡ None }
    ensures either { (ship : ProfileRecord) (at : Aboard) (ops : List Op) →
        IsLegalSequence ship at ops ⊎ ((f : SeqFault) × IsSequenceFault ship at ops f) }
    ensures not_both { (ship : ProfileRecord) (at : Aboard) (ops : List Op) (f : SeqFault) →
        IsLegalSequence ship at ops → IsSequenceFault ship at ops f → ⊥ }
{}

/// The rival of a cell is named exactly where an occupied cell overlaps it, and is the one of least
/// bay (`specs/Rivals.antt`). The law is for bays of three digits; such are all bays of a ship
/// whose cells are read from a text.
pub fn overlaps_are_least()
    ensures none { (cells : Cell → Option Container) (cell : Cell) →
        HaveShortBays cells → (overlap cells cell ≡ None) ↔ HasNoRival cells cell }
    ensures some { (cells : Cell → Option Container) (cell rival : Cell) →
        HaveShortBays cells → (overlap cells cell ≡ Some rival) ↔ IsLeastRival cells cell rival }
    ensures bays { (texts : Texts) (ship : ProfileRecord) (at : Aboard) →
        IsWritten texts ship → HasPlaces ship at → HaveShortBays at.cells }
{}

/// What is aboard on arrival, and after any number of steps, has its place in the ship
/// (`HasPlaces`), where nothing is wrong with the arrival and the sequence; and so has what is left
/// when a cell is emptied, by which the second cell of a restow is judged.
pub fn cargo_has_places()
    ensures arrival { (ship : ProfileRecord) (items : List Item) (fills : List TankFill) →
        arrival_fault ship items fills ≡ None → HasPlaces ship (on_arrival items fills) }
    ensures steps { (ship : ProfileRecord) (at : Aboard) (ops : List Op) (k : ℕ) →
        HasPlaces ship at → sequence_fault ship at ops ≡ None →
        HasPlaces ship (after_all ship at (take k ops)) }
    ensures emptied { (ship : ProfileRecord) (at : Aboard) (cell : Cell) →
        HasPlaces ship at → HasPlaces ship (with_cell at cell None) }
{}

/// No body and no step is lost: there are as many bodies on arrival as blocks, fills and items; of
/// all that has its place in the ship as many as blocks, filled tanks and occupied cells, each of
/// which is counted; and as many steps as rows or lifts, where each row of a lift has the number of
/// a lift that is there.
pub fn nobody_is_lost()
    ensures arrival { (ship : ProfileRecord) (items : List Item) (fills : List TankFill) →
        arrival_fault ship items fills ≡ None → length (arrival_bodies ship items fills)
        ≡ length ship.ship.blocks + (length fills + length items) }
    ensures aboard { (ship : ProfileRecord) (at : Aboard) → HasPlaces ship at →
        length (bodies ship at) ≡ length ship.ship.blocks
        + (length (filled_tanks ship at) + length (taken_cells ship at)) }
    ensures taken { (ship : ProfileRecord) (at : Aboard) (cell : Cell) → HasPlaces ship at →
        is_some (at.cells cell) ≡ true → Contains (taken_cells ship at) cell }
    ensures filled { (ship : ProfileRecord) (at : Aboard) (tank kg : ℕ) → HasPlaces ship at →
        at.tanks tank ≡ Some kg → Contains (filled_tanks ship at) tank }
    ensures lifts { (lifts : List Lift) → length (ops_of lifts None) ≡ length lifts }
    ensures rows { (lifts : List Lift) (rows : List StepRow) → All (HasLift lifts) rows →
        length (ops_of lifts (Some rows)) ≡ length rows }
    ensures once { (lifts : List Lift) (rows : List StepRow) →
        EachLiftOnce (length lifts) rows → All (HasLift lifts) rows }
{}

/// Another weight of one load changes what its own step puts in, and what the restows of its
/// container behind it and its discharge take out and put in: these are then bodies of the new
/// weight. No other step changes, which says what every step does (`once`), and where each step
/// could be done, each still can. Behind its load a container is moved by one step more than its
/// restows at most.
pub fn weights_change_few_steps()
    ensures steps { Reweighs }
    ensures sequences { ReweighsSequences }
    ensures once { AreReweighedOnce }
    ensures few { FewMoves }
{}

/// Two steps are independent where no cell of the one is or overlaps a cell of the other, and they
/// don't fill the same tank; the test says exactly that. Each of them then has the same fault and
/// the same effect with and without the other before it, and after both the same is aboard in
/// either order.
pub fn independent_steps_commute()
    ensures test { TellsIndependent }
    ensures commute { IndependentCommute }
{}
