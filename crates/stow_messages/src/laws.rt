ghost use Rattle.std.specs.Prelude.{◌≡◌, ◌⊎◌, ℕ, ◌-◌, List, length, Ok, Err};
ghost use Rattle.std.specs.List.{filter};
ghost use Rattle.edifact_text.specs.declared.faults.Kind.TheVariants.{Baplie, Movins};
ghost use Rattle.edifact_text.specs.Faults.{IsMessage};
ghost use Rattle.edifact_text.specs.Interchange.{Opened};
ghost use Rattle.csv_text.specs.Reading.{records_of};
ghost use Rattle.stow_messages.specs.declared.faults.StowFault.{StowFault};
ghost use Rattle.stow_messages.specs.declared.items.Item.{Item};
ghost use Rattle.stow_messages.specs.declared.lifts.Lift.{Lift};
ghost use Rattle.stow_messages.specs.declared.step_faults.StepsFault.{StepsFault};
ghost use Rattle.stow_messages.specs.declared.step_rows.StepRow.{StepRow};
ghost use Rattle.stow_messages.specs.Faults.{AreItems, AreLifts, IsPlanFault, IsInstructionFault};
ghost use Rattle.stow_messages.specs.Groups.{names_a_container};
ghost use Rattle.stow_messages.specs.Items.{bay_plan, item_groups};
ghost use Rattle.stow_messages.specs.Lifts.{lift_groups, movement_instruction};
ghost use Rattle.stow_messages.specs.StepFaults.{AreSteps, IsStepsFault};
ghost use Rattle.stow_messages.specs.Steps.{steps_of};

/// A text is a bay plan with its items, or it has a fault, and one only: that of its envelope, or
/// of the first group that is refused (`specs/Items.antt`, `specs/Faults.antt`). No container is
/// lost: there are as many items as groups with a container or a mass. [`baplie`](crate::baplie)
/// answers what is defined here.
pub fn one_bay_plan()
    ensures sound { (text : List ℕ) (items : List Item) →
        AreItems text items → bay_plan text ≡ Ok items }
    ensures fault { (text : List ℕ) (f : StowFault) →
        IsPlanFault text f → bay_plan text ≡ Err f }
    ensures either { (text : List ℕ) →
        ((items : List Item) × AreItems text items) ⊎ ((f : StowFault) × IsPlanFault text f) }
    ensures not_both { (text : List ℕ) (items : List Item) (f : StowFault) →
        AreItems text items → IsPlanFault text f → ⊥ }
    ensures as_many { (text : List ℕ) (m : Opened) (items : List Item) →
        IsMessage Baplie text m.mark m.segments → bay_plan text ≡ Ok items →
        length items ≡ length (filter names_a_container (item_groups m)) }
{}

/// A text is a movement instruction with its lifts, or it has a fault, and one only: that of its
/// envelope, or of the first part, a handling or a group, that is refused (`specs/Lifts.antt`,
/// `specs/Faults.antt`). No container is lost: there are as many lifts as groups with a container
/// or a mass. [`movins`](crate::movins) answers what is defined here.
pub fn one_movement_instruction()
    ensures sound { (text : List ℕ) (lifts : List Lift) →
        AreLifts text lifts → movement_instruction text ≡ Ok lifts }
    ensures fault { (text : List ℕ) (f : StowFault) →
        IsInstructionFault text f → movement_instruction text ≡ Err f }
    ensures either { (text : List ℕ) →
        ((lifts : List Lift) × AreLifts text lifts)
        ⊎ ((f : StowFault) × IsInstructionFault text f) }
    ensures not_both { (text : List ℕ) (lifts : List Lift) (f : StowFault) →
        AreLifts text lifts → IsInstructionFault text f → ⊥ }
    ensures as_many { (text : List ℕ) (m : Opened) (lifts : List Lift) →
        IsMessage Movins text m.mark m.segments → movement_instruction text ≡ Ok lifts →
        length lifts ≡ length (filter names_a_container (lift_groups m)) }
{}

/// A text is a steps file with its rows, each lift of the instruction in one of them, or it has a
/// fault, and one only: that of its heading, or of the first record that is refused, or else the
/// least lift that is missing (`specs/StepFaults.antt`). No record is lost: there are as many rows
/// as records under the heading. [`steps`](crate::steps) answers what is defined here.
pub fn one_steps_file()
    ensures sound { (lifts : ℕ) (text : List ℕ) (rows : List StepRow) →
        AreSteps lifts text rows → steps_of lifts text ≡ Ok rows }
    ensures fault { (lifts : ℕ) (text : List ℕ) (f : StepsFault) →
        IsStepsFault lifts text f → steps_of lifts text ≡ Err f }
    ensures either { (lifts : ℕ) (text : List ℕ) →
        ((rows : List StepRow) × AreSteps lifts text rows)
        ⊎ ((f : StepsFault) × IsStepsFault lifts text f) }
    ensures not_both { (lifts : ℕ) (text : List ℕ) (rows : List StepRow) (f : StepsFault) →
        AreSteps lifts text rows → IsStepsFault lifts text f → ⊥ }
    ensures as_many { (lifts : ℕ) (text : List ℕ) (rows : List StepRow) →
        steps_of lifts text ≡ Ok rows → length rows ≡ length (records_of text) - 1 }
{}
