ghost use Rattle.std.specs.Prelude.{◌≡◌, ◌⊎◌, ℕ, List, ◌∷◌};
ghost use Rattle.edifact_text.specs.declared.faults.EdiFault.{EdiFault};
ghost use Rattle.edifact_text.specs.declared.faults.Kind.{Kind};
ghost use Rattle.edifact_text.specs.declared.service.Service.{Service};
ghost use Rattle.edifact_text.specs.Interchange.{Numbered, Parts};
ghost use Rattle.edifact_text.specs.Spelling.{Segment, Apart, terminated};
ghost use Rattle.edifact_text.specs.Faults.{IsMessage, IsFault};
ghost use Rattle.edifact_text.specs.Reading.{cut_text, segment_of, opened};

/// A text has one reading: it is exactly one message of the kind, or it has exactly one fault.
/// [`open`](crate::open) answers what the definitions say (`specs/Spelling.antt`,
/// `specs/Rows.antt`, `specs/Faults.antt`). Of one segment: where it is spelt before a terminator,
/// it is read there, and what is read there is spelt so.
pub fn one_reading()
    ensures message { (kind : Kind) (text : List ℕ) (mark : ℕ) (segments : List Numbered) →
        IsMessage kind text mark segments
        → opened kind text ≡ Ok (record { mark = mark; segments = segments }) }
    ensures fault { (kind : Kind) (text : List ℕ) (f : EdiFault) → IsFault kind text f
        → opened kind text ≡ Err f }
    ensures either { (kind : Kind) (text : List ℕ) →
        ((mark : ℕ) × (segments : List Numbered) × IsMessage kind text mark segments)
        ⊎ ((f : EdiFault) × IsFault kind text f) }
    ensures not_both { (kind : Kind) (text : List ℕ) (mark : ℕ) (segments : List Numbered)
        (f : EdiFault) → IsMessage kind text mark segments → IsFault kind text f → ⊥ }
    ensures spelt { (sv : Service) (s : Parts) (bytes behind : List ℕ) →
        Apart sv → Segment sv s bytes →
        (cut_text sv (terminated sv bytes behind) ≡ bytes ∷ cut_text sv behind)
        × (segment_of sv bytes ≡ s) }
    ensures read { (sv : Service) (text bytes next : List ℕ) (more : List (List ℕ)) →
        cut_text sv text ≡ bytes ∷ next ∷ more → Segment sv (segment_of sv bytes) bytes }
{}
