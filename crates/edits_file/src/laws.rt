ghost use Rattle.std.specs.Prelude.{◌≡◌, ◌⊎◌, ℕ, List, length, Ok, Err};
ghost use Rattle.std.specs.List.{join_with_byte};
ghost use Rattle.edits_file.specs.declared.files.EditsFault.{EditsFault};
ghost use Rattle.edits_file.specs.declared.forms.EditLine.{EditLine};
ghost use Rattle.edits_file.specs.Faults.{AreEdits, AreLines, IsRefusal};
ghost use Rattle.edits_file.specs.Reading.{edits_of};
ghost use Rattle.edits_file.specs.Words.{lines_in, words_in};

/// A text is its lines, each with LF behind it but for the last, and a line is its words, with a
/// space between two of them. A text is an edits file with its orders, one for each line, or it has
/// a first line that is of no form, and never both (`specs/Faults.antt`).
/// [`Edits::read`](crate::Edits::read) answers what is defined here.
pub fn one_edits_file()
    ensures lines { (text : List ℕ) → AreLines text (lines_in text) }
    ensures words { (line : List ℕ) → join_with_byte 32 (words_in line) ≡ line }
    ensures sound { (text : List ℕ) (edits : List EditLine) →
        AreEdits text edits → edits_of text ≡ Ok edits }
    ensures fault { (text : List ℕ) (f : EditsFault) → IsRefusal text f → edits_of text ≡ Err f }
    ensures either { (text : List ℕ) →
        ((edits : List EditLine) × AreEdits text edits) ⊎ ((f : EditsFault) × IsRefusal text f) }
    ensures not_both { (text : List ℕ) (edits : List EditLine) (f : EditsFault) →
        AreEdits text edits → IsRefusal text f → ⊥ }
    ensures as_many { (text : List ℕ) (edits : List EditLine) →
        edits_of text ≡ Ok edits → length edits ≡ length (lines_in text) }
{}
