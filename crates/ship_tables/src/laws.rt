ghost use Rattle.std.specs.Prelude.{◌≡◌, ◌⊎◌, ℕ, List, Ok, Err};
ghost use Rattle.csv_text.specs.Reading.{Fields, records_of};
ghost use Rattle.ship_tables.specs.declared.faults.TableFault.{TableFault};
ghost use Rattle.ship_tables.specs.declared.extents.Extent.{Extent};
ghost use Rattle.ship_tables.specs.Faults.{AreTablesOf, IsFile, IsFileFault, IsFirstFileFault};
ghost use Rattle.ship_tables.specs.Faults.{HaveFields, IsRowFault, IsRowOf, files_of, read_after};
ghost use Rattle.ship_tables.specs.Faults.{rows_of};
ghost use Rattle.ship_tables.specs.Record.{HydroTable, IsHydroTable, TablesRecord, Texts, hydro_in};
ghost use Rattle.ship_tables.specs.Record.{tables_of};
ghost use Rattle.ship_tables.specs.Tables.{Form, Row, file_in, row_in};
ghost use Rattle.ship_tables.specs.Written.{IsHydroWritten};

/// A text is a file of a form with its rows, or it has a fault, and one only: that of its heading,
/// or of the first record that is refused, or else that a table has too few rows
/// (`specs/Faults.antt`). No record is lost: there are as many rows as records under the heading,
/// and what is read holds them all. It is what the readers of the six files answer.
pub fn one_file()
    ensures sound { (form : Form) (text : List ℕ) (rows : List Row) →
        IsFile form text rows → file_in form text ≡ Ok (read_after form rows) }
    ensures fault { (form : Form) (text : List ℕ) (f : TableFault) →
        IsFileFault form text f → file_in form text ≡ Err f }
    ensures either { (form : Form) (text : List ℕ) →
        ((rows : List Row) × IsFile form text rows)
        ⊎ ((f : TableFault) × IsFileFault form text f) }
    ensures not_both { (form : Form) (text : List ℕ) (rows : List Row) (f : TableFault) →
        IsFile form text rows → IsFileFault form text f → ⊥ }
    ensures all { (form : Form) (rows : List Row) → rows_of (read_after form rows) ≡ rows }
{}

/// The fields of a record are those of a row, one for each column, or they have a fault, and one
/// only: that there are more of them or fewer, or that of the first field from the left that is
/// refused. It is what the records of the six files are read as.
pub fn one_record()
    ensures sound { (form : Form) (line : ℕ) (fields : Fields) (row : Row) →
        IsRowOf form line fields row → row_in form line fields ≡ Ok row }
    ensures fault { (form : Form) (line : ℕ) (fields : Fields) (f : TableFault) →
        IsRowFault form line fields f → row_in form line fields ≡ Err f }
    ensures either { (form : Form) (line : ℕ) (fields : Fields) →
        ((row : Row) × IsRowOf form line fields row)
        ⊎ ((f : TableFault) × IsRowFault form line fields f) }
    ensures not_both { (form : Form) (line : ℕ) (fields : Fields) (row : Row) (f : TableFault) →
        IsRowOf form line fields row → IsRowFault form line fields f → ⊥ }
{}

/// The texts of a ship's tables are files of their forms, or they have a fault, and one only: that
/// of the first file that has one, in the order `cells.csv`, `hydro.csv`, `kn.csv`, `bonjean.csv`,
/// `tanks.csv`, `gm.csv`. It is what [`Tables::read`](crate::Tables::read) answers.
pub fn one_set()
    ensures sound { (extent : Extent) (stations : ℕ) (texts : Texts) (t : TablesRecord) →
        AreTablesOf extent stations texts t → tables_of extent stations texts ≡ Ok t }
    ensures fault { (extent : Extent) (stations : ℕ) (texts : Texts) (f : TableFault) →
        IsFirstFileFault (files_of extent stations texts) f →
        tables_of extent stations texts ≡ Err f }
    ensures either { (extent : Extent) (stations : ℕ) (texts : Texts) →
        ((t : TablesRecord) × AreTablesOf extent stations texts t)
        ⊎ ((f : TableFault) × IsFirstFileFault (files_of extent stations texts) f) }
    ensures not_both { (extent : Extent) (stations : ℕ) (texts : Texts) (t : TablesRecord)
        (f : TableFault) → AreTablesOf extent stations texts t →
        IsFirstFileFault (files_of extent stations texts) f → ⊥ }
{}

/// A hydrostatic table that can be read by its first column (`IsHydroTable`), and is written in a
/// text of records of six fields each, is what the text is read as: `hydro.csv` is never refused
/// without a reason.
pub fn sound_hydro_is_read()
    ensures { (text : List ℕ) (h : HydroTable) → IsHydroTable h → IsHydroWritten text h →
        HaveFields 6 (records_of text) → hydro_in text ≡ Ok h }
{}
