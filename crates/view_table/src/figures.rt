//! What is told of a condition, as a line of a table has it, written from its end to its beginning.
ghost use Rattle.std.specs.Prelude.{◌≡◌, ℕ, ◌+◌, ◌-◌, ◌*◌, ◌≤◌, pos, ◌∷◌, ◌++◌, Some, codes};
ghost use Rattle.std.specs.Prelude.{IsAscii, OnOk, length, map, replicate, string_bytes};
ghost use Rattle.std.specs.Fmt.{signed_decimal};
ghost use Rattle.decimal_text.specs.Numbers.{pairs_up_to};
ghost use Rattle.units_core.specs.Interpolation.{at};
ghost use Rattle.criteria.specs.Judgement.{judgement_by, read};
ghost use Rattle.seq_report.specs.Columns.{columns, figure_of};
ghost use Rattle.seq_report.specs.Report.{cause_of};
ghost use Rattle.view_table.specs.Tables.{array, csv_front, csv_numbers, csv_verdict, field};
ghost use Rattle.view_table.specs.Tables.{fields};
ghost use Rattle.view_table.specs.Tables.{json_failure, json_front, json_loads, json_verdict};
ghost use Rattle.view_table.specs.Tables.{least_member, member, members, statement_by, told};

use crate::forms::Form;
use crate::judged::Judged;
use criteria::RoundedFigures;
use decimal_text::BackwardText;
use hydrostat::Outside;
use seq_report::cause_word;
use std::alloc::AllocError;

/// Writes a number behind a comma before the text, or the comma alone where there is none.
fn put_field(end: &mut BackwardText<'_>, number: Option<i128>)
    requires room { length end.old + 41 ≤ 2048 }
    ensures text { end.new ≡ field number ++ end.old }
    ensures short { length end.new ≤ length end.old + 41 }
{
    match number {
        Some(number) => end.put_parted(b',', number),
        None => end.put_byte(b','),
    }
}

/// Writes so many commas before the text.
fn put_commas(end: &mut BackwardText<'_>, count: usize)
    requires room { length end.old + count ≤ 2048 }
    ensures text { end.new ≡ replicate count 44 ++ end.old }
{
    for _comma in 0..count {
        end.put_byte(b',');
    }
}

/// Writes the figures of the report's columns before the text, each behind a comma.
fn put_columns(end: &mut BackwardText<'_>, figures: &RoundedFigures)
    requires room { length end.old + 492 ≤ 2048 }
    ensures text { end.new ≡ fields (map (figure_of (read figures.now)) columns) ++ end.old }
    ensures short { length end.new ≤ length end.old + 492 }
{
    let behind = [
        figures.area_30,
        figures.area_40,
        figures.area_30_40,
        figures.lever,
        figures.angle as i128,
        i128::from(figures.strains.closing),
    ];
    end.put_each(b',', &behind);
    put_field(end, figures.list);
    let before = [
        figures.gm,
        figures.mean,
        figures.aft,
        figures.fwd,
        figures.trim,
    ];
    end.put_each(b',', &before);
}

/// Writes the loads at each frame, and behind them the least metacentric height, before the text,
/// each behind a comma.
fn put_loads(end: &mut BackwardText<'_>, judged: &Judged)
    requires room { length end.old + 1353 ≤ 2048 }
    ensures text { end.new ≡ (44 ∷ pairs_up_to 44 44 (read judged.now.figures).shear
        (read judged.now.figures).bending (judged.now.frames - 1))
        ++ (field judged.now.least_gm ++ end.old) }
    ensures short { length end.new ≤ length end.old + 1353 }
{
    put_field(end, judged.least_gm);
    let strains = &judged.figures.strains;
    end.put_pairs(
        b',',
        b',',
        b',',
        &strains.shear,
        &strains.bending,
        judged.frames - 1,
    );
}

/// Writes the numbers of a condition within the tables before the text.
fn put_numbers(end: &mut BackwardText<'_>, judged: &Judged)
    requires room { length end.old + 1886 ≤ 2048 }
    ensures { end.new ≡ csv_numbers judged.now.frames judged.now.kg (read judged.now.figures)
        judged.now.least_gm ++ end.old }
{
    put_loads(end, judged);
    put_columns(end, &judged.figures);
    end.put_parted(b',', judged.kg);
}

/// Writes the displacement before the text, and behind it as many empty fields as a condition
/// within the tables has numbers.
fn put_no_numbers(end: &mut BackwardText<'_>, judged: &Judged)
    requires room { length end.old + 100 ≤ 2048 }
    ensures { end.new
        ≡ ((44 ∷ signed_decimal judged.now.kg) ++ replicate (2 * judged.now.frames + 13) 44)
        ++ end.old }
{
    put_commas(end, 2 * judged.frames + 13);
    end.put_parted(b',', judged.kg);
}

/// Writes the verdict before the text.
fn put_csv_verdict(end: &mut BackwardText<'_>, judged: &Judged)
    requires room { length end.old + 30 ≤ 2048 }
    ensures text { end.new
        ≡ csv_verdict (judgement_by judged.now.first judged.now.figures) ++ end.old }
    ensures short { length end.new ≤ length end.old + 30 }
{
    match judged.first {
        Err(outside) => {
            end.put_words(cause_word(outside));
            end.put_words(",FAIL,C0,C0,");
        }
        Ok(Some(criterion)) => {
            end.put_byte(b',');
            end.put_words(criterion.code());
            end.put_words(",FAIL,");
        }
        Ok(None) => end.put_words(",PASS,,,"),
    }
}

/// Writes what comes before the verdict before the text.
fn put_csv_front(end: &mut BackwardText<'_>, judged: &Judged)
    requires room { length end.old + 1886 ≤ 2048 }
    ensures { end.new ≡ csv_front judged.now.frames judged.now.kg
        (judgement_by judged.now.first judged.now.figures) judged.now.least_gm ++ end.old }
{
    match judged.first {
        Err(_) => put_no_numbers(end, judged),
        Ok(Some(_)) => put_numbers(end, judged),
        Ok(None) => put_numbers(end, judged),
    }
}

/// Adds what is told of a condition, as CSV.
fn add_csv(text: &mut String, end: &mut BackwardText<'_>, judged: &Judged) -> Result<(), AllocError>
    ensures { (k : ℕ) → OnOk result (string_bytes text.new
        ≡ string_bytes text.old ++ told Form.Csv (statement_by k judged.now) judged.now.least_gm) }
{
    end.clear();
    put_csv_verdict(end, judged);
    put_csv_front(end, judged);
    end.append_to(text)
}

/// Writes a number behind its key before the text.
fn put_member(end: &mut BackwardText<'_>, key: &str, number: i128)
    requires room { length end.old + 41 + length key.now ≤ 2048 }
    requires ascii { IsAscii key.now }
    ensures text { end.new ≡ member key.now (Some number) ++ end.old }
    ensures short { length end.new ≤ length end.old + 41 + length key.now }
{
    end.put_parted(b':', number);
    end.put_words(key);
}

/// Writes the list behind its key before the text; `null` where there is none.
fn put_list(end: &mut BackwardText<'_>, list: Option<i128>)
    requires room { length end.old + 52 ≤ 2048 }
    ensures text { end.new ≡ member (codes ",\"list_e4\"") list ++ end.old }
    ensures short { length end.new ≤ length end.old + 52 }
{
    match list {
        Some(list) => put_member(end, ",\"list_e4\"", list),
        None => {
            end.put_words(":null");
            end.put_words(",\"list_e4\"");
        }
    }
}

/// Writes what is taken of the levers, and the closing error, before the text, each behind its key.
fn put_levers(end: &mut BackwardText<'_>, figures: &RoundedFigures)
    requires room { length end.old + 161 ≤ 2048 }
    ensures text { end.new ≡ member (codes ",\"gz_mm\"") (Some figures.now.lever)
        ++ (member (codes ",\"angle_deg\"") (Some (pos figures.now.angle))
        ++ (member (codes ",\"close_kg\"") (Some figures.now.strains.closing) ++ end.old)) }
    ensures short { length end.new ≤ length end.old + 161 }
{
    put_member(end, ",\"close_kg\"", i128::from(figures.strains.closing));
    put_member(end, ",\"angle_deg\"", figures.angle as i128);
    put_member(end, ",\"gz_mm\"", figures.lever);
}

/// Writes the areas under the levers before the text, each behind its key.
fn put_areas(end: &mut BackwardText<'_>, figures: &RoundedFigures)
    requires room { length end.old + 175 ≤ 2048 }
    ensures text { end.new ≡ member (codes ",\"a30_mmdeg\"") (Some figures.now.area_30)
        ++ (member (codes ",\"a40_mmdeg\"") (Some figures.now.area_40)
        ++ (member (codes ",\"a3040_mmdeg\"") (Some figures.now.area_30_40) ++ end.old)) }
    ensures short { length end.new ≤ length end.old + 175 }
{
    put_member(end, ",\"a3040_mmdeg\"", figures.area_30_40);
    put_member(end, ",\"a40_mmdeg\"", figures.area_40);
    put_member(end, ",\"a30_mmdeg\"", figures.area_30);
}

/// Writes the figures before the list before the text, each behind its key.
fn put_before(end: &mut BackwardText<'_>, figures: &RoundedFigures)
    requires room { length end.old + 270 ≤ 2048 }
    ensures text { end.new ≡ member (codes ",\"gm_mm\"") (Some figures.now.gm)
        ++ (member (codes ",\"mean_mm\"") (Some figures.now.mean)
        ++ (member (codes ",\"aft_mm\"") (Some figures.now.aft)
        ++ (member (codes ",\"fwd_mm\"") (Some figures.now.fwd)
        ++ (member (codes ",\"trim_mm\"") (Some figures.now.trim) ++ end.old)))) }
    ensures short { length end.new ≤ length end.old + 270 }
{
    put_member(end, ",\"trim_mm\"", figures.trim);
    put_member(end, ",\"fwd_mm\"", figures.fwd);
    put_member(end, ",\"aft_mm\"", figures.aft);
    put_member(end, ",\"mean_mm\"", figures.mean);
    put_member(end, ",\"gm_mm\"", figures.gm);
}

/// Writes the figures of the report's columns before the text, each behind its key.
fn put_members(end: &mut BackwardText<'_>, figures: &RoundedFigures)
    requires room { length end.old + 658 ≤ 2048 }
    ensures text { end.new ≡ members (read figures.now) ++ end.old }
    ensures short { length end.new ≤ length end.old + 658 }
{
    put_levers(end, figures);
    put_areas(end, figures);
    put_list(end, figures.list);
    put_before(end, figures);
}

/// Writes the loads at the first frames behind their key before the text.
fn put_array(end: &mut BackwardText<'_>, key: &str, loads: &[i128; 16], frames: usize)
    requires some { 1 ≤ frames }
    requires few { frames ≤ 16 }
    requires room { length end.old + 657 + length key.now ≤ 2048 }
    requires ascii { IsAscii key.now }
    ensures text { end.new ≡ (key.now ++ array (λ i. at loads.now i) frames) ++ end.old }
    ensures short { length end.new ≤ length end.old + 657 + length key.now }
{
    end.put_byte(b']');
    end.put_each(b',', &loads[1..frames]);
    end.put_parted(b'[', loads[0]);
    end.put_words(key);
}

/// Writes the least metacentric height behind its key before the text, where there is one.
fn put_least(end: &mut BackwardText<'_>, least_gm: Option<i128>)
    requires room { length end.old + 56 ≤ 2048 }
    ensures text { end.new ≡ least_member least_gm ++ end.old }
    ensures short { length end.new ≤ length end.old + 56 }
{
    if let Some(least) = least_gm {
        put_member(end, ",\"least_gm_mm\"", least);
    }
}

/// Loads as numbers of the width in which texts take them.
fn widened(loads: &[i64; 16]) -> [i128; 16]
    ensures { (i : ℕ) → at result i ≡ at loads.now i }
{
    let mut wide = [0i128; 16];
    for i in 0..16usize {
        wide[i] = i128::from(loads[i]);
    }
    wide
}

/// Writes the loads of a condition, and the least metacentric height, before the text.
fn put_json_loads(end: &mut BackwardText<'_>, judged: &Judged)
    requires room { length end.old + 1400 ≤ 2048 }
    ensures { end.new ≡ json_loads judged.now.frames (read judged.now.figures)
        judged.now.least_gm ++ end.old }
{
    put_least(end, judged.least_gm);
    let strains = &judged.figures.strains;
    let bending = widened(&strains.bending);
    let shear = widened(&strains.shear);
    put_array(end, ",\"bending_kgmm\":", &bending, judged.frames);
    put_array(end, ",\"shear_kg\":", &shear, judged.frames);
}

/// Writes the displacement and the figures before the text.
fn put_json_front(end: &mut BackwardText<'_>, judged: &Judged)
    requires room { length end.old ≡ 0 }
    ensures { end.new ≡ json_front judged.now.kg
        (judgement_by judged.now.first judged.now.figures) ++ end.old }
{
    if judged.first.is_ok() {
        put_members(end, &judged.figures);
    }
    put_member(end, ",\"kg\"", judged.kg);
}

/// Writes the verdict and the criterion that isn't met before the text.
fn put_failure(end: &mut BackwardText<'_>, code: &str)
    requires room { length end.old + 60 ≤ 2048 }
    requires ascii { IsAscii code.now }
    requires few { length code.now ≤ 3 }
    ensures text { end.new ≡ json_failure code.now ++ end.old }
    ensures short { length end.new ≤ length end.old + 60 }
{
    end.put_byte(b'"');
    end.put_words(code);
    end.put_words(",\"criterion\":\"");
    end.put_words(",\"verdict\":\"FAIL\"");
}

/// Writes the table outside of which the condition lies, and the verdict, before the text.
fn put_json_outside(end: &mut BackwardText<'_>, outside: Outside)
    requires room { length end.old + 90 ≤ 2048 }
    ensures { end.new ≡ (codes ",\"outside\":\"" ++ (cause_of outside
        ++ (codes "\"" ++ json_failure (codes "C0")))) ++ end.old }
{
    put_failure(end, "C0");
    end.put_byte(b'"');
    end.put_words(cause_word(outside));
    end.put_words(",\"outside\":\"");
}

/// Writes the loads, and the criterion that isn't met, before the text.
fn put_failing(end: &mut BackwardText<'_>, judged: &Judged, code: &str)
    requires room { length end.old ≡ 0 }
    requires ascii { IsAscii code.now }
    requires few { length code.now ≤ 3 }
    ensures { end.new ≡ (json_loads judged.now.frames (read judged.now.figures)
        judged.now.least_gm ++ json_failure code.now) ++ end.old }
{
    put_failure(end, code);
    put_json_loads(end, judged);
}

/// Writes the loads, and that all criteria are met, before the text.
fn put_passing(end: &mut BackwardText<'_>, judged: &Judged)
    requires room { length end.old ≡ 0 }
    ensures { end.new ≡ (json_loads judged.now.frames (read judged.now.figures)
        judged.now.least_gm ++ codes ",\"verdict\":\"PASS\"") ++ end.old }
{
    end.put_words(",\"verdict\":\"PASS\"");
    put_json_loads(end, judged);
}

/// Writes the loads and the verdict before the text; or the table outside of which the condition
/// lies.
fn put_json_verdict(end: &mut BackwardText<'_>, judged: &Judged)
    requires room { length end.old ≡ 0 }
    ensures { end.new ≡ json_verdict judged.now.frames
        (judgement_by judged.now.first judged.now.figures) judged.now.least_gm ++ end.old }
{
    match judged.first {
        Err(outside) => put_json_outside(end, outside),
        Ok(Some(criterion)) => put_failing(end, judged, criterion.code()),
        Ok(None) => put_passing(end, judged),
    }
}

/// Adds what is told of a condition, as JSON.
fn add_json(
    text: &mut String,
    end: &mut BackwardText<'_>,
    judged: &Judged,
) -> Result<(), AllocError>
    ensures { (k : ℕ) → OnOk result (string_bytes text.new
        ≡ string_bytes text.old ++ told Form.Jsonl (statement_by k judged.now)
        judged.now.least_gm) }
{
    end.clear();
    put_json_front(end, judged);
    end.append_to(text)?;
    end.clear();
    put_json_verdict(end, judged);
    end.append_to(text)
}

/// Adds what is told of a condition, whatever `end` held before.
pub fn add_told(
    text: &mut String,
    end: &mut BackwardText<'_>,
    form: Form,
    judged: &Judged,
) -> Result<(), AllocError>
    ensures { (k : ℕ) → OnOk result (string_bytes text.new
        ≡ string_bytes text.old ++ told form (statement_by k judged.now) judged.now.least_gm) }
{
    match form {
        Form::Csv => add_csv(text, end, judged),
        Form::Jsonl => add_json(text, end, judged),
    }
}
