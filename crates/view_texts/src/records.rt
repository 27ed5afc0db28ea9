//! The first and the last object of a table of JSON.
use crate::sources::Sources;
use crate::summaries::VERSION;
use criteria::Criterion;
use port_call::Case;
use std::alloc::{AllocError, Global};
use std::fmt::Write;
use view_inputs::{Names, first_of};
use view_table::add_json_text;

/// Adds a text behind its key; it is empty where nothing says it.
fn add_text(text: &mut String, key: &str, value: &str) -> Result<(), AllocError> {
    write!(text, ",\"{key}\":")?;
    add_json_text(text, value.as_bytes())
}

/// Adds an input: what it is, its path and its digest.
fn add_input(
    text: &mut String,
    between: &str,
    what: &str,
    name: &str,
    digest: &str,
) -> Result<(), AllocError> {
    write!(text, "{between}{{\"what\":\"{what}\",\"name\":")?;
    add_json_text(text, name.as_bytes())?;
    write!(text, ",\"sha256\":\"{digest}\"}}")
}

/// Adds the inputs.
fn add_inputs(text: &mut String, names: &Names<'_>, sources: &Sources) -> Result<(), AllocError> {
    text.push_str(",\"inputs\":[")?;
    add_input(text, "", "profile", names.folder, sources.profile.as_str())?;
    add_input(
        text,
        ",",
        "bay plan",
        names.baplie,
        sources.plan.digest.as_str(),
    )?;
    add_input(
        text,
        ",",
        "instruction",
        names.movins,
        sources.moves.digest.as_str(),
    )?;
    if let (Some(name), Some(digest)) = (names.steps, &sources.steps) {
        add_input(text, ",", "steps", name, digest.as_str())?;
    }
    text.push(']')
}

/// Adds the limits.
fn add_limits(text: &mut String, case: Case<'_>) -> Result<(), AllocError> {
    let profile = case.profile;
    let list = profile.list_max();
    let draught = profile.draught_max().get();
    let trim = profile.trim_max().get();
    let closing = profile.closing_max();
    let least_gm = profile.least_gm().is_some();
    text.push_str(
        ",\"limits\":{\"gm_min_mm\":150,\"a30_min_umdeg\":3151268,\"a40_min_umdeg\":5156621,\
        \"a3040_min_umdeg\":1718874,\"gz_min_mm\":200,\"angle_min_deg\":25",
    )?;
    write!(
        text,
        ",\"list_max_e4\":{list},\"draught_max_mm\":{draught},\"trim_max_mm\":{trim}"
    )?;
    write!(
        text,
        ",\"closing_max_kg\":{closing},\"least_gm\":{least_gm}}}"
    )
}

/// Adds the frames with their limits.
fn add_frames(text: &mut String, case: Case<'_>) -> Result<(), AllocError> {
    text.push_str(",\"frames\":[")?;
    let mut between = "";
    for frame in case.profile.frames().as_slice() {
        let x = frame.x.get();
        let shear = frame.shear_max;
        let hog = frame.hog_max;
        let sag = frame.sag_max;
        write!(text, "{between}{{\"x_mm\":{x},\"shear_max_kg\":{shear}")?;
        write!(text, ",\"hog_max_kgmm\":{hog},\"sag_max_kgmm\":{sag}}}")?;
        between = ",";
    }
    text.push(']')
}

/// The first object of a table: what was read, and by which limits it is judged.
pub fn run_line(
    alloc: Global,
    case: Case<'_>,
    names: &Names<'_>,
    sources: &Sources,
) -> Result<String, AllocError> {
    let (plan, moves) = (&sources.plan.identity, &sources.moves.identity);
    let mut text = String::from_str(alloc, "{\"type\":\"run\"")?;
    add_text(&mut text, "version", VERSION)?;
    text.push_str(",\"schema\":1")?;
    add_text(&mut text, "ship", first_of(&plan.ship, &moves.ship))?;
    add_text(
        &mut text,
        "call_sign",
        first_of(&plan.call_sign, &moves.call_sign),
    )?;
    add_text(&mut text, "voyage_in", plan.voyage.as_str())?;
    add_text(&mut text, "voyage_out", moves.voyage.as_str())?;
    add_text(&mut text, "port", first_of(&plan.next, &moves.port))?;
    add_inputs(&mut text, names, sources)?;
    add_limits(&mut text, case)?;
    add_frames(&mut text, case)?;
    let conditions = case.lines();
    write!(text, ",\"conditions\":{conditions}}}\n")?;
    Ok(text)
}

/// The last object of a table: a file without it isn't whole.
pub fn end_line(
    alloc: Global,
    conditions: u32,
    first: Option<(u32, Criterion)>,
) -> Result<String, AllocError> {
    let mut text = String::new(alloc);
    write!(text, "{{\"type\":\"end\",\"conditions\":{conditions}")?;
    match first {
        None => text.push_str(",\"verdict\":\"PASS\"}\n")?,
        Some((step, criterion)) => {
            let code = criterion.code();
            write!(
                text,
                ",\"verdict\":\"FAIL\",\"first_fail\":{step},\"criterion\":\"{code}\"}}\n"
            )?;
        }
    }
    Ok(text)
}
