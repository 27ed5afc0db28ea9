//! The sections of a profile's text: limits, frames, tables and what is filled.
use crate::figures::size;
use crate::limit_checks::{light_ship, list_limit};
use crate::warnings::Parts;
use plain_text::{add_wrapped, count_of, many};
use ship_profile::{Profile, TankFill};
use std::alloc::{AllocError, Global};
use units_core::Frac;
use view_figures::used_of;
use view_inputs::DECK;
use view_quotes::{
    FrameColumn, HydroColumn, Reach, ShipLimit, column_ends, frame_in_print, hydro_in_print,
    limit_in_print, metres, reach_in_metres, reach_in_tonnes, surface, tenths_of_tonnes, tonnes,
};

/// How many columns of a line there are for a key.
const KEY: usize = 34;

/// Adds a limit: what it is called, its figure with its unit, and its key.
fn add_limit(text: &mut String, name: &str, figure: &str, key: &str) -> Result<(), AllocError> {
    write!(text, "  {name:<30}{figure:>12}  {key}\n")
}

/// Adds a length in metres with its key.
fn add_length(
    alloc: Global,
    text: &mut String,
    name: &str,
    length: &str,
    key: &str,
) -> Result<(), AllocError> {
    let figure = format!(in alloc; "{length} m")?;
    add_limit(text, name, figure.as_str(), key)
}

/// Adds the light ship: how many blocks, their mass, and their centre.
fn add_light(alloc: Global, text: &mut String, profile: &Profile) -> Result<(), AllocError> {
    let blocks = profile.blocks();
    let light = light_ship(profile);
    let count = many(alloc, count_of(blocks.len()), "block")?;
    let name = format!(in alloc; "light ship, {count}")?;
    let mass = tonnes(alloc, light.kg())?;
    let figure = format!(in alloc; "{mass} t")?;
    let kg = light.kg().max(1);
    let along = metres(alloc, light.x().div_euclid(kg))?;
    let across = metres(alloc, light.y().div_euclid(kg))?;
    let up = metres(alloc, light.z().div_euclid(kg))?;
    let centre = format!(in alloc; "LCG {along}  TCG {across}  KG {up} m")?;
    let (name, figure) = (name.as_str(), figure.as_str());
    if centre.len() <= KEY {
        return add_limit(text, name, figure, centre.as_str());
    }
    // of a great ship the line has no room for all three
    let centre = format!(in alloc; "LCG {along} m")?;
    add_limit(text, name, figure, centre.as_str())?;
    let centre = format!(in alloc; "TCG {across}  KG {up} m")?;
    add_limit(text, "", "", centre.as_str())
}

/// Adds the stations: how many, and from where to where.
fn add_stations(alloc: Global, text: &mut String, profile: &Profile) -> Result<(), AllocError> {
    let stations = profile.stations();
    let (Some(first), Some(last)) = (stations.first(), stations.last()) else {
        return Ok(());
    };
    let count = stations.len();
    let first = metres(alloc, i128::from(first.get()))?;
    let last = metres(alloc, i128::from(last.get()))?;
    let figure = format!(in alloc; "{count}")?;
    let reach = format!(in alloc; "x {first} to {last} m")?;
    add_limit(text, "stations", figure.as_str(), reach.as_str())
}

/// Adds the greatest list.
fn add_list(alloc: Global, text: &mut String, profile: &Profile) -> Result<(), AllocError> {
    let list = profile.list_max();
    let degrees = list_limit(alloc, profile)?;
    let figure = format!(in alloc; "{degrees} deg")?;
    let key = format!(in alloc; "list_max = {list}")?;
    add_limit(text, "greatest list (C7)", figure.as_str(), key.as_str())
}

/// Adds the ship and her limits.
pub fn add_limits(alloc: Global, text: &mut String, profile: &Profile) -> Result<(), AllocError> {
    text.push_str("\nSHIP AND LIMITS\n")?;
    let lbp = profile.lbp().get();
    let key = format!(in alloc; "lbp_mm = {lbp}")?;
    let length = limit_in_print(alloc, profile, ShipLimit::Length)?;
    let (name, key) = ("length between perpendiculars", key.as_str());
    add_length(alloc, text, name, length.as_str(), key)?;
    let angle = profile.downflooding();
    let degrees = format!(in alloc; "{angle} deg")?;
    let (name, key) = ("openings go under at", "downflooding_deg");
    add_limit(text, name, degrees.as_str(), key)?;
    let length = limit_in_print(alloc, profile, ShipLimit::GreatestDraught)?;
    let (name, key) = ("greatest draught (C8)", "draught_max_mm");
    add_length(alloc, text, name, length.as_str(), key)?;
    let length = limit_in_print(alloc, profile, ShipLimit::GreatestTrim)?;
    let (name, key) = ("greatest trim (C8)", "trim_max_mm");
    add_length(alloc, text, name, length.as_str(), key)?;
    add_list(alloc, text, profile)?;
    let closing = limit_in_print(alloc, profile, ShipLimit::GreatestClosing)?;
    let figure = format!(in alloc; "{closing} t")?;
    let (name, key) = ("greatest closing error (C0)", "closing_max_kg");
    add_limit(text, name, figure.as_str(), key)?;
    add_light(alloc, text, profile)?;
    add_stations(alloc, text, profile)
}

/// Adds the frames with their limits.
pub fn add_frames(alloc: Global, text: &mut String, profile: &Profile) -> Result<(), AllocError> {
    text.push_str("\nFRAMES         x, m    shear, t   hogging, t m   sagging, t m\n")?;
    let mut number = 0u32;
    for frame in profile.frames().as_slice() {
        number = number.saturating_add(1);
        let x = frame_in_print(alloc, frame, FrameColumn::Place)?;
        let shear = frame_in_print(alloc, frame, FrameColumn::Shear)?;
        let hog = frame_in_print(alloc, frame, FrameColumn::Hogging)?;
        let sag = frame_in_print(alloc, frame, FrameColumn::Sagging)?;
        let (x, shear) = (x.as_str(), shear.as_str());
        let (hog, sag) = (hog.as_str(), sag.as_str());
        write!(
            text,
            "  fr {number:<6}{x:>9}{shear:>12}{hog:>15}{sag:>15}\n"
        )?;
    }
    Ok(())
}

/// Adds a record of hydro.csv.
fn add_record(
    alloc: Global,
    text: &mut String,
    profile: &Profile,
    place: usize,
) -> Result<(), AllocError> {
    let hydro = profile.hydro();
    let kg = hydro_in_print(alloc, hydro, HydroColumn::Displacement, place)?;
    let draught = hydro_in_print(alloc, hydro, HydroColumn::Draught, place)?;
    let kmt = hydro_in_print(alloc, hydro, HydroColumn::Kmt, place)?;
    let lcb = hydro_in_print(alloc, hydro, HydroColumn::Lcb, place)?;
    let lcf = hydro_in_print(alloc, hydro, HydroColumn::Lcf, place)?;
    let mct = hydro_in_print(alloc, hydro, HydroColumn::Mct, place)?;
    let (kg, draught, kmt) = (kg.as_str(), draught.as_str(), kmt.as_str());
    let (lcb, lcf, mct) = (lcb.as_str(), lcf.as_str(), mct.as_str());
    write!(
        text,
        "  {kg:>10}{draught:>9}{kmt:>9}{lcb:>9}{lcf:>9}{mct:>12}\n"
    )
}

/// Adds five records of hydro.csv: the first, those at the quarters, and the last.
pub fn add_hydro(alloc: Global, text: &mut String, profile: &Profile) -> Result<(), AllocError> {
    let count = profile.hydro().kg().len();
    write!(
        text,
        "\nHYDRO, t       draught   KMT, m   LCB, m   LCF, m   MCT, t m/cm   {count} records\n"
    )?;
    let places = [
        0,
        count / 4,
        count / 2,
        count.saturating_mul(3) / 4,
        count.saturating_sub(1),
    ];
    let mut before: Option<usize> = None;
    for place in places {
        let is_new = match before {
            Some(last) => last < place,
            None => true,
        };
        if is_new {
            add_record(alloc, text, profile, place)?;
            before = Some(place);
        }
    }
    Ok(())
}

/// Adds a table: its file, how many records it has, and what it reaches.
fn add_table(
    alloc: Global,
    text: &mut String,
    file: &str,
    count: &str,
    words: &str,
) -> Result<(), AllocError> {
    let line = format!(in alloc; "  {file:<12}{count:>7}  {words}")?;
    add_wrapped(text, line.as_str(), 23)
}

/// From where to where a table over the displacement reaches.
fn reach_words(alloc: Global, arguments: &[i128]) -> Result<String, AllocError> {
    let Reach { first, last } = reach_in_tonnes(alloc, arguments)?;
    Ok(format!(in alloc; "{first} to {last} t")?)
}

/// Adds the righting levers and the areas.
fn add_curves(alloc: Global, text: &mut String, parts: &Parts<'_>) -> Result<(), AllocError> {
    let profile = parts.profile;
    let levers = profile.levers().arguments();
    let count = levers.len();
    let count = format!(in alloc; "{count}")?;
    let words = reach_words(alloc, levers)?;
    add_table(alloc, text, "kn.csv", count.as_str(), words.as_str())?;
    let draughts = profile.bonjean().arguments();
    let count = draughts.len();
    let count = format!(in alloc; "{count}")?;
    let Reach { first, last } = reach_in_metres(alloc, draughts)?;
    let closing = match parts.closing {
        Some(worst) => tonnes(alloc, size(worst.error))?,
        None => String::from_str(alloc, "-")?,
    };
    let words = format!(in alloc; "{first} to {last} m; upright it closes within {closing} t")?;
    add_table(alloc, text, "bonjean.csv", count.as_str(), words.as_str())
}

/// Adds the cells.
fn add_cells(alloc: Global, text: &mut String, parts: &Parts<'_>) -> Result<(), AllocError> {
    let (mut least, mut most) = (u16::MAX, 0u16);
    let (mut short, mut long, mut on_deck) = (0u32, 0u32, 0u32);
    for row in parts.cells {
        let cell = row.cell;
        least = least.min(cell.bay);
        most = most.max(cell.bay);
        if cell.bay % 2 == 1 {
            short = short.saturating_add(1);
        } else {
            long = long.saturating_add(1);
        }
        if cell.tier >= DECK {
            on_deck = on_deck.saturating_add(1);
        }
    }
    let count = parts.cells.len();
    let count = format!(in alloc; "{count}")?;
    let words = format!(in alloc;
        "bays {least:03} to {most:03}; {short} of 20 feet, {long} of 40; {on_deck} on deck"
    )?;
    add_table(alloc, text, "cells.csv", count.as_str(), words.as_str())
}

/// Adds the tanks.
fn add_tanks(alloc: Global, text: &mut String, parts: &Parts<'_>) -> Result<(), AllocError> {
    let mut full = 0i128;
    for tank in &parts.tanks {
        let (_, most) = tank.reach();
        full = full.saturating_add(i128::from(most));
    }
    let full = tenths_of_tonnes(alloc, full)?;
    let count = parts.tanks.len();
    let count = format!(in alloc; "{count}")?;
    let words = format!(in alloc; "tanks, {full} t in all where full")?;
    add_table(alloc, text, "tanks.csv", count.as_str(), words.as_str())
}

/// Adds the least metacentric heights.
fn add_heights(alloc: Global, text: &mut String, profile: &Profile) -> Result<(), AllocError> {
    let Some(curves) = profile.least_gm() else {
        return add_table(
            alloc,
            text,
            "gm.csv",
            "-",
            "no such file: C11 is not judged",
        );
    };
    let heights: &[i128] = match curves.column(0) {
        Some(heights) => heights,
        None => &[],
    };
    let (mut least, mut most) = column_ends(heights);
    for height in heights {
        least = least.min(*height);
        most = most.max(*height);
    }
    let reach = reach_words(alloc, curves.arguments())?;
    let least = metres(alloc, least)?;
    let most = metres(alloc, most)?;
    let count = heights.len();
    let count = format!(in alloc; "{count}")?;
    let words = format!(in alloc; "{reach}, least GM {least} to {most} m (C11)")?;
    add_table(alloc, text, "gm.csv", count.as_str(), words.as_str())
}

/// Adds the tables, and how far each reaches.
pub fn add_tables(alloc: Global, text: &mut String, parts: &Parts<'_>) -> Result<(), AllocError> {
    text.push_str("\nTABLES\n")?;
    add_curves(alloc, text, parts)?;
    add_cells(alloc, text, parts)?;
    add_tanks(alloc, text, parts)?;
    add_heights(alloc, text, parts.profile)
}

/// How much of a whole a part is, in percent.
fn percent_words(alloc: Global, part: i64, whole: i64) -> Result<String, AllocError> {
    let part = Frac {
        num: i128::from(part.clamp(0, 1_000_000_000)),
        den: 1,
    };
    let whole = Frac {
        num: i128::from(whole.clamp(0, 1_000_000_000)),
        den: 1,
    };
    match used_of(part, whole).percent {
        Some(percent) => Ok(format!(in alloc; "{percent}%")?),
        None => String::from_str(alloc, ">999%"),
    }
}

/// Adds a tank that is filled on arrival.
fn add_fill(
    alloc: Global,
    text: &mut String,
    parts: &Parts<'_>,
    fill: &TankFill,
) -> Result<(), AllocError> {
    let Some(tank) = parts.tank(fill.tank) else {
        return Ok(());
    };
    let name = tank.name_line(alloc)?;
    let mass = tonnes(alloc, i128::from(fill.kg))?;
    let (name, mass) = (name.as_str(), mass.as_str());
    let (least, most) = tank.reach();
    let Some(body) = parts.profile.tank_item(fill.tank, fill.kg) else {
        let least = tonnes(alloc, i128::from(least))?;
        let most = tonnes(alloc, i128::from(most))?;
        let line = format!(in alloc;
            "  {name:<16}{mass:>11} t  its records reach from {least} to {most} t: refused (S6)"
        )?;
        return add_wrapped(text, line.as_str(), 33);
    };
    let part = percent_words(alloc, i64::from(fill.kg), most)?;
    let part = part.as_str();
    let surface = surface(alloc, &body)?;
    let surface = surface.as_str();
    write!(
        text,
        "  {name:<16}{mass:>11} t {part:>5}  free surface {surface:>9} t m\n"
    )
}

/// Adds the tanks that are filled on arrival.
pub fn add_fills(alloc: Global, text: &mut String, parts: &Parts<'_>) -> Result<(), AllocError> {
    text.push_str("\nFILLED ON ARRIVAL\n")?;
    let fills = parts.profile.fills();
    if fills.is_empty() {
        return text.push_str("  no tank\n");
    }
    let mut sum = 0i128;
    for fill in fills {
        add_fill(alloc, text, parts, fill)?;
        sum = sum.saturating_add(i128::from(fill.kg));
    }
    let filled = fills.len();
    let there = parts.tanks.len();
    let name = format!(in alloc; "{filled} of {there} tanks")?;
    let sum = tonnes(alloc, sum)?;
    let (name, sum) = (name.as_str(), sum.as_str());
    write!(text, "  {name:<16}{sum:>11} t\n")
}
