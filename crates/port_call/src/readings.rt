//! The inputs, read beside one another in threads.
ghost use Rattle.std.specs.Prelude.{◌≡◌, IfOk, option_map};
ghost use Rattle.ship_profile.specs.Record.{texts_of};
ghost use Rattle.port_call.specs.Readings.{AreAllRead, AreOrdersRead, IsPlanRead, IsShipRead};
ghost use Rattle.port_call.specs.Readings.{text_if, texts_by};

use crate::arrivals::ground_by;
use crate::faults::InputFault;
use crate::grounds::Ground;
use crate::inputs::{Inputs, items, orders, ship};
use lift_sequence::Op;
use ship_profile::{Profile, ProfileBytes};
use std::alloc::{AllocError, Global};
use std::sync::Wait;
use std::thread;
use std::thread::{Promise, PromisedHandle, Scope, Threads};
use stow_messages::Item;

/// What was read of a ship with what is aboard of her on arrival, and of the steps.
pub type Readings = (Result<Ground, InputFault>, Result<Vec<Op>, InputFault>);

/// What a thread that reads a bay plan promises: what it gives was read of this text.
#[derive(Clone, Copy)]
struct PlanOf<'a> {
    text: &'a [u8],
}

impl<'a> Promise<Result<Vec<Item>, InputFault>> for PlanOf<'a> {
    ghost use Rattle.port_call.specs.Readings.{IsPlanRead};

    ghost kept_by = { λ plan given. IsPlanRead given plan.text.now };
}

/// What a thread that reads the steps promises: what it gives was read of these texts, of a
/// movement instruction and of a steps file, which counts where there is one.
#[derive(Clone, Copy)]
struct OrdersOf<'a> {
    moves: &'a [u8],
    steps: &'a [u8],
    has_steps: bool,
}

impl<'a> Promise<Result<Vec<Op>, InputFault>> for OrdersOf<'a> {
    ghost use Rattle.port_call.specs.Readings.{AreOrdersRead, text_if};

    ghost kept_by = { λ texts given.
        AreOrdersRead given texts.moves.now (text_if texts.has_steps texts.steps.now) };
}

/// Starts a thread that reads a bay plan.
fn start_plan<'s, E>(
    scope: &Scope<'s, E>,
    alloc: Global,
    text: &'s [u8],
) -> Result<PromisedHandle<Result<Vec<Item>, InputFault>, PlanOf<'s>>, AllocError>
    ensures { IfOk result (λ h. h.promise.text.now ≡ text.entry.now) }
{
    let started = scope.spawn_with(
        PlanOf { text },
        move || -> Result<Vec<Item>, InputFault>
            ensures { IsPlanRead result text.entry.now }
        { items(alloc, text) },
    );
    Ok(started?)
}

/// The steps that these texts order; that of a steps file counts where there is one.
fn orders_by(
    alloc: Global,
    moves: &[u8],
    steps: &[u8],
    has_steps: bool,
) -> Result<Vec<Op>, InputFault>
    ensures { AreOrdersRead result moves.now (text_if has_steps steps.now) }
{
    orders(alloc, moves, if has_steps { Some(steps) } else { None })
}

/// Starts a thread that reads the steps.
fn start_orders<'s, E>(
    scope: &Scope<'s, E>,
    alloc: Global,
    moves: &'s [u8],
    steps: &'s [u8],
    has_steps: bool,
) -> Result<PromisedHandle<Result<Vec<Op>, InputFault>, OrdersOf<'s>>, AllocError>
    ensures moves { IfOk result (λ h. h.promise.moves.now ≡ moves.entry.now) }
    ensures steps { IfOk result (λ h. h.promise.steps.now ≡ steps.entry.now) }
    ensures has_steps { IfOk result (λ h. h.promise.has_steps ≡ has_steps) }
{
    let started = scope.spawn_with(
        OrdersOf {
            moves,
            steps,
            has_steps,
        },
        move || -> Result<Vec<Op>, InputFault>
            ensures { AreOrdersRead result moves.entry.now (text_if has_steps steps.entry.now) }
        { orders_by(alloc, moves, steps, has_steps) },
    );
    Ok(started?)
}

/// The profile that the texts of these files write, in the order of [`ProfileBytes`]; the last
/// counts where there is such a file.
fn ship_by(
    alloc: Global,
    ship_text: &[u8],
    cells: &[u8],
    hydro: &[u8],
    kn: &[u8],
    bonjean: &[u8],
    tanks: &[u8],
    gm: &[u8],
    has_gm: bool,
) -> Result<Profile, InputFault>
    ensures { IsShipRead result (texts_by ship_text.now cells.now hydro.now kn.now
        bonjean.now tanks.now gm.now has_gm) }
{
    let files = ProfileBytes {
        ship: ship_text,
        cells,
        hydro,
        kn,
        bonjean,
        tanks,
        gm: if has_gm { Some(gm) } else { None },
    };
    ship(alloc, &files)
}

/// The texts of a profile's files, of a bay plan, and of a movement instruction and a steps file,
/// read beside one another, and what is aboard on arrival by the first two. The closure takes plain
/// slices, which this function has by themselves: of what a closure answers that takes a value with
/// a lifetime in its type nothing is known.
fn read_texts<R: Threads + Wait + Sync>(
    rt: &R,
    alloc: Global,
    ship_text: &[u8],
    cells: &[u8],
    hydro: &[u8],
    kn: &[u8],
    bonjean: &[u8],
    tanks: &[u8],
    gm: &[u8],
    has_gm: bool,
    plan: &[u8],
    moves: &[u8],
    steps: &[u8],
    has_steps: bool,
    apart: bool,
) -> Result<Readings, AllocError>
    ensures { IfOk result (λ read. AreAllRead read (texts_by ship_text.now cells.now hydro.now
        kn.now bonjean.now tanks.now gm.now has_gm) plan.now moves.now
        (text_if has_steps steps.now)) }
{
    thread::scope(
        thread::scope_env(),
        rt,
        |scope| -> Result<Readings, AllocError>
            ensures { IfOk result (λ read. AreAllRead read
                (texts_by ship_text.entry.now cells.entry.now
                hydro.entry.now kn.entry.now bonjean.entry.now tanks.entry.now gm.entry.now has_gm)
                plan.entry.now moves.entry.now (text_if has_steps steps.entry.now)) }
        {
            let orders = start_orders(scope, alloc, moves, steps, has_steps)?;
            if !apart {
                let profile = ship_by(
                    alloc, ship_text, cells, hydro, kn, bonjean, tanks, gm, has_gm,
                );
                let plan = items(alloc, plan);
                return Ok((ground_by(alloc, profile, plan), orders.join(rt)));
            }
            let Ok(plan) = start_plan(scope, alloc, plan) else {
                // joined, so that what it read is let go
                drop(orders.join(rt));
                return Err(AllocError);
            };
            let profile = ship_by(
                alloc, ship_text, cells, hydro, kn, bonjean, tanks, gm, has_gm,
            );
            let ground = ground_by(alloc, profile, plan.join(rt));
            Ok((ground, orders.join(rt)))
        },
    )
}

/// The inputs, read in two threads: the movement instruction and the steps file, which take about
/// as long as the others together, beside the profile and then the bay plan, which are read in this
/// thread; with `apart` in three, the bay plan in a thread of its own too. None of them depends on
/// another. What is aboard on arrival is brought together in this thread, while the steps may still
/// be read. An error where a thread isn't started.
pub fn read_beside<R: Threads + Wait + Sync>(
    rt: &R,
    alloc: Global,
    inputs: &Inputs<'_>,
    apart: bool,
) -> Result<Readings, AllocError>
    ensures { IfOk result (λ read. AreAllRead read (texts_of inputs.now.profile)
        inputs.now.baplie.now inputs.now.movins.now
        (option_map (λ t. t.now) inputs.now.steps)) }
{
    let ProfileBytes {
        ship: ship_text,
        cells,
        hydro,
        kn,
        bonjean,
        tanks,
        gm,
    } = inputs.profile;
    read_texts(
        rt,
        alloc,
        ship_text,
        cells,
        hydro,
        kn,
        bonjean,
        tanks,
        gm.unwrap_or(&[]),
        gm.is_some(),
        inputs.baplie,
        inputs.movins,
        inputs.steps.unwrap_or(&[]),
        inputs.steps.is_some(),
        apart,
    )
}
