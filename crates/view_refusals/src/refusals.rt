//! A refusal, explained.
use crate::advice::UNREAD;
use crate::refused_cargo::{told_of_arrival, told_of_step};
use crate::refused_messages::told_of_message;
use crate::refused_profile::told_of_profile;
use crate::refused_steps::told_of_steps;
use crate::told::Told;
use plain_text::add_paragraph;
use port_call::{Inputs, RunFault};
use ship_profile::{ProfileBytes, ProfileFault};
use std::alloc::{AllocError, Global};
use view_inputs::{MessageText, Names, message_notices, messages_of};

/// Whether a notice may be the cause of a refusal.
fn is_cause(code: &str) -> bool {
    match code {
        "N1" | "N2" | "N3" | "N4" | "N7" | "N9" => true,
        _ => false,
    }
}

/// Adds what is odd of a message and may be the cause of a refusal.
fn add_odd(alloc: Global, text: &mut String, message: MessageText<'_>) -> Result<(), AllocError> {
    for notice in &message_notices(alloc, message)? {
        if is_cause(notice.code) {
            let word = notice.word;
            let words = notice.text.as_str();
            let code = notice.code;
            let odd = format!(in alloc; "{word}: {words} ({code})")?;
            add_paragraph(alloc, text, "ODD", odd.as_str())?;
        }
    }
    Ok(())
}

/// What is told of a refusal of inputs; nothing of a run that is out of memory, or whose plan of
/// the cuts or whose sink is at fault, since no input is.
fn told_of<'a>(
    alloc: Global,
    fault: RunFault,
    inputs: &Inputs<'a>,
    names: &Names<'_>,
) -> Result<Option<Told<'a>>, AllocError> {
    let (plan, moves) = messages_of(inputs);
    let told = match fault {
        RunFault::Profile(fault) => told_of_profile(alloc, fault, &inputs.profile)?,
        RunFault::Baplie(fault) => told_of_message(alloc, plan, names.baplie, fault)?,
        RunFault::Movins(fault) => told_of_message(alloc, moves, names.movins, fault)?,
        RunFault::Arrival(fault) => told_of_arrival(alloc, inputs, names, fault)?,
        RunFault::Steps(fault) => told_of_steps(alloc, inputs, names, fault)?,
        RunFault::Sequence(fault) => told_of_step(alloc, inputs, fault)?,
        RunFault::Cuts(_) | RunFault::NoMemory | RunFault::Write(_) => return Ok(None),
    };
    Ok(Some(told))
}

/// What is said of a refusal behind the line that names it: what is the matter, where, what the
/// ship or the message has there, how many more there are, and what to do.
pub fn refusal_of(
    alloc: Global,
    fault: RunFault,
    inputs: &Inputs<'_>,
    names: &Names<'_>,
) -> Result<String, AllocError> {
    let mut text = String::new(alloc);
    let Some(told) = told_of(alloc, fault, inputs, names)? else {
        return Ok(text);
    };
    text.push_str("\n")?;
    told.add_front(alloc, &mut text)?;
    if let RunFault::Arrival(_) | RunFault::Sequence(_) = fault {
        let (plan, moves) = messages_of(inputs);
        add_odd(alloc, &mut text, plan)?;
        add_odd(alloc, &mut text, moves)?;
    }
    told.add_remedy(alloc, &mut text)?;
    Ok(text)
}

/// What is said of a refusal of a profile by itself, behind the line that names it.
pub fn profile_refusal_of(
    alloc: Global,
    fault: ProfileFault,
    files: &ProfileBytes<'_>,
) -> Result<String, AllocError> {
    let told = told_of_profile(alloc, fault, files)?;
    let mut text = String::from_str(alloc, "\n")?;
    told.add_front(alloc, &mut text)?;
    told.add_remedy(alloc, &mut text)?;
    Ok(text)
}

/// What is said of a file that can't be read, behind the line that names it.
pub fn unread_file(alloc: Global) -> Result<String, AllocError> {
    let mut text = String::from_str(alloc, "\n")?;
    add_paragraph(alloc, &mut text, "WHAT", UNREAD.what)?;
    add_paragraph(alloc, &mut text, "DO", UNREAD.remedy)?;
    Ok(text)
}
