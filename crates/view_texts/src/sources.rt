//! What the inputs of a run are: what the messages say of themselves, and the digest of each text.
use edifact_text::Kind;
use plain_text::shown_line;
use sha2::{Digest, Sha256};
use ship_profile::ProfileBytes;
use std::alloc::{AllocError, Global};
use view_inputs::{Identity, document, identity_in};

/// A message: what it says, and the SHA-256 of its text in hexadecimal.
#[derive(Debug, Drop)]
pub struct Message {
    pub identity: Identity,
    pub digest: String,
}

/// The inputs of a run.
#[derive(Debug, Drop)]
pub struct Sources {
    /// The digest of the profile, which is that of the digests of its files.
    pub profile: String,
    /// The name of the ship in her profile; empty where there is none.
    pub name: String,
    pub plan: Message,
    pub moves: Message,
    /// The digest of the steps file, if one is given.
    pub steps: Option<String>,
}

/// The SHA-256 of a text, in hexadecimal.
pub fn digest_of(alloc: Global, text: &[u8]) -> Result<String, AllocError> {
    let bytes: [u8; 32] = Sha256::digest(text);
    let mut hex = String::new(alloc);
    for byte in &bytes {
        let byte = *byte;
        write!(hex, "{byte:02x}")?;
    }
    Ok(hex)
}

/// Adds the line of a file to the list of digests, as `sha256sum` writes it.
fn add_file(alloc: Global, list: &mut String, text: &[u8], name: &str) -> Result<(), AllocError> {
    let digest = digest_of(alloc, text)?;
    write!(list, "{digest}  {name}\n")
}

/// The digest of a profile: of the list of its files' digests, in the order in which they are read.
fn profile_digest(alloc: Global, files: &ProfileBytes<'_>) -> Result<String, AllocError> {
    let mut list = String::new(alloc);
    add_file(alloc, &mut list, files.ship, "ship.toml")?;
    add_file(alloc, &mut list, files.cells, "cells.csv")?;
    add_file(alloc, &mut list, files.hydro, "hydro.csv")?;
    add_file(alloc, &mut list, files.kn, "kn.csv")?;
    add_file(alloc, &mut list, files.bonjean, "bonjean.csv")?;
    add_file(alloc, &mut list, files.tanks, "tanks.csv")?;
    if let Some(gm) = files.gm {
        add_file(alloc, &mut list, gm, "gm.csv")?;
    }
    digest_of(alloc, list.as_bytes())
}

/// What a message of this kind is.
pub fn message_source(alloc: Global, text: &[u8], kind: Kind) -> Result<Message, AllocError> {
    Ok(Message {
        identity: identity_in(alloc, text, kind)?,
        digest: digest_of(alloc, text)?,
    })
}

/// The name that `ship.toml` gives the ship, on one line; empty where it gives none.
fn name_in(alloc: Global, text: &[u8]) -> Result<String, AllocError> {
    let Some(table) = document(alloc, text)? else {
        return Ok(String::new(alloc));
    };
    match table.get("name") {
        Some(value) => match value.as_str() {
            Some(name) => shown_line(alloc, name.as_bytes()),
            None => Ok(String::new(alloc)),
        },
        None => Ok(String::new(alloc)),
    }
}

/// The digest of a profile's files, and the ship's name, empty where she has none.
pub fn profile_source(
    alloc: Global,
    files: &ProfileBytes<'_>,
) -> Result<(String, String), AllocError> {
    let digest = profile_digest(alloc, files)?;
    let name = name_in(alloc, files.ship)?;
    Ok((digest, name))
}

/// The digest of a steps file, if there is one.
pub fn steps_digest(alloc: Global, text: Option<&[u8]>) -> Result<Option<String>, AllocError> {
    match text {
        Some(text) => Ok(Some(digest_of(alloc, text)?)),
        None => Ok(None),
    }
}
