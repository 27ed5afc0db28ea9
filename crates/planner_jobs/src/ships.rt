//! The ships of the jobs.
use crate::calls::Call;
use crate::slots::{Slot, slots_of};
use crate::stops::Stop;
use seq_report::Inputs;
use ship_profile::ProfileBytes;
use std::fs;
use std::rt::Files;

/// The texts of a ship's files, and her cells.
#[derive(Drop)]
pub struct Ship {
    ship: Vec<u8>,
    cells: Vec<u8>,
    hydro: Vec<u8>,
    kn: Vec<u8>,
    bonjean: Vec<u8>,
    tanks: Vec<u8>,
    pub slots: Vec<Slot>,
}

/// The bytes of a file of a folder.
fn file_of<R: Files + AllocGlobal>(rt: &R, folder: &str, name: &str) -> Result<Vec<u8>, Stop> {
    let path = format!(in rt.alloc(); "{folder}/{name}")?;
    match fs::read(rt, path.as_str()) {
        Ok(bytes) => Ok(bytes),
        Err(_) => Err(Stop::Unread),
    }
}

impl Ship {
    /// The ship of a folder.
    pub fn read<R: Files + AllocGlobal>(rt: &R, folder: &str) -> Result<Ship, Stop> {
        let ship = file_of(rt, folder, "ship.toml")?;
        let cells = file_of(rt, folder, "cells.csv")?;
        let hydro = file_of(rt, folder, "hydro.csv")?;
        let kn = file_of(rt, folder, "kn.csv")?;
        let bonjean = file_of(rt, folder, "bonjean.csv")?;
        let tanks = file_of(rt, folder, "tanks.csv")?;
        let slots = slots_of(rt.alloc(), &cells)?;
        Ok(Ship {
            ship,
            cells,
            hydro,
            kn,
            bonjean,
            tanks,
            slots,
        })
    }

    /// What a report on a call of hers is made of.
    pub fn inputs<'a>(&'a self, call: &'a Call) -> Inputs<'a> {
        Inputs {
            profile: ProfileBytes {
                ship: &self.ship,
                cells: &self.cells,
                hydro: &self.hydro,
                kn: &self.kn,
                bonjean: &self.bonjean,
                tanks: &self.tanks,
                gm: None,
            },
            baplie: &call.baplie,
            movins: &call.movins,
            steps: call.steps.as_deref(),
        }
    }
}
