ghost use Rattle.std.specs.Prelude.{◌≡◌, ◌≤◌, length, Ok, Err, IfOk, IfErr};
ghost use Rattle.std.specs.Iterator.{YieldsFirst, item_count};
ghost use Rattle.edits_file.specs.Reading.{edits_of};
ghost use Rattle.edits_file.specs.Faults.{AreEdits};

use crate::forms::{EditLine, line};
use crate::words::cut;
use std::marker::Model;

/// Why a text is no edits file.
#[derive(Clone, Copy, Debug, PartialEq, Eq)]
pub enum EditsFault {
    /// The line of this number, from 1, is of no form; each line before it is of one.
    Line(usize),
}

/// An iterator over what the lines of an edits file order. To its callers it is the list of the
/// orders that it has yet to give.
#[derive(Drop)]
pub struct Edits<'a> {
    rest: &'a [u8],
}

impl<'a> Model for Edits<'a> {
    ghost use Rattle.std.specs.Prelude.{◌≡◌, List, Ok};
    ghost use Rattle.edits_file.specs.declared.forms.EditLine.{EditLine};
    ghost use Rattle.edits_file.specs.Reading.{edits_left, edits_of};

    ghost Value = { List EditLine };

    ghost view = { λ e. edits_left (edits_of e.rest.now) };

    ghost invariant = { λ e. edits_of e.rest.now ≡ Ok (edits_left (edits_of e.rest.now)) };
}

impl<'a> Edits<'a> {
    /// The orders of an edits file, or the first line that is of no form. It takes time in the
    /// length of the file, and no memory: all lines are looked at here, and each again when its
    /// turn comes.
    pub fn read(bytes: &'a [u8]) -> Result<Edits<'a>, EditsFault>
        ensures ok { IfOk result (λ edits. edits_of bytes.now ≡ Ok edits) }
        ensures refused { IfErr result (λ e. edits_of bytes.now ≡ Err e) }
        ensures meaning { IfOk result (λ edits. AreEdits bytes.now edits) }
        ensures few { IfOk result (λ edits. length edits ≤ length bytes.now) }
    {
        let mut rest = bytes;
        let mut number = 0;
        while !rest.is_empty() {
            number += 1;
            let (text, behind) = cut(rest, b'\n');
            let Some(_edit) = line(text) else {
                return Err(EditsFault::Line(number));
            };
            rest = behind.unwrap_or(&[]);
        }
        Ok(Edits { rest: bytes })
    }
}

impl<'a> Iterator for Edits<'a> {
    type Item = EditLine;

    ghost next_gives = { YieldsFirst (λ edits. edits) };

    ghost remaining = { item_count (λ edits. edits) };

    fn next(&mut self) -> Option<EditLine> {
        if self.rest.is_empty() {
            return None;
        }
        let (text, behind) = cut(self.rest, b'\n');
        let edit = line(text)?;
        self.rest = behind.unwrap_or(&[]);
        Some(edit)
    }
}
