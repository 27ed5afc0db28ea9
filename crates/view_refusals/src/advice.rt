//! What each code of a refusal means, and what to do. What stands in a place of `{..}` is put in
//! where the refusal is told.
use crate::told::Advice;
use edifact_text::EdiCode;
use lift_sequence::SeqCode;
use ship_profile::{File, ProfileFault};
use stow_messages::{StepsCode, StowCode};

/// What is said where memory ran out.
const NO_MEMORY: Advice = Advice {
    what: "Out of memory.",
    remedy: "Close other programs, or use a machine with more memory.",
};

/// A fill that is refused with P3.
pub const FILLS: Advice = Advice {
    what: "In ship.toml a fill has a value of another type than it needs, or fills a tank that an \
        earlier fill has filled.",
    remedy: "tank is a text in quotes, kg a whole number; each tank stands once.",
};

/// A file that can't be read.
pub const UNREAD: Advice = Advice {
    what: "The file can't be read: it isn't there, it may not be opened, it is a folder, or it \
        has over 64 MiB.",
    remedy: "Look at its name and place. A ship's folder has ship.toml, cells.csv, hydro.csv, \
        kn.csv, bonjean.csv and tanks.csv, in small letters; only gm.csv may be missing.",
};

/// Of a fault of the ship's profile.
pub fn advice_on_profile(fault: ProfileFault) -> Advice {
    match fault {
        ProfileFault::BadToml => Advice {
            what: "ship.toml is no TOML document, or has more than 1,048,576 bytes.",
            remedy: "Look for a missing quote or bracket, a comma between digits, a key that \
                stands twice, curly quotes, or letters that aren't saved as UTF-8.",
        },
        ProfileFault::MissingKey(_) => Advice {
            what: "{what} isn't in ship.toml.",
            remedy: "Write it. A key with a slip of the pen counts as missing, and is itself not \
                read.",
        },
        ProfileFault::BadKey(_) => Advice {
            what: "{what} in ship.toml has a value of another type than it needs.",
            remedy: "Numbers are whole and without quotes: 170000, neither 170000.0 nor \
                \"170000\". Lists of blocks, frames and fills have double brackets: [[blocks]].",
        },
        ProfileFault::BadCsv(_, _) => Advice {
            what: "The record hasn't as many fields as the table.",
            remedy: "Fields are parted by commas. Look for semicolons (a spreadsheet in a \
                language with decimal commas), a comma as thousands separator, or a missing \
                column; bonjean.csv needs one column for each station, behind the draught.",
        },
        ProfileFault::BadNumber(_, _) => Advice {
            what: "A field of the record is no whole number.",
            remedy: "Write digits alone: no decimal point, no unit, no thousands separator, no \
                plus sign, no empty field.",
        },
        _ => advice_on_order(fault),
    }
}

/// Of a number out of its limits or its order.
fn advice_on_order(fault: ProfileFault) -> Advice {
    match fault {
        ProfileFault::OutOfLimits(_, _) => Advice {
            what: "A number is out of its limits, a name has no byte or more than 16, there are \
                too many records or elements, or a record lies over 100,000 t above the one \
                before it.",
            remedy: "Lengths are in mm and masses in kg. docs/PROFILE.md has each number's least \
                and greatest value.",
        },
        ProfileFault::NotRising(File::Ship, _) => Advice {
            what: "Stations or frames don't rise from aft to forward.",
            remedy: "Sort stations_mm and the frames by x_mm, and let none stand twice.",
        },
        ProfileFault::NotRising(_, _) => Advice {
            what: "The record doesn't rise above the one before it{or_tank}.",
            remedy: "Sort the table from light to deep (bonjean.csv by draught, a tank by mass), \
                and let no record stand twice.",
        },
        ProfileFault::DoubleCell(_) => Advice {
            what: "The cell stands in an earlier record too.",
            remedy: "Remove one of the two; 030082 and 0030082 are the same cell.",
        },
        _ => advice_on_parts(fault),
    }
}

/// Of a fault between the parts of a profile.
fn advice_on_parts(fault: ProfileFault) -> Advice {
    match fault {
        ProfileFault::FrameNotStation(_) => Advice {
            what: "The frame stands at no station.",
            remedy: "Add its x_mm to stations_mm, and a column of areas at that x to bonjean.csv; \
                or move the frame to a station.",
        },
        ProfileFault::OutsideStations(_, _) => Advice {
            what: "With all its length it reaches aft of the first station or forward of the last.",
            remedy: "x is measured from the after perpendicular, not from midships; half is half \
                of the length. Put a station at each end of the ship.",
        },
        ProfileFault::Downflooding(_) => Advice {
            what: "Openings go under at {angle} degrees, below 40; the criteria on areas would \
                end before 40 degrees, and aren't judged for such a ship.",
            remedy: "This program can't be used for the ship, unless the openings that count are \
                closed weathertight at sea.",
        },
        ProfileFault::UnknownTank(_) => Advice {
            what: "The fill names a tank that tanks.csv doesn't have.",
            remedy: "Names are compared byte for byte: capital letters and spaces count.",
        },
        ProfileFault::TooFewRows(_) => Advice {
            what: "There are too few records or elements: a table has two at least, a tank too; \
                cells.csv and the blocks and frames one.",
            remedy: "Look for a file that wasn't saved whole.",
        },
        _ => NO_MEMORY,
    }
}

/// Of a fault of a message's envelope.
pub fn advice_on_envelope(code: EdiCode) -> Advice {
    match code {
        EdiCode::Truncated => Advice {
            what: "The message ends in the middle: in UNA, in a segment, or before UNZ.",
            remedy: "The file was cut off, or a segment's terminator ' is missing. Have it sent \
                again.",
        },
        EdiCode::BadUna => Advice {
            what: "The separators that UNA sets can't serve: two are the same, or one is a \
                letter, a digit, a line end or a space.",
            remedy: "UNA and the six characters behind it belong together, mostly UNA:+.? '. Have \
                the sender set them right.",
        },
        EdiCode::NoUnb => Advice {
            what: "The message doesn't begin with UNB.",
            remedy: "Is it the right file? Lines of an e-mail or a byte order mark before UNB \
                have to go.",
        },
        EdiCode::Groups => Advice {
            what: "The interchange has functional groups (UNG, UNE), which aren't read.",
            remedy: "Have the sender leave them out.",
        },
        EdiCode::NoUnh => Advice {
            what: "UNH doesn't follow UNB.",
            remedy: "The message isn't written as ISO 9735 asks for. Have it sent again.",
        },
        EdiCode::WrongType => Advice {
            what: "The message is not a {kind} of directory D.95B.",
            remedy: "Were the bay plan and the instruction given in the wrong order? Later \
                versions (D.13B, BAPLIE 3) and earlier ones (911) aren't read: have D.95B sent.",
        },
        EdiCode::SegmentCount => Advice {
            what: "UNT says another number of segments than the message has, or UNZ comes before \
                UNT.",
            remedy: "Segments were lost or added by hand. Have the message sent again; if you \
                edited it, correct the number: UNH and UNT are counted too.",
        },
        _ => advice_on_trailers(code),
    }
}

/// Of a fault of a message's trailers, and of any segment.
fn advice_on_trailers(code: EdiCode) -> Advice {
    match code {
        EdiCode::MessageRef => Advice {
            what: "UNT doesn't repeat the reference of UNH.",
            remedy: "Parts of two messages may have come together. Have it sent again.",
        },
        EdiCode::SeveralMessages => Advice {
            what: "Behind UNT stands another segment than UNZ: several messages in one \
                interchange, which aren't read.",
            remedy: "Have each message sent in an interchange of its own.",
        },
        EdiCode::InterchangeCount => Advice {
            what: "UNZ doesn't say that there is one message.",
            remedy: "Have the message sent again, one in an interchange.",
        },
        EdiCode::InterchangeRef => Advice {
            what: "UNZ doesn't repeat the reference of UNB.",
            remedy: "Parts of two interchanges may have come together. Have it sent again. The \
                two are compared letter by letter, leading zeros too.",
        },
        EdiCode::Trailing => Advice {
            what: "Something stands behind the end of the interchange (UNZ).",
            remedy: "A second interchange, a line of an e-mail, or an end-of-file mark (Ctrl-Z): \
                remove what stands behind UNZ.",
        },
        EdiCode::EmptySegment => Advice {
            what: "A segment is empty, or has no tag.",
            remedy: "A terminator ' stands twice, or one in a text isn't released (?').",
        },
        _ => Advice {
            what: "A segment has over 64 elements, or an element over 64 parts.",
            remedy: "A terminator is missing, so that segments run together.",
        },
    }
}

/// Of a fault of a message.
pub fn advice_on_message(code: StowCode) -> Advice {
    match code {
        StowCode::Envelope(fault) => advice_on_envelope(fault.code),
        StowCode::BadCell => Advice {
            what: "The location isn't a cell of six or seven digits (bay, row, tier).",
            remedy: "Ro/ro locations and places ashore aren't read. Write bay (three digits), row \
                (two), tier (two).",
        },
        StowCode::IdTooLong => Advice {
            what: "The container's identification has over 17 characters.",
            remedy: "A separator is missing behind it, or a text stands in its place.",
        },
        StowCode::BadWeight => Advice {
            what: "The mass is no number of kilograms up to 999,999.",
            remedy: "Digits, and a decimal mark if there has to be one: no blanks, no thousands \
                separator, no minus.",
        },
        StowCode::WrongUnit => Advice {
            what: "The mass isn't in kilograms (KGM).",
            remedy: "Pounds (LBR) and tonnes (TNE) aren't read: have it sent in KGM.",
        },
        StowCode::NoWeight => Advice {
            what: "The container has no mass (MEA+VGM or MEA+WT).",
            remedy: "Have its verified gross mass sent; none is assumed.",
        },
        StowCode::LiftWithoutHandling => Advice {
            what: "No handling (HAN) stands before the location.",
            remedy: "HAN+LOA or HAN+DIS stands before the locations that it is for, not behind.",
        },
        StowCode::UnknownHandling => Advice {
            what: "The handling is neither LOA nor DIS.",
            remedy: "Restows and shifts (RES, SHI) aren't read from an instruction: take them out \
                here, and write them as restow records of a steps file.",
        },
        StowCode::TooMany => Advice {
            what: "There are too many: a bay plan has at most 30,000 containers, an instruction \
                200,000 lifts.",
            remedy: "Is it the right file?",
        },
        StowCode::NoMemory => NO_MEMORY,
    }
}

/// Of a fault of the steps file.
pub fn advice_on_steps(code: StepsCode) -> Advice {
    match code {
        StepsCode::BadCsv => Advice {
            what: "The record hasn't four fields.",
            remedy: "Three commas in each record, the heading too: lift,1,, and tank,NAME,KG, and \
                restow,FROM,TO,ID. Semicolons don't part fields.",
        },
        StepsCode::BadKind => Advice {
            what: "The first field is none of lift, tank and restow.",
            remedy: "In small letters, without spaces.",
        },
        StepsCode::BadField => Advice {
            what: "A field isn't what its column asks for, or one that has to be empty isn't.",
            remedy: "lift,N,, has the lift's number; tank,NAME,KG, a name of 1 to 16 bytes and \
                whole kilograms; restow,FROM,TO,ID two cells and an identification that may be \
                empty.",
        },
        StepsCode::NoLift => Advice {
            what: "The instruction hasn't this lift.",
            remedy: "Lifts are numbered from 1 in the order of the instruction.",
        },
        StepsCode::LiftTwice => Advice {
            what: "An earlier record has this lift.",
            remedy: "Each lift stands once.",
        },
        StepsCode::LiftMissing => Advice {
            what: "The lift of this number stands in no record.",
            remedy: "Every lift of the instruction has to stand in the steps file once; add \
                lift,{at},, where it is to be done.",
        },
        StepsCode::TooMany => Advice {
            what: "There are over 200,000 records.",
            remedy: "Is it the right file?",
        },
        StepsCode::NoMemory => NO_MEMORY,
    }
}

/// Of a step that can't be done.
pub fn advice_on_step(code: SeqCode) -> Advice {
    match code {
        SeqCode::UnknownCell => Advice {
            what: "The ship has no such cell.",
            remedy: "Is it her profile, and her bay plan? Else cells.csv lacks the cell.",
        },
        SeqCode::CellTaken => Advice {
            what: "The cell is taken.",
            remedy: "Discharge or restow what stands there first, or load into another cell.",
        },
        SeqCode::Overlap(_) => Advice {
            what: "Another container overlaps: a 40-foot bay lies over two 20-foot bays.",
            remedy: "Discharge or restow the other first, or load into another cell.",
        },
        SeqCode::CellEmpty => Advice {
            what: "No container stands in the cell.",
            remedy: "Is the bay plan of the right date? Else the lift is already done, or the \
                cell is wrong.",
        },
        SeqCode::WrongContainer => Advice {
            what: "Another container stands in the cell.",
            remedy: "Find out which is right, the plan or the instruction. An instruction without \
                the identification takes whatever stands there.",
        },
        SeqCode::TankOver => Advice {
            what: "The tank's table hasn't this mass.",
            remedy: "Masses are in kg. Fill what the tank holds, or give tanks.csv the records \
                that are missing.",
        },
        SeqCode::TooManySteps => Advice {
            what: "There are over 120,000 steps.",
            remedy: "Split the list.",
        },
        SeqCode::UnknownTank => Advice {
            what: "The ship has no tank of this name.",
            remedy: "Names are compared byte for byte: capital letters and spaces count.",
        },
        SeqCode::NoMemory => NO_MEMORY,
    }
}

/// Of an item of the bay plan that can't be in its cell, or a fill that its tank can't hold.
pub fn advice_on_arrival(code: SeqCode) -> Advice {
    match code {
        SeqCode::CellTaken => Advice {
            what: "The bay plan has two containers in one cell.",
            remedy: "One of the two is elsewhere or ashore: have the bay plan corrected.",
        },
        SeqCode::Overlap(_) => Advice {
            what: "The bay plan has two containers in one place: a 40-foot bay lies over two \
                20-foot bays.",
            remedy: "One of the two is elsewhere or ashore: have the bay plan corrected.",
        },
        SeqCode::TankOver => Advice {
            what: "A fill of ship.toml has a mass that the tank's table hasn't.",
            remedy: "Masses are in kg. Write what the tank holds, or give tanks.csv the records \
                that are missing.",
        },
        _ => advice_on_step(code),
    }
}
