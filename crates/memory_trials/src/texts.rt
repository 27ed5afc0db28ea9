//! The inputs that are tried, and the reports on them. The figures are those of the worked examples
//! in `tests/program.d/worked`.

use box_ship::SHIP;
use seq_report::RunFault;
use std::alloc::Global;

/// No steps file.
pub const NO_STEPS: &[u8] = b"";

/// The container of 20,500 kg to starboard, and then one of 20,500 kg aft.
pub const TWO_LOADS: &[u8] =
    b"UNB+UNOA:2+PLAN+SHIP+250101:1200+8'UNH+1+MOVINS:D:95B:UN'HAN+LOA'LOC+147+0030782::5'MEA+WT++KGM:20500'EQD+CN+ABCU1234560'HAN+LOA'LOC+147+0050082::5'MEA+WT++KGM:20500'EQD+CN+ABCU7654321'UNT+10+1'UNZ+1+8'";

pub const TWO_LINES: &[u8] =
    b"STEP LIFT KG GM MEAN AFT FWD TRIM LIST A30 A40 A3040 GZ ANGLE CLOSE FRAMES VERDICT\n0 - 8200000 4333 4000 4000 4000 0 0 31509 50888 19379 1958 35 0 0/0;0/0;0/0;0/0;0/0 PASS\n1 L0030782 8220500 4314 4010 4010 4010 0 46 30861 50020 19158 1936 35 0 0/0;-5125/-64062500;0/-240726375;5125/-64062500;0/0 PASS\n2 L0050082 8241000 4295 4020 4035 4004 30 46 30786 49888 19102 1930 35 -769 0/0;-5637/-191611791;2819/-234320125;4869/-34166666;769/27760417 PASS\nALL PASS\n";

/// One load, which is restowed aft.
pub const RESTOW: &[u8] = b"kind,a,b,c\nlift,1,,\nrestow,0030782,0050082,\n";

pub const RESTOW_LINES: &[u8] =
    b"STEP LIFT KG GM MEAN AFT FWD TRIM LIST A30 A40 A3040 GZ ANGLE CLOSE FRAMES VERDICT\n0 - 8200000 4333 4000 4000 4000 0 0 31509 50888 19379 1958 35 0 0/0;0/0;0/0;0/0;0/0 PASS\n1 L0030782 8220500 4314 4010 4010 4010 0 46 30861 50020 19158 1936 35 0 0/0;-5125/-64062500;0/-240726375;5125/-64062500;0/0 PASS\n2 R0030782>0050082 8220500 4314 4010 4025 3994 30 0 31433 50754 19321 1952 35 -769 0/0;-512/-127549291;2819/6406250;-256/29895834;769/27760417 PASS\nALL PASS\n";

/// The report of the ship with 500,000 kg in her tank begins so.
pub const FILLED_LINES: &[u8] =
    b"STEP LIFT KG GM MEAN AFT FWD TRIM LIST A30 A40 A3040 GZ ANGLE CLOSE FRAMES VERDICT\n0 - 8700000 4168 4243 ";

/// `ship.toml` of the box ship with her tank filled.
pub fn fill_text(alloc: Global) -> Result<String, RunFault> {
    let mut text = String::new(alloc);
    let ship = text.push_str(SHIP);
    let fill = text.push_str("[[fills]]\ntank = \"DB1\"\nkg = 500000\n");
    if ship.is_err() || fill.is_err() {
        return Err(RunFault::NoMemory);
    }
    Ok(text)
}

/// A steps file of two lifts, behind so many fillings of the tank.
pub fn long_steps(alloc: Global, fillings: u32) -> Result<String, RunFault> {
    let mut text = String::new(alloc);
    let mut done = text.push_str("kind,a,b,c\n").is_ok();
    for _ in 0..fillings {
        done &= text.push_str("tank,DB1,1000,\n").is_ok();
    }
    done &= text.push_str("lift,1,,\nlift,2,,\n").is_ok();
    if done {
        Ok(text)
    } else {
        Err(RunFault::NoMemory)
    }
}
