//! The share of a body that lies aft of a frame.
use super::tables::{CONTAINER, Row, length};
use crate::checks::same;
use moment_sums::{moment_aft, weight_aft};
use std::test::Fail;

/// Where the container's centre is, and its mass and moment aft of the frame at 50,000.
static SHARES: [(i32, i128, i128); 7] = [
    // all of it: 20,501 * (50,000 - 30,000) = 410,020,000
    (30_000, 20_501, 410_020_000),
    // all of it, and its fore end is at the frame: 20,501 * 3,029 = 62,097,529
    (46_971, 20_501, 62_097_529),
    // all but 1 mm: 20,501 * 6,057 / 6,058 = 20,497.6, and 20,501 * 6,057 * 6,057 / 12,116 =
    // 62,077,029.7
    (46_972, 20_497, 62_077_029),
    // half of it: 20,501 * 3,029 / 6,058 = 10,250.5, and 20,501 * 3,029 * 3,029 / 12,116 =
    // 15,524,382.25
    (50_000, 10_250, 15_524_382),
    // 1 mm of it: 20,501 / 6,058 = 3.4, and 20,501 / 12,116 = 1.7
    (53_028, 3, 1),
    // none of it, and its after end is at the frame
    (53_029, 0, 0),
    // none of it
    (70_000, 0, 0),
];

#[test]
fn share_aft_of_frame(rt: HostRuntime) -> Result<(), Fail> {
    let frame = length(50_000)?;
    for (x, weight, moment) in &SHARES {
        let row = Row { x: *x, ..CONTAINER };
        let body = row.body()?;
        same(&rt, weight_aft(&body, frame), *weight);
        same(&rt, moment_aft(&body, frame), *moment);
    }
    Ok(())
}

/// A body of 450,000,000 kg and 300,002 mm, of which 149,994 mm lie aft of the frame at 50,000.
const LONG: Row = Row {
    kg: 450_000_000,
    x: 50_007,
    half: 150_001,
    ..CONTAINER
};

#[test]
fn share_of_long_body(rt: HostRuntime) -> Result<(), Fail> {
    let frame = length(50_000)?;
    let body = LONG.body()?;
    // 450,000,000 * 149,994 / 300,002 = 224,989,500.07
    same(&rt, weight_aft(&body, frame), 224_989_500);
    // 450,000,000 * 149,994 * 149,994 / 600,004 = 16,873,537,536,749.8, whose product of 1.01 *
    // 10^19 takes more than 64 bits
    same(&rt, moment_aft(&body, frame), 16_873_537_536_749);
    Ok(())
}
