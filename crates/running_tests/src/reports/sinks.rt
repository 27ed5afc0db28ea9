ghost use Rattle.std.specs.Prelude.{◌≤◌};

use super::{PLAN, inputs, options};
use crate::checks::same;
use box_ship::NO_MOVES;
use claim_run::Open;
use seq_report::{RunFault, Sink, SinkFailed, Summary, Through, report};
use std::alloc::{AllocError, Global};
use std::fmt::Write as _;
use std::io;
use std::io::{ErrorKind, Write};
use std::sync::Wait;
use std::test::Fail;
use std::thread::Threads;

/// A writer that takes `left` bytes, `most` of them a call, and then fails. It always fails where
/// it is flushed: a report has to be whole without.
#[derive(Drop)]
struct Failing<'a> {
    taken: &'a mut Vec<u8>,
    left: usize,
    most: usize,
}

impl<'a> Write for Failing<'a> {
    fn write(&mut self, bytes: &[u8]) -> io::Result<usize> {
        let taken = bytes.len().min(self.left).min(self.most);
        if taken == 0 && self.most > 0 {
            return Err(io::Error::from(ErrorKind::WriteZero));
        }
        self.taken.extend_from_slice(&bytes[..taken])?;
        self.left -= taken;
        Ok(taken)
    }

    fn flush(&mut self) -> io::Result<()> {
        Err(io::Error::from(ErrorKind::PermissionDenied))
    }
}

/// The result of the report on an instruction that this number of workers write to this writer.
fn bytes_to(
    rt: &(impl AllocGlobal + Threads + Wait + Sync),
    movins: &[u8],
    workers: u8,
    writer: Failing<'_>,
) -> Result<Summary, RunFault>
    requires { (1 ≤ workers) × (workers ≤ 16) }
{
    report(
        rt,
        rt.alloc(),
        &Open,
        &inputs(movins),
        &options(workers, PLAN),
        &mut Through::new(writer),
    )
}

#[test]
fn writer_fails_after_seven(rt: HostRuntime) {
    let mut taken = Vec::new(rt.alloc());
    let outcome = {
        let writer = Failing {
            taken: &mut taken,
            left: 7,
            most: 100,
        };
        bytes_to(&rt, NO_MOVES, 2, writer)
    };
    same(&rt, outcome, Err(RunFault::Write(7)));
    same(&rt, taken.as_slice(), b"STEP LI".as_slice());
}

// Wherever a writer fails, it holds a prefix of the report, of the length that is said; and the
// whole of it where it takes so much, though it can't be flushed.
#[test]
fn failing_writers(rt: HostRuntime) {
    let whole =
        b"STEP LIFT KG GM MEAN AFT FWD TRIM LIST A30 A40 A3040 GZ ANGLE CLOSE FRAMES VERDICT\n0 - 8200000 4333 4000 4000 4000 0 0 31509 50888 19379 1958 35 0 0/0;0/0;0/0;0/0;0/0 PASS\nALL PASS\n";
    for (most, limit, workers) in [(1, 182, 2), (50, 182, 1), (1000, 182, 2)] {
        for left in 0..limit {
            let mut taken = Vec::new(rt.alloc());
            let outcome = {
                let writer = Failing {
                    taken: &mut taken,
                    left,
                    most,
                };
                bytes_to(&rt, NO_MOVES, workers, writer)
            };
            let expected = if left < 181 {
                Err(RunFault::Write(left))
            } else {
                Ok(Summary {
                    lines: 1,
                    first: None,
                })
            };
            assert_eq!(rt; outcome, expected, "{left} bytes, {most} a call");
            same(&rt, taken.as_slice(), &whole[..left.min(181)]);
        }
    }
    let mut taken = Vec::new(rt.alloc());
    let writer = Failing {
        taken: &mut taken,
        left: 1000,
        most: 0,
    };
    let outcome = bytes_to(&rt, NO_MOVES, 1, writer);
    same(&rt, outcome, Err(RunFault::Write(0)));
}

// A sink over a writer fails only where a write failed or took nothing.
#[test]
fn sink_over_a_writer(rt: HostRuntime) {
    let mut taken = Vec::new(rt.alloc());
    {
        let mut sink = Through::new(Failing {
            taken: &mut taken,
            left: 5,
            most: 3,
        });
        assert!(rt; !sink.failed());
        assert_eq!(rt; sink.put(b"abcdef"), Ok(3));
        assert!(rt; !sink.failed());
        assert_eq!(rt; sink.put(b"def"), Ok(2));
        assert_eq!(rt; sink.put(b"f"), Err(SinkFailed));
        assert!(rt; sink.failed());
    }
    same(&rt, taken.as_slice(), b"abcde".as_slice());
}

/// A container of 20,500 kg goes aboard to starboard and ashore again, 400 times.
fn there_and_back(alloc: Global) -> Result<String, AllocError> {
    let mut text = String::new(alloc);
    text.push_str("UNB+UNOA:2+PLAN+SHIP+250101:1200+8'UNH+1+MOVINS:D:95B:UN'")?;
    for _ in 0..400 {
        text.push_str("HAN+LOA'LOC+147+0030782::5'MEA+WT++KGM:20500'EQD+CN+ABCU1234560'")?;
        text.push_str("HAN+DIS'LOC+147+0030782'EQD+CN+ABCU1234560'")?;
    }
    // Seven segments each time, and the first and the last of the message.
    text.push_str("UNT+2802+1'UNZ+1+8'")?;
    Ok(text)
}

/// The report on it: the lines of one such lift and of the empty ship again and again, 92 KB in
/// all.
fn report_on_them(alloc: Global) -> Result<String, AllocError> {
    let mut text = String::new(alloc);
    text.push_str(
        "STEP LIFT KG GM MEAN AFT FWD TRIM LIST A30 A40 A3040 GZ ANGLE CLOSE FRAMES VERDICT\n",
    )?;
    text.push_str(
        "0 - 8200000 4333 4000 4000 4000 0 0 31509 50888 19379 1958 35 0 0/0;0/0;0/0;0/0;0/0 PASS\n",
    )?;
    for k in 0..400u32 {
        let (aboard, ashore) = (2 * k + 1, 2 * k + 2);
        writeln!(
            text,
            "{aboard} L0030782 8220500 4314 4010 4010 4010 0 46 30861 50020 19158 1936 35 0 0/0;-5125/-64062500;0/-240726375;5125/-64062500;0/0 PASS"
        )?;
        writeln!(
            text,
            "{ashore} D0030782 8200000 4333 4000 4000 4000 0 0 31509 50888 19379 1958 35 0 0/0;0/0;0/0;0/0;0/0 PASS"
        )?;
    }
    text.push_str("ALL PASS\n")?;
    Ok(text)
}

// A long report by one worker is that by two, and wherever the writer fails it holds a prefix.
#[test]
fn long_report(rt: HostRuntime) -> Result<(), Fail> {
    let movins = there_and_back(rt.alloc())?;
    let whole = report_on_them(rt.alloc())?;
    for workers in [1, 2] {
        for left in [
            0,
            82,
            65_400,
            65_536,
            70_000,
            80_000,
            whole.len().saturating_sub(1),
            whole.len(),
        ] {
            let mut taken = Vec::new(rt.alloc());
            let outcome = {
                let writer = Failing {
                    taken: &mut taken,
                    left,
                    most: 100_000,
                };
                bytes_to(&rt, movins.as_bytes(), workers, writer)
            };
            let expected = if left < whole.len() {
                Err(RunFault::Write(left))
            } else {
                Ok(Summary {
                    lines: 801,
                    first: None,
                })
            };
            assert_eq!(&rt; outcome, expected, "{left} bytes, {workers} workers");
            same(
                &rt,
                taken.as_slice(),
                &whole.as_bytes()[..left.min(whole.len())],
            );
        }
    }
    Ok(())
}
