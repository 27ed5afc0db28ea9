ghost use Rattle.std.specs.Prelude.{◌≡◌, ℕ, ◌+◌, ◌<◌, ◌≤◌, length, take, List, Bool, Option, true};
ghost use Rattle.std.specs.Prelude.{false, IfOk, IfErr, OnOk, is_err};
ghost use Rattle.std.specs.Io.KnownBytes.{Appends, WriteAppends};

use std::io::Write;

/// The sink takes no more.
#[derive(Clone, Copy, Debug, PartialEq, Eq)]
pub struct SinkFailed;

/// What takes the bytes of a report, and keeps them in their order.
pub trait Sink {
    // The bytes that it holds, where they are known.
    ghost contents: { Self → Option (List ℕ) };

    // It has failed, and takes no more.
    ghost has_failed: { Self → Bool };

    /// Takes the first bytes of `bytes`, at least one, and says how many; or it fails for good, and
    /// takes none.
    fn put(&mut self, bytes: &[u8]) -> Result<usize, SinkFailed>
        requires some { 0 < length bytes.now }
        requires sound { has_failed self.old ≡ false }
        ensures least { IfOk result (λ n. 0 < n) }
        ensures most { IfOk result (λ n. n ≤ length bytes.now) }
        ensures bytes { WriteAppends (contents self.old) (contents self.new) result bytes.now }
        ensures failed { has_failed self.new ≡ is_err result };

    /// Whether it has failed.
    fn failed(&self) -> bool
        ensures { result ≡ has_failed self.now };
}

/// The sink over a writer. It calls `write` alone, and has failed once a write failed or took no
/// byte.
#[derive(Drop)]
pub struct Through<W: Write + Drop> {
    writer: W,
    has_failed: bool,
}

impl<W: Write + Drop> Through<W> {
    /// The sink over this writer, which has not failed.
    pub fn new(writer: W) -> Through<W>
        ensures sound { result.has_failed ≡ false }
        ensures contents { W.contents result.writer ≡ W.contents writer }
    {
        Through {
            writer,
            has_failed: false,
        }
    }

    /// The writer, with what it holds.
    pub fn into_inner(self) -> W
        ensures { result ≡ self.writer }
    {
        let Through {
            writer,
            has_failed: _,
        } = self;
        writer
    }
}

impl<W: Write + Drop> Sink for Through<W> {
    ghost contents = { λ t. W.contents t.writer };

    ghost has_failed = { λ t. t.has_failed };

    fn put(&mut self, bytes: &[u8]) -> Result<usize, SinkFailed> {
        match self.writer.write(bytes) {
            Ok(taken) if taken > 0 => Ok(taken),
            _ => {
                self.has_failed = true;
                Err(SinkFailed)
            }
        }
    }

    fn failed(&self) -> bool {
        self.has_failed
    }
}

/// Writes all of `bytes`, or says how many of them the sink took before it failed.
pub fn put_all<S: Sink>(sink: &mut S, bytes: &[u8]) -> Result<(), usize>
    requires { S.has_failed sink.old ≡ false }
    ensures ok { OnOk result (Appends (S.contents sink.old) (S.contents sink.new) bytes.now) }
    ensures err { IfErr result
        (λ n. Appends (S.contents sink.old) (S.contents sink.new) (take n bytes.now)) }
    ensures err_short { IfErr result (λ n. n < length bytes.now) }
    ensures failed { S.has_failed sink.new ≡ is_err result }
{
    let mut taken = 0;
    while taken < bytes.len() {
        match sink.put(&bytes[taken..]) {
            Ok(more) => taken += more,
            Err(SinkFailed) => return Err(taken),
        }
    }
    Ok(())
}

/// Writes a part of a text behind its first `before` bytes, which are written already, and returns
/// how many are written then; or, where the sink fails, how many it took.
pub fn put_part<S: Sink>(sink: &mut S, before: usize, part: &[u8]) -> Result<usize, usize>
    requires sound { S.has_failed sink.old ≡ false }
    requires room { before + length part.now ≤ 18446744073709551615 }
    ensures ok { IfOk result (λ put. put ≡ before + length part.now) }
    ensures all { IfOk result
        (λ _. Appends (S.contents sink.old) (S.contents sink.new) part.now) }
    ensures err { IfErr result (λ put. (m : ℕ) × (put ≡ before + m) × (m < length part.now)
        × Appends (S.contents sink.old) (S.contents sink.new) (take m part.now)) }
    ensures failed { S.has_failed sink.new ≡ is_err result }
{
    match put_all(sink, part) {
        Ok(()) => Ok(before + part.len()),
        Err(taken) => Err(before + taken),
    }
}
