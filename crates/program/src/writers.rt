ghost use Rattle.program.specs.Written.{marked};

use std::io;
use std::io::Write;

/// A caller's writer, as it is lent to a sink for one run.
///
/// Functions over any sink say what was added to its contents, and not whether it is still the same
/// sink. So the contents of this one begin with a mark, the name that the proof has for the loan:
/// where something was only added, the mark is unchanged, and the caller's writer has what was
/// written.
#[derive(Drop)]
pub struct Lent<'a, O> {
    /// The caller's.
    pub writer: &'a mut O,
}

impl<'a, O: Write> Write for Lent<'a, O> {
    ghost contents = { λ lent. marked lent.writer.ghost_name (O.contents lent.writer.now) };

    fn write(&mut self, bytes: &[u8]) -> io::Result<usize> {
        self.writer.write(bytes)
    }

    fn flush(&mut self) -> io::Result<()> {
        self.writer.flush()
    }
}
