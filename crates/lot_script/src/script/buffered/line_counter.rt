//! This module has a writer that counts the lines that it has taken.

ghost use Rattle.std.specs.Prelude.{◌≡◌};

use std::io;
use std::io::Write;

#[derive(Drop)]
pub(super) struct LineCounter<W> {
    inner: W,
    lines: usize,
}

impl<W: Write> LineCounter<W> {
    pub(super) fn new(inner: W) -> LineCounter<W>
        ensures inner { result.inner ≡ inner }
        ensures lines { result.lines ≡ 0 }
    {
        LineCounter { inner, lines: 0 }
    }

    // How many line feeds the writer has taken.
    pub(super) fn lines(&self) -> usize
        ensures { result ≡ self.now.lines }
    {
        self.lines
    }
}

impl<W: Write> Write for LineCounter<W> {
    ghost contents = { λ counter. W.contents counter.inner };

    fn write(&mut self, buf: &[u8]) -> io::Result<usize> {
        let taken = self.inner.write(buf)?;
        self.lines = self.lines.saturating_add(count_lines(&buf[..taken]));
        Ok(taken)
    }

    fn flush(&mut self) -> io::Result<()> {
        self.inner.flush()
    }
}

fn count_lines(bytes: &[u8]) -> usize {
    bytes.iter().filter(|byte| **byte == b'\n').count()
}
