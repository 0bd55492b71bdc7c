//! A keyboard whose lines are typed one by one, each once the answers before it are shown, and
//! which breaks behind the last one. What else fails, `bench/script/faults` shows of the program.

use crate::words::expect;
use lot_script::script::{Cause, Fault, buffered_script, script};
use std::cell::Cell;
use std::io;
use std::io::{BufReader, ErrorKind, Read, Write};

const LINES: &[u8] = b"lot 1\nregister\nretire 0\n";

// How many lines the bytes end.
fn lines_in(bytes: &[u8]) -> usize {
    let mut lines: usize = 0;
    for byte in bytes {
        lines = lines.wrapping_add(usize::from(*byte == b'\n'));
    }
    lines
}

// What is typed of the lines, how many bytes of it were read, how many answers are shown, and
// whether the last read was interrupted. Each read comes after an interrupted one.
#[derive(Copy, Clone)]
struct Terminal<'a> {
    typed: &'a [u8],
    read: &'a Cell<usize>,
    shown: &'a Cell<usize>,
    is_interrupted: &'a Cell<bool>,
}

impl Read for Terminal<'_> {
    fn read(&mut self, buf: &mut [u8]) -> io::Result<usize> {
        self.is_interrupted.set(!self.is_interrupted.get());
        if self.is_interrupted.get() {
            return Err(ErrorKind::Interrupted.into());
        }
        let (before, rest) = self.typed.split_at(self.read.get().min(self.typed.len()));
        if self.shown.get() != lines_in(before) {
            return Err(ErrorKind::WouldBlock.into());
        }
        let (Some(byte), Some(place)) = (rest.first(), buf.first_mut()) else {
            return Err(ErrorKind::Other.into());
        };
        *place = *byte;
        self.read.set(self.read.get().wrapping_add(1));
        Ok(1)
    }
}

impl Write for Terminal<'_> {
    fn write(&mut self, buf: &[u8]) -> io::Result<usize> {
        self.shown.set(self.shown.get().wrapping_add(lines_in(buf)));
        Ok(buf.len())
    }

    fn flush(&mut self) -> io::Result<()> {
        Ok(())
    }
}

// It refuses a script that takes a failed read for the end of the input, and one that reads a line
// whose predecessor's answer is not shown.
#[test]
fn each_line_is_answered_before_a_read_that_fails_behind_any_byte(rt: HostRuntime) {
    for is_buffered in [true, false] {
        for count in 0..=LINES.len() {
            let typed = &LINES[..count];
            let (read, shown, is_interrupted) = (Cell::new(0), Cell::new(0), Cell::new(false));
            let mut terminal = Terminal {
                typed,
                read: &read,
                shown: &shown,
                is_interrupted: &is_interrupted,
            };
            let ended = if is_buffered {
                buffered_script(rt.alloc(), terminal, &mut terminal)
            } else {
                let input = BufReader::with_capacity(rt.alloc(), 1, terminal).expect(&rt, "memory");
                script(rt.alloc(), input, &mut terminal)
            };
            let fault = Fault {
                line: lines_in(typed).wrapping_add(1),
                cause: Cause::ReadFailed,
            };
            expect(
                &rt,
                ended == Err(fault) && shown.get() == lines_in(typed),
                "a fault",
            );
        }
    }
}
