//! How far a long script is.
use std::io::Write;

/// How many lines are answered between two tellings.
const STRIDE: usize = 1_000;

/// Somebody who is told how far a script is.
pub trait Progress {
    /// So many lines of all are answered.
    fn answered(&mut self, lines: usize, all: usize);

    /// The script is at its end, and all that it changed is on the device; or it has stopped.
    fn end(&mut self, is_saved: bool);
}

/// Nobody.
#[derive(Clone, Copy, Debug, PartialEq, Eq)]
pub struct Quiet;

impl Progress for Quiet {
    fn answered(&mut self, _lines: usize, _all: usize) {}

    fn end(&mut self, _is_saved: bool) {}
}

/// Somebody at a terminal: one line there is written anew after each thousand lines, and is cleared at the end.
#[derive(Drop)]
pub struct Ticker<E> {
    terminal: E,
    /// Whether there is such a line now.
    shown: bool,
}

impl<E: Write> Ticker<E> {
    /// A line of this terminal, which isn't written yet.
    pub fn new(terminal: E) -> Ticker<E> {
        Ticker {
            terminal,
            shown: false,
        }
    }
}

impl<E: Write> Progress for Ticker<E> {
    fn answered(&mut self, lines: usize, all: usize) {
        if lines % STRIDE == 0 {
            let _ = write!(self.terminal, "\rfstch: line {lines} of {all}");
            self.shown = true;
        }
    }

    fn end(&mut self, _is_saved: bool) {
        if self.shown {
            let _ = self.terminal.write_all(b"\r\x1b[K");
            self.shown = false;
        }
    }
}
