//! The line on a terminal that reports how far the reading of stores is.

use operating::watching::{StoreWatcher, Watcher};
use std::alloc::{AllocError, Global};
use std::fmt;
use std::io::Write;
use std::time::{Clock, Duration, Instant};

/// How many milliseconds pass before anything is shown.
const SILENT: u128 = 2_000;

/// How many milliseconds a line stays before another one takes its place.
const STAYS: u128 = 500;

/// The greatest length of a name that is shown.
const LONGEST_NAME: usize = 32;

/// The characters that empty a terminal's line, so that the next character stands at its beginning.
const WIPE: &str = "\r\x1b[K";

/// A line about the store that is read. It has a clock and a terminal. It has nothing that reaches files, or what is written.
#[derive(Drop)]
pub struct Progress<'a, C, E> {
    alloc: Global,
    clock: &'a C,
    /// The terminal, or `None` if nothing is to be shown.
    terminal: Option<E>,
    names: &'a [&'a str],
    began: Option<Instant>,
    /// When the line that stands there was shown.
    shown: Option<Instant>,
    file: usize,
    /// How many bytes the store has, and those before it had.
    bytes: u64,
    bytes_before: u64,
}

/// What a line reports.
#[derive(Clone, Copy)]
struct Line<'a> {
    /// The store's name, and the number of its file.
    name: Option<&'a str>,
    file: usize,
    items: u64,
    /// In tenths of megabytes: how many were read in a second, and how many are left.
    rate: u64,
    left: u64,
}

impl<'a> fmt::Display for Line<'a> {
    fn fmt<W: fmt::Write>(&self, f: &mut fmt::Formatter<W>) -> fmt::Result {
        let (items, file) = (self.items, self.file);
        match self.name {
            Some(name) => write!(f, "{name}: ")?,
            None => write!(f, "store {file}: ")?,
        }
        let (rate, rate_tenths) = (self.rate / 10, self.rate % 10);
        let (left, left_tenths) = (self.left / 10, self.left % 10);
        write!(
            f,
            "{items} items read, {rate}.{rate_tenths} MB/s, {left}.{left_tenths} MB left"
        )
    }
}

/// Returns the last part of a file's name, if it is short and each of its characters takes one place on a terminal.
fn shown_name(name: &str) -> Option<&str> {
    let last = match name.rsplit_once('/') {
        Some((_, last)) => last,
        None => name,
    };
    let is_plain = last.bytes().all(|byte| byte.is_ascii_graphic());
    if is_plain && last.len() <= LONGEST_NAME {
        Some(last)
    } else {
        None
    }
}

/// Returns how many tenths of megabytes a second these are.
fn rate_of(bytes: u64, time: Duration) -> u64 {
    let millis = match u64::try_from(time.as_millis()) {
        Ok(millis) => millis,
        Err(_) => u64::MAX,
    };
    match bytes.checked_div(millis.saturating_mul(100)) {
        Some(rate) => rate,
        None => 0,
    }
}

impl<'a, C: Clock, E: Write> Progress<'a, C, E> {
    /// Returns a line about these files on this terminal, if there is one. The two seconds without a line begin.
    pub fn new(
        alloc: Global,
        clock: &'a C,
        terminal: Option<E>,
        names: &'a [&'a str],
    ) -> Progress<'a, C, E> {
        let began = match terminal {
            Some(_) => Instant::now(clock).ok(),
            None => None,
        };
        Progress {
            alloc,
            clock,
            terminal,
            names,
            began,
            shown: None,
            file: 0,
            bytes: 0,
            bytes_before: 0,
        }
    }

    /// Returns how long it took up to now, if a line is due.
    fn time_of_line(&self, now: Instant) -> Option<Duration> {
        let time = now.duration_since(self.began?);
        let is_old = match self.shown {
            Some(shown) => now.duration_since(shown).as_millis() >= STAYS,
            None => true,
        };
        if is_old && time.as_millis() > SILENT {
            Some(time)
        } else {
            None
        }
    }

    fn line(&self, items: u64, left: u64, time: Duration) -> Result<String, AllocError> {
        let name = match self.names.get(self.file) {
            Some(name) => shown_name(name),
            None => None,
        };
        let read = self
            .bytes_before
            .saturating_add(self.bytes.saturating_sub(left));
        let line = Line {
            name,
            file: self.file,
            items,
            rate: rate_of(read, time),
            left: left / 100_000,
        };
        format!(in self.alloc; "{WIPE}{line}")
    }

    /// Writes to the terminal. A line that cannot be written is not shown.
    fn put(&mut self, text: &str) {
        if let Some(terminal) = &mut self.terminal {
            let _ = terminal.write_all(text.as_bytes());
        }
    }
}

impl<C: Clock, E: Write> Watcher for Progress<'_, C, E> {
    fn read(&mut self, items: u64, left: u64) {
        if self.began.is_none() {
            return;
        }
        let Ok(now) = Instant::now(self.clock) else {
            return;
        };
        let Some(time) = self.time_of_line(now) else {
            return;
        };
        if let Ok(line) = self.line(items, left, time) {
            self.put(line.as_str());
            self.shown = Some(now);
        }
    }
}

impl<C: Clock, E: Write> StoreWatcher for Progress<'_, C, E> {
    fn begin(&mut self, file: usize, bytes: u64) {
        self.bytes_before = self.bytes_before.saturating_add(self.bytes);
        self.file = file;
        self.bytes = bytes;
    }

    fn end(&mut self) {
        if self.shown.take().is_some() {
            self.put(WIPE);
        }
    }
}
