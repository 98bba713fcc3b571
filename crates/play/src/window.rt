// A script that is read part by part, and how far it is played.
ghost use Rattle.std.specs.Prelude.{◌≤◌};

use codec::field::after;
use script::entry::entry_end;

// The longest entry, a definition of 255 rows of each sort with names of 255 bytes, takes about half of it.
const WINDOW_BYTES: usize = 262144;

// What the last read gave.
#[derive(Clone, Copy)]
pub(crate) enum LastRead {
    // Bytes, so that more may come. So it is before the first read too.
    Bytes,
    // None: the script has ended, or the window was full.
    Nothing,
    Failure,
}

// The first `held` of the bytes are a part of the script, whose first byte has the position `base` in it. The entries before `end` are played,
// `count` of them in all. An array and a count, since the project has fixed memory and no `Vec`.
#[derive(Drop)]
pub(crate) struct Window {
    pub bytes: [u8; WINDOW_BYTES],
    pub held: usize,
    pub last: LastRead,
    pub base: usize,
    pub end: usize,
    pub count: usize,
    ghost fits: { held ≤ 262144 },
    ghost behind: { end ≤ held },
}

// Before the first read.
pub(crate) fn unread() -> Window {
    Window {
        bytes: [0; WINDOW_BYTES],
        held: 0,
        last: LastRead::Bytes,
        base: 0,
        end: 0,
        count: 0,
    }
}

impl Window {
    // One read behind what is held.
    fn read_once<S: std::io::Read>(&mut self, input: &mut S) {
        let held = self.held;
        self.last = match input.read(&mut self.bytes[held..]) {
            Ok(0) => LastRead::Nothing,
            Ok(n) => {
                self.held = held + n;
                LastRead::Bytes
            }
            Err(_) => LastRead::Failure,
        };
    }

    // Reads until the window is full, the script ends or a read fails. A `for`, since every loop is proved to end: a read gives a byte at
    // least, or is the last. The program `book` has a shorter loop, which does not say why it ended.
    fn fill<S: std::io::Read>(&mut self, input: &mut S) {
        for _ in 0..WINDOW_BYTES {
            self.read_once(input);
            if self.held == WINDOW_BYTES || !matches!(self.last, LastRead::Bytes) {
                break;
            }
        }
    }

    // What is left of the window moves to its front, and the script is read on.
    fn read_on<S: std::io::Read>(&mut self, input: &mut S) {
        let at = self.end;
        self.bytes.copy_within(at.., 0);
        self.base = after(self.base, at);
        self.end = 0;
        self.held -= at;
        self.fill(input);
    }

    // Where the entry behind the last one stands, if the window holds it whole.
    fn step(&mut self) -> Option<usize> {
        let at = self.end;
        let end = entry_end(&self.bytes[..self.held], at);
        if self.held <= at || self.held < end {
            return None;
        }
        self.end = end;
        self.count = after(self.count, 1);
        Some(at)
    }

    // Where the next entry stands. One that the window does not hold whole is looked for once more after a read.
    pub(crate) fn next_entry<S: std::io::Read>(&mut self, input: &mut S) -> Option<usize> {
        let next = self.step();
        if next.is_some() || !matches!(self.last, LastRead::Bytes) {
            return next;
        }
        self.read_on(input);
        self.step()
    }
}
