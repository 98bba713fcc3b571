// Files, by the names that the command line gives.
ghost use Rattle.std.specs.Prelude.{◌≤◌, length};

use codec::descriptor::STDERR;
use codec::field::{byte_at, bytes_at};
use std::io::{Cursor, Error, ErrorKind, Read, Result, Write};
use std::rt::Files;
use std::{fs, str};

// Opens a file to be read. A name that is no text in UTF-8 names none.
pub(crate) fn open<R: Files>(rt: &R, name: &[u8]) -> Result<R::File> {
    match str::from_utf8(name) {
        Ok(text) => fs::open(rt, text),
        Err(_) => Err(Error::from(ErrorKind::InvalidFilename)),
    }
}

// Reads until the room is full, the input ends or a read fails: how many bytes were read. A `while`, since a read may give fewer bytes than are
// asked for: `read_exact` does not say how many came where the input ends first, and `io::read_full` takes a descriptor, which `R::File` does not give.
pub(crate) fn read_full<S: Read>(input: &mut S, room: &mut [u8]) -> usize
    ensures { result ≤ length room.new }
{
    let mut done: usize = 0;
    while done < room.len() {
        let n = input.read(&mut room[done..]).unwrap_or(0);
        if n == 0 {
            return done;
        }
        done += n;
    }
    done
}

// Whether the number of an error begins at `at`, as ` (os error 2)`.
fn begins_number(text: &[u8], at: usize) -> bool {
    bytes_at(text, at, 11) == b" (os error ".as_slice()
}

// How many bytes of an error's text say what went wrong: those before its number, and before the zeros that follow the text. By the place, since
// both tests look at what begins there.
fn reason_length(text: &[u8]) -> usize {
    (0..text.len())
        .find(|n| byte_at(text, *n) == 0 || begins_number(text, *n))
        .unwrap_or(text.len())
}

// Writes a line to standard error: what could not be opened, a colon and the reason.
pub(crate) fn fail(name: &[u8], error: Error) {
    let mut text = Cursor::new([0u8; 256]);
    let _ = write!(text, "{error}");
    let reason = text.into_inner();
    io::write_all(STDERR, name);
    io::write_all(STDERR, b": ");
    io::write_all(STDERR, bytes_at(&reason, 0, reason_length(&reason)));
    io::write_all(STDERR, b"\n");
}
