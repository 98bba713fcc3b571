// Books of definitions at the command line: docs/BOOKS.md.
//
//     book                    reads a book from standard input, and prints its definition as text, or the refusal and where
//     book write              reads such a text from standard input, and writes its book
//     book rewrite            reads a book, and writes the book that the writer makes of its definition
//     book WORD .. FILE ..    the same for files: `read`, `write` and `rewrite` say what is done with the files after them, and
//                             after `hex` books are printed in hexadecimal
#![tactic(auto)]

mod define;
mod file;
mod line;
mod show;
mod words;

use book_bytes::read::read_book;
use book_bytes::write::write_book;
use codec::field::{bytes_at, input_room};
use codec::line::word_line;
use codec::output::{Output, end_line, flush, hex_bytes, retrying_room, text};
use codec::word::and_word;
use def_book::answer::{ReadError, read_number, write_number};
use define::define;
use file::{fail, open, read_full};
use show::show;
use std::env::FillError;
use std::io::Read;
use std::rt::{Env, Files};
use synthdef::def::SynthDef;

// What is done with an input.
#[derive(Clone, Copy)]
enum Verb {
    Read,
    Write,
    Rewrite,
}

// How a book is printed.
#[derive(Clone, Copy)]
enum Print {
    Bytes,
    Hex,
}

// The program as it runs: what it prints, how it opens files, what the words so far ask for, and whether a file was among them.
#[derive(Drop)]
struct Run<'a, R> {
    out: Output,
    rt: &'a R,
    verb: Verb,
    print: Print,
    files: bool,
}

// The definition of a book, or none, with the refusal and the position printed. That it is beyond the limits is found when the whole
// book is read.
fn definition(out: &mut Output, s: &[u8]) -> Option<SynthDef> {
    let read = read_book(s);
    let at = match read {
        Ok(def) => return Some(def),
        Err(ReadError::Malformed(at)) => at,
        Err(ReadError::Limits { .. }) => s.len(),
    };
    text(out, b"refused");
    and_word(out, read_number(&read));
    text(out, b" at byte");
    and_word(out, at);
    end_line(out);
    None
}

fn put_out(out: &mut Output, book: &[u8], print: Print) {
    match print {
        Print::Bytes => text(out, book),
        Print::Hex => {
            hex_bytes(out, book);
            end_line(out);
        }
    }
}

// The book of a definition, or the refusal. The longest book has 1,166 bytes.
fn write(out: &mut Output, def: SynthDef, print: Print) {
    let mut room = [0u8; 1166];
    let written = write_book(def, &mut room);
    match written {
        Ok(n) => put_out(out, bytes_at(&room, 0, n), print),
        Err(_) => word_line(out, b"refused", write_number(written)),
    }
}

// The book that a text defines, or the line that it cannot read.
fn write_text(out: &mut Output, s: &[u8], print: Print) {
    match define(s) {
        Ok(def) => write(out, def, print),
        Err(line) => word_line(out, b"malformed line", line),
    }
}

impl<'a, R: Env + Files> Run<'a, R> {
    fn answer(&mut self, s: &[u8]) {
        match self.verb {
            Verb::Write => write_text(&mut self.out, s, self.print),
            Verb::Read => {
                if let Some(def) = definition(&mut self.out, s) {
                    show(&mut self.out, def);
                }
            }
            Verb::Rewrite => {
                if let Some(def) = definition(&mut self.out, s) {
                    write(&mut self.out, def, self.print);
                }
            }
        }
    }

    // Answers what stands in a file or comes from standard input, if it is not too long. The room holds more than is taken.
    fn answer_from<S: Read>(&mut self, input: &mut S) {
        let mut space = input_room();
        let n = read_full(input, &mut space);
        if n > 393215 {
            text(&mut self.out, b"longer than 393215 bytes\n");
            return;
        }
        self.answer(&space[..n]);
    }

    // The name is written before the file is read: whoever feeds a pipe may wait for it, and the file may be the one that is written to.
    fn answer_file(&mut self, path: &[u8]) {
        match open(self.rt, path) {
            Ok(mut file) => {
                text(&mut self.out, path);
                end_line(&mut self.out);
                flush(&mut self.out);
                self.answer_from(&mut file);
                flush(&mut self.out);
            }
            Err(error) => fail(path, error),
        }
    }

    // Takes one word of the command line: a verb, `hex`, or the name of a file, which is answered.
    fn take_word(&mut self, word: &[u8]) {
        match word {
            b"read" => self.verb = Verb::Read,
            b"write" => self.verb = Verb::Write,
            b"rewrite" => self.verb = Verb::Rewrite,
            b"hex" => self.print = Print::Hex,
            _ => {
                self.answer_file(word);
                self.files = true;
            }
        }
    }

    // Takes the word at `i`, and says whether there is one. A word of more than 4,096 bytes is taken as an empty one, which names no file.
    fn take_argument(&mut self, i: usize) -> bool {
        let mut word = io::buffer();
        match self.rt.arg(i, &mut word) {
            Ok(n) => self.take_word(&word[..n]),
            Err(FillError::TooLong) => self.take_word(b""),
            Err(FillError::NotPresent) => return false,
        }
        true
    }

    // Takes the words behind the program's own name, one after the other. A `for` with no end in practice, since every loop is proved to end.
    fn take_arguments(&mut self) {
        for i in 1..usize::MAX {
            if !self.take_argument(i) {
                return;
            }
        }
    }
}

fn main(rt: HostRuntime) {
    let mut run = Run {
        out: retrying_room(),
        rt: &rt,
        verb: Verb::Read,
        print: Print::Bytes,
        files: false,
    };
    run.take_arguments();
    if !run.files {
        run.answer_from(&mut rt.stdin());
    }
    flush(&mut run.out);
}
