// The parts of the page, each added at the end of one text. Not by `write!`: to a writer of one's own it says what it wrote where it answers Ok, and
// not that it does, and the clauses here have no other case.
ghost use Rattle.std.specs.Prelude.{◌≡◌, [], ◌++◌, take, get_or};
ghost use Rattle.node.specs.Silence.{bytes as text};
ghost use Rattle.graph_rows.specs.Edge.{edges_in};
ghost use Rattle.voice_rows.specs.Rows.{voice_of, voices_in};
ghost use Rattle.model.specs.Decimal.{decimal};
ghost use Rattle.model.specs.Page as paper;
ghost use Rattle.call_page.specs.Text.{shown, Added};

use graph_rows::edge_row::EdgeTable;
use graph_tables::ports::feeding_edge;
use lists::byte::copy;
use memory::state::State;
use voice::voices::VoiceState;
use voice_rows::feeding::end_at;
use voice_rows::row::{VoiceTable, birth_at, bus_at, id_at, state_at};

// A page, or the part of it that is there: an array and how many of its bytes count, since there is no heap for a `String`.
// No `Table` of crate lists: that one takes row by row, and its count goes on where there is no room.
#[derive(Clone, Copy)]
pub(crate) struct Text {
    bytes: [u8; 4501],
    len: usize,
}

impl Text {
    pub(crate) fn empty() -> Text
        ensures { shown result ≡ [] }
    {
        Text {
            bytes: [0; 4501],
            len: 0,
        }
    }

    pub(crate) fn as_slice(&self) -> &[u8]
        ensures { result.now ≡ shown self.now }
    {
        &self.bytes[..self.len.min(4501)]
    }

    // Adds `s` at the end, as much of it as finds room.
    fn add(&mut self, s: &[u8])
        ensures { shown self.new ≡ take 4501 (shown self.old ++ s.now) }
    {
        let at = self.len.min(4501);
        let n = s.len().min(4501 - at);
        copy(&s[..n], &mut self.bytes[at..]);
        self.len = at + n;
    }
}

fn put_number(n: u64, out: &mut Text)
    ensures { Added 20 (decimal n) (shown out.old) (shown out.new) }
{
    let mut digits = [0u8; 20];
    let k = io::decimal(n, &mut digits);
    out.add(&digits[..k]);
}

// A number, and the space after it.
fn put_field(n: u64, out: &mut Text)
    ensures { Added 21 (decimal n ++ text " ") (shown out.old) (shown out.new) }
{
    put_number(n, out);
    out.add(b" ");
}

// The port of its bus that the voice in row `i` feeds now, or `-`, and the space after it.
fn put_port(s: State, edges: &EdgeTable, t: &[u32], i: usize, out: &mut Text)
    ensures { Added 21 (paper.port_text (paper.port_now (take s.edges (edges_in edges.now)) (get_or (voices_in t.now) i (voice_of []))) ++ text " ") (shown out.old) (shown out.new) }
{
    match feeding_edge(edges, s.edges, end_at(t, i), bus_at(t, i)) {
        Some(e) => put_field(u64::from(e.port), out),
        None => out.add(b"- "),
    }
}

// A voice's state, and the line feed.
fn put_state(s: VoiceState, out: &mut Text)
    ensures { Added 7 (paper.word s ++ text "\n") (shown out.old) (shown out.new) }
{
    match s {
        VoiceState::Tracked => out.add(b"held\n"),
        VoiceState::Fading(_) => out.add(b"fading\n"),
        VoiceState::Loose => out.add(b"loose\n"),
    }
}

// The samples since the birth of the voice in row `i`.
fn age_at(clock: u64, t: &[u32], i: usize) -> u64
    ensures { result ≡ paper.age clock (get_or (voices_in t.now) i (voice_of [])) }
{
    clock.saturating_sub(birth_at(t, i))
}

// The line of the voice in row `i`.
fn put_line(s: State, edges: &EdgeTable, t: &[u32], i: usize, out: &mut Text)
    ensures { Added 70 (paper.line s.clock (paper.port_now (take s.edges (edges_in edges.now)) (get_or (voices_in t.now) i (voice_of []))) (get_or (voices_in t.now) i (voice_of []))) (shown out.old) (shown out.new) }
{
    put_field(id_at(t, i).0, out);
    put_field(age_at(s.clock, t, i), out);
    put_port(s, edges, t, i, out);
    put_state(state_at(t, i), out);
}

// The header, and the lines of the voices: at most 21 + 64 x 70 bytes, so that all of it finds room. By the places: a row is so many words of a
// lent table.
pub(crate) fn page_text(s: State, edges: &EdgeTable, t: &VoiceTable) -> Text
    ensures { shown result ≡ paper.page s.clock (paper.port_now (take s.edges (edges_in edges.now))) (take s.voices (voices_in t.now)) }
{
    let mut page = Text::empty();
    page.add(b"voice age port state\n");
    for i in 0..s.voices.min(64) {
        put_line(s, edges, t, i, &mut page);
    }
    page
}
