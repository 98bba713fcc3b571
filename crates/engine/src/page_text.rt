//! The text of the page: its parts, each added at the end.

ghost use Rattle.std.specs.Prelude.{◌≡◌, ◌+◌, ◌≤◌, ℕ, Option, [], ◌++◌, length, option_map};
ghost use Rattle.node.specs.Silence.{bytes as text};
ghost use Rattle.voice.specs.declared.voices.Voice.{Voice};
ghost use Rattle.model.specs.Decimal.{decimal};
ghost use Rattle.model.specs.Page.{age, line, port_text, word};
ghost use Rattle.engine.specs.Text.{Added};

use arrayvec::ArrayVec;
use voice::voices::{Voice, VoiceState};

/// A header of 21 bytes, and at most 70 for each of 64 voices.
pub(crate) type Text = ArrayVec<u8, 4501>;

/// Adds `s`.
pub(crate) fn add(page: &mut Text, s: &[u8])
    requires { length page.old.items + length s.now ≤ 4501 }
    ensures { page.new.items ≡ page.old.items ++ s.now }
{
    // there is room
    let _ = page.try_extend_from_slice(s);
}

fn put_number(page: &mut Text, n: u64)
    requires { length page.old.items + 20 ≤ 4501 }
    ensures { Added 20 (decimal n) page.old.items page.new.items }
{
    let mut digits = [0u8; 20];
    let count = io::decimal(n, &mut digits);
    add(page, &digits[..count]);
}

// A number, and the space after it.
fn put_field(page: &mut Text, n: u64)
    requires { length page.old.items + 21 ≤ 4501 }
    ensures { Added 21 (decimal n ++ text " ") page.old.items page.new.items }
{
    put_number(page, n);
    add(page, b" ");
}

// A port or `-`, and the space after it.
fn put_port(page: &mut Text, port: Option<u32>)
    requires { length page.old.items + 21 ≤ 4501 }
    ensures { Added 21 (port_text port ++ text " ") page.old.items page.new.items }
{
    match port {
        Some(p) => put_field(page, u64::from(p)),
        None => add(page, b"- "),
    }
}

// A voice's state, and the line feed.
fn put_state(page: &mut Text, state: VoiceState)
    requires { length page.old.items + 7 ≤ 4501 }
    ensures { Added 7 (word state ++ text "\n") page.old.items page.new.items }
{
    match state {
        VoiceState::Tracked => add(page, b"held\n"),
        VoiceState::Fading(_) => add(page, b"fading\n"),
        VoiceState::Loose => add(page, b"loose\n"),
    }
}

/// Adds the line of a voice that feeds this port of its bus now.
pub(crate) fn put_line(page: &mut Text, clock: u64, port: Option<u32>, v: &Voice)
    requires { length page.old.items + 70 ≤ 4501 }
    ensures { Added 70 (line clock port v.now) page.old.items page.new.items }
{
    put_field(page, v.id.0);
    put_field(page, clock.saturating_sub(v.birth));
    put_port(page, port);
    put_state(page, v.state);
}
