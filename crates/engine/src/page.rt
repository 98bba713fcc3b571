//! The page: a header, and a line for each voice.

ghost use Rattle.std.specs.Prelude.{◌≡◌, ◌≤◌, length, Err};
ghost use Rattle.node.specs.declared.refusal.Refusal as refusal;
ghost use Rattle.model.specs.Call as call;
ghost use Rattle.model.specs.Page.{page, port_now};
ghost use Rattle.engine.specs.Called.{Asked, page_answered};

use crate::page_text::{Text, add, put_line};
use crate::{Tables, feeding};
use lists::byte::copy;
use node::record::Edge;
use node::refusal::Refusal;
use voice::voices::Voice;

// All of it: at most 21 + 64 x 70 bytes.
fn page_text(clock: u64, edges: &[Edge], voices: &[Voice]) -> Text
    requires { length voices.now ≤ 64 }
    ensures { result.items ≡ page clock (port_now edges.now) voices.now }
{
    let mut page = Text::new();
    add(&mut page, b"voice age port state\n");
    for v in voices {
        put_line(&mut page, clock, feeding::port_now(edges, v), v);
    }
    page
}

impl Tables {
    /// The page (SPEC 14.2), written at the start of `out`: its length in bytes. Refused, and `out` stays, with 17 if
    /// `out` is shorter.
    pub fn page(&self, out: &mut [u8]) -> Result<usize, Refusal>
        ensures is { Asked (call.page out.old) self.now (page_answered result out.new) }
        ensures same { (x : refusal.Refusal) → result ≡ Err x → out.new ≡ out.old }
    {
        let page = page_text(self.clock, self.graph.edges(), self.voices.as_slice());
        let text = page.as_slice();
        let n = text.len();
        if out.len() < n {
            return Err(Refusal::ShortBuffer);
        }
        copy(text, out);
        Ok(n)
    }
}
