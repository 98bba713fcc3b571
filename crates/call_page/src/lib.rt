// The page on a lent store: a header and a line for each voice, into a lent buffer. The edges tell which port a voice feeds now.
#![tactic(auto)]

mod put;

ghost use Rattle.std.specs.Prelude.{◌≡◌, min, length, Err};
ghost use Rattle.io.specs.Counts.{IsPrefixLen};
ghost use Rattle.node.specs.declared.refusal.Refusal as refusal;
ghost use Rattle.model.specs.Call as call;
ghost use Rattle.memory.specs.View.{Memory};
ghost use Rattle.memory.specs.Lent.{lent_page};
ghost use Rattle.memory.specs.Called.{Called};
ghost use Rattle.call_page.specs.Paged.{paged_of, length_of};

use graph_rows::edge_row::EdgeTable;
use lists::byte::copy;
use memory::state::State;
use node::refusal::Refusal;
use put::page_text;
use voice_rows::row::VoiceTable;

// The page in `out`, and its length; or 17 where `out` is too short, and then `out` stays as it is.
pub fn page(
    s: State,
    edges: &EdgeTable,
    voices: &VoiceTable,
    out: &mut [u8],
) -> Result<usize, Refusal>
    ensures is { (m : Memory) → Called (call.ask (call.page out.old)) (lent_page s edges.now voices.now m) (paged_of result out.new) (lent_page s edges.now voices.now m) }
    ensures same { (x : refusal.Refusal) → result ≡ Err x → out.new ≡ out.old }
{
    let page = page_text(s, edges, voices);
    let text = page.as_slice();
    let n = text.len();
    if out.len() < n {
        return Err(Refusal::ShortBuffer);
    }
    copy(text, out);
    Ok(n)
}

// How many bytes of a buffer the page takes. 0 and no option where it was refused: a program prints so many, and then there is nothing to print.
pub fn page_length(p: Result<usize, Refusal>, out: &[u8]) -> usize
    ensures is { result ≡ min (length_of p) (length out.now) }
    ensures part { IsPrefixLen result out.now }
{
    p.unwrap_or(0).min(out.len())
}
