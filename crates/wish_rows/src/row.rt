// A wish's row: read whole, and stored whole. The words are a slice and not `WishTable`, which both callers have: no row needs the table's length, and
// the narrower type would ask more of callers than these public functions do.
ghost use Rattle.std.specs.Prelude.{◌≡◌, [], get_or, set};
ghost use Rattle.wish_rows.specs.Rows.{wish_of, wishes_in};

use crate::pack::{EdgeWords, NodeWords, PackedParam, wish_words};
use node::record::NodeId;
use store::wish::Wish;
use synthdef::def::{DefEdges, DefNodes, Params, SynthDef};
use voice_rows::layout::{Run, records_at};
use words::fields::{flag_at, float_at, long_at, low_byte};
use words::table::{put_row, word_at};

// "16 waiting each" of eight keyboards, a row of 243 words each.
pub const WISH_WORDS: usize = 31104;

pub type WishTable = [u32; WISH_WORDS];

// The definition in row `i`.
fn def_at(t: &[u32], i: usize) -> SynthDef
    ensures { result ≡ (get_or (wishes_in t.now) i (wish_of [])).def }
{
    let nodes = DefNodes {
        rows: records_at::<NodeWords, 6, 24, 243>(t, i, Run { base: 11 }),
        count: long_at(t, 243, i, 5) as usize,
    };
    let edges = DefEdges {
        rows: records_at::<EdgeWords, 1, 48, 243>(t, i, Run { base: 155 }),
        count: long_at(t, 243, i, 7) as usize,
    };
    let params = Params {
        rows: records_at::<PackedParam, 5, 8, 243>(t, i, Run { base: 203 }),
        count: long_at(t, 243, i, 9) as usize,
    };
    SynthDef {
        nodes,
        edges,
        params,
        output: low_byte(word_at(t, 243, i, 4)),
    }
}

// The wish in row `i`; past the end, the wish of no words, and no option: callers read a row that waits.
pub fn wish_at(t: &[u32], i: usize) -> Wish
    ensures { result ≡ get_or (wishes_in t.now) i (wish_of []) }
{
    Wish {
        managed: flag_at(t, 243, i, 0),
        def: def_at(t, i),
        bus: NodeId(word_at(t, 243, i, 1)),
        pan: float_at(t, 243, i, 2),
        rank: word_at(t, 243, i, 3),
    }
}

// Row `i` is the wish `w`; past the end nothing is stored.
pub fn put_wish(t: &mut [u32], i: usize, w: Wish)
    ensures { wishes_in t.new ≡ set (wishes_in t.old) i w }
{
    put_row(t, 243, i, &wish_words(w));
}
