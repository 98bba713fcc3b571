// A wish as words.
ghost use Rattle.std.specs.Prelude.{◌≡◌};
ghost use Rattle.words.specs.Fields.{is_set};
ghost use Rattle.wish_rows.specs.Rows.{def_node_at, def_edge_at, param_at, Heads, Stands};
ghost use Rattle.wish_rows.specs.Layouts.{node_local, edge_local, param_local};

use store::wish::Wish;
use synthdef::def::{DefEdge, DefNode, Param};
use voice_rows::layout::{Layout, Run, put_records};
use words::fields::{byte_word, flag_word, float_word, high_word, low_word, name_at, name_words};
use words::table::{put_words, word_at};

// A node of a definition in six words.
pub(crate) struct NodeWords;

impl Layout<6> for NodeWords {
    type Record = DefNode;

    ghost at = { def_node_at };

    fn words(x: DefNode) -> [u32; 6] {
        let k = name_words(x.kind);
        let values = u8::from(x.takes_values);
        let glides = u8::from(x.takes_glides);
        [
            k[0],
            k[1],
            k[2],
            k[3],
            byte_word(x.kind.len, x.ports, x.required, values),
            byte_word(x.in_port, x.level_port, x.amp_port, glides),
        ]
    }

    fn read(t: &[u32], width: usize, i: usize, k: u16) -> DefNode {
        let j = usize::from(k);
        let x = word_at(t, width, i, j + 4).to_le_bytes();
        let y = word_at(t, width, i, j + 5).to_le_bytes();
        DefNode {
            kind: name_at(t, width, i, k),
            ports: x[1],
            required: x[2],
            takes_values: x[3] != 0,
            takes_glides: y[3] != 0,
            in_port: y[0],
            level_port: y[1],
            amp_port: y[2],
        }
    }

    ghost local = { node_local };
}

// An edge of a definition in one word.
pub(crate) struct EdgeWords;

impl Layout<1> for EdgeWords {
    type Record = DefEdge;

    ghost at = { def_edge_at };

    fn words(x: DefEdge) -> [u32; 1] {
        [byte_word(x.from, x.to, x.port, 0)]
    }

    fn read(t: &[u32], width: usize, i: usize, k: u16) -> DefEdge {
        let x = word_at(t, width, i, usize::from(k)).to_le_bytes();
        DefEdge {
            from: x[0],
            to: x[1],
            port: x[2],
        }
    }

    ghost local = { edge_local };
}

// A parameter in five words: the length of its name and its node share the last.
pub(crate) struct PackedParam;

impl Layout<5> for PackedParam {
    type Record = Param;

    ghost at = { param_at };

    fn words(x: Param) -> [u32; 5] {
        let n = name_words(x.name);
        [n[0], n[1], n[2], n[3], byte_word(x.name.len, x.node, 0, 0)]
    }

    fn read(t: &[u32], width: usize, i: usize, k: u16) -> Param {
        Param {
            name: name_at(t, width, i, k),
            node: word_at(t, width, i, usize::from(k) + 4).to_le_bytes()[1],
        }
    }

    ghost local = { param_local };
}

// The words of a wish before its definition's rows. Word by word, since the list is the layout.
fn head_words(w: Wish) -> [u32; 11]
    ensures { Heads w result }
{
    let ns = w.def.nodes.count as u64;
    let es = w.def.edges.count as u64;
    let ps = w.def.params.count as u64;
    [
        flag_word(w.managed),
        w.bus.0,
        float_word(w.pan),
        w.rank,
        u32::from(w.def.output),
        low_word(ns),
        high_word(ns),
        low_word(es),
        high_word(es),
        low_word(ps),
        high_word(ps),
    ]
}

// The words of a wish: its definition's nodes stand from word 11 on, the edges from word 155 on, the parameters from word 203 on.
pub fn wish_words(w: Wish) -> [u32; 243]
    ensures { Stands w result }
{
    let mut ws = [0; 243];
    put_words(&mut ws, 0, &head_words(w));
    put_records::<NodeWords, 6, 24, 243>(&mut ws, Run { base: 11 }, &w.def.nodes.rows);
    put_records::<EdgeWords, 1, 48, 243>(&mut ws, Run { base: 155 }, &w.def.edges.rows);
    put_records::<PackedParam, 5, 8, 243>(&mut ws, Run { base: 203 }, &w.def.params.rows);
    ws
}
