// From text to a definition, line by line.
use crate::line::{Words, next_word, words_of};
use crate::words::{labelled, next_byte, next_name};
use book_bytes::read::blank_def;
use book_bytes::sorts::takes_of;
use synthdef::def::{DefEdge, DefNode, Param, SynthDef};

// `node NAME ports N required N sorts N in N level N amp N`
fn node_in(words: &mut Words) -> Option<DefNode> {
    let kind = next_name(words);
    let ports = labelled(words, b"ports")?;
    let required = labelled(words, b"required")?;
    let sorts = labelled(words, b"sorts")?;
    let in_port = labelled(words, b"in")?;
    let level_port = labelled(words, b"level")?;
    let amp_port = labelled(words, b"amp")?;
    if 3 < sorts {
        return None;
    }
    let (takes_values, takes_glides) = takes_of(sorts);
    Some(DefNode {
        kind,
        ports,
        required,
        takes_values,
        takes_glides,
        in_port,
        level_port,
        amp_port,
    })
}

// `edge SOURCE TARGET PORT`
fn edge_in(words: &mut Words) -> Option<DefEdge> {
    Some(DefEdge {
        from: next_byte(words)?,
        to: next_byte(words)?,
        port: next_byte(words)?,
    })
}

// `param NAME NODE`
fn param_in(words: &mut Words) -> Option<Param> {
    Some(Param {
        name: next_name(words),
        node: next_byte(words)?,
    })
}

// Takes a line by its first word: none where it cannot be read. An empty line is passed over. A row that the table has no room for makes
// the count too large, which the writer refuses.
fn take_line(def: &mut SynthDef, line: &[u8]) -> Option<()> {
    let mut words = words_of(line);
    match next_word(&mut words) {
        b"node" => {
            let node = node_in(&mut words)?;
            def.nodes.push(node);
        }
        b"edge" => {
            let edge = edge_in(&mut words)?;
            def.edges.push(edge);
        }
        b"param" => {
            let param = param_in(&mut words)?;
            def.params.push(param);
        }
        b"output" => def.output = next_byte(&mut words)?,
        b"" => {}
        _ => return None,
    }
    next_word(&mut words).is_empty().then_some(())
}

// The definition that the lines of `s` make, or the number of the first line that cannot be read. It begins as the blank one, which has
// no rows.
pub(crate) fn define(s: &[u8]) -> Result<SynthDef, usize> {
    let mut def = blank_def(0, 0);
    for (i, line) in s.split(|b| *b == b'\n').enumerate() {
        take_line(&mut def, line).ok_or(i + 1)?;
    }
    Ok(def)
}
