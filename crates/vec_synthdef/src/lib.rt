// Answers the vectors of `synthdef`: whether a definition is allowed, its counted edges, which done flags silence it, and the nodes
// of its parameters.
#![tactic(auto)]

use codec::field::{after, byte_at, fields_at};
use codec::line::refused_line;
use codec::output::{Output, end_line, text};
use codec::word::{and_word, edge_words};
use node::name::name_of;
use node::refusal::Refusal;
use script::def::def_at;
use script::name::{name_at, name_end};
use std::array;
use synthdef::def::DefEdges;
use synthdef::edges::counted_edges;
use synthdef::limits::allowed;
use synthdef::params::param_node;
use synthdef::plan::{DonePlan, done_plan};
use synthdef::silent::plan_silent;

fn counted_words(out: &mut Output, es: DefEdges) {
    for e in es.as_slice() {
        edge_words(out, e.from, e.to, e.port);
    }
}

// The done flag of each node: bit n is that of node n.
fn flags_of(mask: u32) -> [bool; 24] {
    array::from_fn(|n| mask >> n & 1 == 1)
}

fn silent_word(out: &mut Output, silent: bool) {
    text(out, if silent { b" yes" } else { b" no" });
}

fn silent_words(out: &mut Output, s: &[u8], at: usize, count: u8, plan: DonePlan) {
    let mut room = [0u32; 255];
    let masks = &mut room[..usize::from(count)];
    fields_at(s, at, masks);
    for mask in masks.iter() {
        silent_word(out, plan_silent(plan, flags_of(*mask)));
    }
}

// The definition; then how many sets of done flags, and the sets; then two names.
pub fn definition(out: &mut Output, s: &[u8], at: usize) -> usize {
    let r = def_at(s, at);
    let def = r.def;
    let count = byte_at(s, r.end);
    let sets = after(r.end, 1);
    let first = after(sets, 4 * usize::from(count));
    let second = name_end(s, first);
    if !allowed(def) {
        refused_line(out, Refusal::DefinitionLimits);
        return name_end(s, second);
    }
    text(out, b"counted");
    counted_words(out, counted_edges(def.edges));
    text(out, b"\nsilent");
    silent_words(out, s, sets, count, done_plan(def));
    text(out, b"\nparams");
    and_word(out, param_node(def.params, name_of(name_at(s, first))));
    and_word(out, param_node(def.params, name_of(name_at(s, second))));
    end_line(out);
    name_end(s, second)
}
