// Victims, admissions and steal records.
// Output, input and position stay three parameters: a struct of them would be taken apart at each reader of `codec`.
// NOWHERE and no Option for a count that is too high, and where a call ends past the input: whoever calls asks of each end whether it is past the
// input, and one test finds them.
use busiest::newest::newest_records;
use codec::field::{NOWHERE, after, byte_at, calls, float, long_at, word_at};
use codec::line::word_line;
use codec::output::{Output, end_line, text};
use codec::word::{Word, and_word};
use node::record::{NodeId, VoiceId};
use script::config::{budget_of, policy_of, scope_of};
use voice::policy::{Admission, BudgetScope, Candidate, Candidates};
use voice::steals::{StealRecord, Steals};
use voice_policy::policy::{counts_for, no_candidates, pick_victim, request_in};
use voice_policy::steals::{mark_cut, no_steals, push_steal, record_level, steal_record};

fn level_at(s: &[u8], at: usize) -> Option<f32> {
    (byte_at(s, at) != 0).then(|| float(word_at(s, after(at, 1))))
}

// The tracked voices that count for a new voice on `bus`: of n rows, each a voice id, its bus and its level. All ranks are 0, as in
// all runs against the older program in Rust. The position goes on by `after`, as in `fields_at` of codec: by `enumerate` it would be a product, which
// has to fit.
fn candidates_at(s: &[u8], at: usize, n: usize, scope: BudgetScope, bus: NodeId) -> Candidates {
    let mut t = no_candidates();
    let mut from = at;
    for _ in 0..n {
        let theirs = NodeId(word_at(s, after(from, 8)));
        if counts_for(scope, theirs, bus) {
            t.push(Candidate {
                voice: VoiceId(long_at(s, from)),
                level: level_at(s, after(from, 12)),
                rank: 0,
            });
        }
        from = after(from, 17);
    }
    t
}

// The policy; then how many candidates, and the candidates.
pub fn victim(out: &mut Output, s: &[u8], at: usize) -> usize {
    let n = word_at(s, after(at, 1)) as usize;
    if n > 64 {
        return NOWHERE;
    }
    let t = candidates_at(s, after(at, 5), n, BudgetScope::Global, NodeId(0));
    match pick_victim(t, policy_of(byte_at(s, at)), 0) {
        None => text(out, b"-"),
        Some((place, voice)) => {
            place.put(out);
            and_word(out, voice);
        }
    }
    end_line(out);
    after(at, 5 + 17 * n)
}

// The budget, the policy, the scope and the new voice's bus; then how many voices are tracked, and the voices.
pub fn admission(out: &mut Output, s: &[u8], at: usize) -> usize {
    let n = word_at(s, after(at, 11)) as usize;
    if n > 64 {
        return NOWHERE;
    }
    let scope = scope_of(byte_at(s, after(at, 6)));
    let bus = NodeId(word_at(s, after(at, 7)));
    let t = candidates_at(s, after(at, 15), n, scope, bus);
    let budget = budget_of(byte_at(s, at), word_at(s, after(at, 1)) as usize);
    match request_in(budget, policy_of(byte_at(s, after(at, 5))), 0, t) {
        Admission::Admit => text(out, b"admit"),
        Admission::Reject => text(out, b"reject"),
        Admission::Steal { place: _, voice } => {
            text(out, b"steal");
            and_word(out, voice);
        }
    }
    end_line(out);
    after(at, 15 + 17 * n)
}

// One call, by docs/VECTORS.md, which numbers the sorts: 1 pushes a record, its sample, level and cut mark; any other marks the record of a number.
// The byte is matched itself: an enum of the sorts would be made by the same match, and matched once more.
fn play(s: &[u8], at: usize, steals: &mut Steals) -> usize {
    let n = long_at(s, after(at, 1));
    *steals = match byte_at(s, at) {
        1 => {
            let level = level_at(s, after(at, 9));
            let cut = byte_at(s, after(at, 14)) != 0;
            push_steal(*steals, steal_record(n, level, cut))
        }
        _ => mark_cut(*steals, n),
    };
    after(at, 15)
}

// Crate transcript has lines of steal records too, and takes crates that the vectors have no need of.

fn record_line(out: &mut Output, r: StealRecord) {
    r.sample.put(out);
    and_word(out, record_level(r));
    text(out, if r.cut { b" cut" } else { b" faded" });
    end_line(out);
}

fn steal_lines(out: &mut Output, steals: Steals) {
    word_line(out, b"steals", steals.total);
    for r in newest_records(steals).as_slice() {
        record_line(out, *r);
    }
}

// How many calls, and the calls; then the steals and the newest records.
pub fn steals(out: &mut Output, s: &[u8], at: usize) -> usize {
    let mut steals = no_steals();
    let Some(end) = calls(s, at, |from| play(s, from, &mut steals)) else {
        return NOWHERE;
    };
    steal_lines(out, steals);
    end
}
