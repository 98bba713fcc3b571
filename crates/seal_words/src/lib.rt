// The seal of a board in 12 lent words, for a host that holds words only. Any words stand for a seal; zeros for none.
#![tactic(auto)]

ghost use Rattle.std.specs.Prelude.{◌≡◌, Some};
ghost use Rattle.seal_words.specs.Seal.{profile_in, seal_in};

use node::record::NodeId;
use sealed::profile::{Profile, Seal};
use words::fields::{high_word, long_from, low_word};

pub const SEAL_WORDS: usize = 12;

pub type SealWords = [u32; SEAL_WORDS];

// Word by word, here and in `profile_words`, since the list is the layout: fields put by their places would say it twice.
fn profile_in(w: &SealWords) -> Profile
    ensures { result ≡ profile_in w.now }
{
    Profile {
        bus: NodeId(w[1]),
        ports: long_from(w[2], w[3]),
        host_nodes: long_from(w[4], w[5]),
        host_edges: long_from(w[6], w[7]),
        def_nodes: long_from(w[8], w[9]),
        def_edges: long_from(w[10], w[11]),
    }
}

// The seal that the words stand for.
pub fn seal_in(w: &SealWords) -> Seal
    ensures { result ≡ seal_in w.now }
{
    (w[0] != 0).then_some(profile_in(w))
}

// The words of the seal by a profile.
fn profile_words(p: Profile) -> SealWords
    ensures { seal_in result ≡ Some p }
{
    [
        1,
        p.bus.0,
        low_word(p.ports),
        high_word(p.ports),
        low_word(p.host_nodes),
        high_word(p.host_nodes),
        low_word(p.host_edges),
        high_word(p.host_edges),
        low_word(p.def_nodes),
        high_word(p.def_nodes),
        low_word(p.def_edges),
        high_word(p.def_edges),
    ]
}

// The lent words become those of the seal.
pub fn put_seal(w: &mut SealWords, x: Seal)
    ensures { seal_in w.new ≡ x }
{
    *w = x.map_or([0; SEAL_WORDS], profile_words);
}
