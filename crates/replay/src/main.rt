// Plays a script from standard input on a newly made store, and writes the transcript. docs/REPLAY.md describes both. `examples` is the
// same program: a crate has one `stdin` and one `stdout`, and each of the two programs has a script and a transcript of its own.
#![tactic(auto)]

use play::run::play_input;

fn main(rt: HostRuntime) {
    let mut input = rt.stdin();
    play_input(&mut input);
}
