// Plays the scope document's remaining examples, and each refusal by a call of its own: the script on standard input, which
// oracle/examples/make writes. It is the program `replay`: a crate has one `stdin` and one `stdout`, so that a second
// script needs a second program.
#![tactic(auto)]

use play::run::play_input;

fn main(rt: HostRuntime) {
    let mut input = rt.stdin();
    play_input(&mut input);
}
