// Prints the page of the scene in crate page_scene: a header, and a line for each voice.
#![tactic(auto)]

use page_scene::scene_page;

// The descriptor of standard output.
const STDOUT: i32 = 1;

fn main() {
    let mut out = io::buffer();
    if let Ok(length) = scene_page(&mut out) {
        io::write_all(STDOUT, &out[..length.min(out.len())]);
    }
}
