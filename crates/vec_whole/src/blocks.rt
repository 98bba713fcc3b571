// Fade output and bus sum in whole numbers.
ghost use Rattle.std.proofs.Common.{rules};

use node::refusal::Refusal;
use vec_bus::blocks::{Head, Mixer, Sizes, config};

// The calls of a store, by the entries of its table or by the gains that are lent. A fade has the rate in the length's place.
// Written out beside `Store` of vec_bus: they call functions of two crates, and a trait of those would have the same two methods.
#[derive(Clone, Copy)]
pub struct WholeStore {
    pub table: bool,
}

impl Mixer for WholeStore {
    type Sample = i32;

    type Gain = u32;

    fn fade(
        &self,
        head: Head,
        input: &[i32],
        gains: &[u32],
        block: &mut [i32],
    ) -> Result<(), Refusal> {
        let made = config(head.length, head.size, self.table);
        whole_mixing::fade_output(made, input, gains, head.part, block)
    }

    fn sum(
        &self,
        sizes: Sizes,
        inputs: &[i32],
        counts: &[usize],
        block: &mut [i32],
    ) -> Result<(), Refusal> {
        let made = config(48000, sizes.size, self.table);
        whole_mixing::bus_sum(made, inputs, counts, block, sizes.outs)
    }

    ghost small = { Prim.search rules };
}
