// Fade output and bus sum in whole numbers, as questions of a store. What making fixed says how many samples a block has, how long a fade is, and
// whether its gains are the fade table's entries. No table of the store is needed.
// Two functions beside those of `mixing`: table, call below and answer of the model differ, and a trait that holds them is longer than the four bodies.
#![tactic(auto)]

ghost use Rattle.std.specs.Prelude.{◌≡◌, Err};
ghost use Rattle.node.specs.declared.refusal.Refusal as refusal;
ghost use Rattle.model.specs.Call.{whole_fade_answer, whole_sum_answer};
ghost use Rattle.whole_mixing.specs.Filled.{filled_of};

use bus::{FadePart, fade_length};
use fade_table::table_entries;
use node::refusal::Refusal;
use store::config::Config;

// A fade's output for one block. Where the table was chosen, the lent gains are not looked at.
pub fn fade_output(
    config: Config,
    input: &[i32],
    gains: &[u32],
    p: FadePart,
    out: &mut [i32],
) -> Result<(), Refusal>
    ensures is { filled_of result out.new ≡ whole_fade_answer config input.now p.ins gains.now p.position out.old p.outs }
    ensures same { (x : refusal.Refusal) → result ≡ Err x → out.new ≡ out.old }
{
    let len = fade_length(config.rate);
    let size = config.block;
    // Two calls: an `Option` of the table is cleared at every call, also where the gains are lent, and a slice of a table that is made on one path
    // alone is not covered by the borrow checker yet (both tried).
    if config.table {
        let table = table_entries();
        return whole_samples::fade_output(input, &table, len, size, p, out);
    }
    whole_samples::fade_output(input, gains, len, size, p, out)
}

// The sum of a bus for one block. The inputs' blocks stand one after the other, and counts has the channel count of each.
pub fn bus_sum(
    config: Config,
    inputs: &[i32],
    counts: &[usize],
    out: &mut [i32],
    outs: usize,
) -> Result<(), Refusal>
    ensures is { filled_of result out.new ≡ whole_sum_answer config inputs.now counts.now out.old outs }
    ensures same { (x : refusal.Refusal) → result ≡ Err x → out.new ≡ out.old }
{
    whole_samples::bus_sum(inputs, counts, config.block, out, outs)
}
