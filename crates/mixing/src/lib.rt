// The blocks of sound that a store's host works out by its rules: the output of a fade and the sum of a bus. What making fixed says how
// many samples a block has, how long a fade is, and whether its gains are the fade table's. No table of the store is needed. Its twin in whole
// numbers is crate whole_mixing, which says why there are two.
#![tactic(auto)]

ghost use Rattle.std.specs.Prelude.{◌≡◌, Err};
ghost use Rattle.node.specs.declared.refusal.Refusal as refusal;
ghost use Rattle.model.specs.Call.{fade_answer, sum_answer};
ghost use Rattle.mixing.specs.Filled.{filled_of};

pub use bus::FadePart;
use bus::fade_length;
use fade_table::table_gains;
use node::refusal::Refusal;
use store::config::Config;

// A fade's output for one block. Where the table was chosen, the lent gains are not looked at.
pub fn fade_output(
    config: Config,
    input: &[f32],
    gains: &[f32],
    p: FadePart,
    out: &mut [f32],
) -> Result<(), Refusal>
    ensures is { filled_of result out.new ≡ fade_answer config input.now p.ins gains.now p.position out.old p.outs }
    ensures same { (x : refusal.Refusal) → result ≡ Err x → out.new ≡ out.old }
{
    let len = fade_length(config.rate);
    let size = config.block;
    let table = config.table.then(table_gains);
    let gains = table.as_ref().map_or(gains, |t| &t[..]);
    bus::fade_output(input, gains, len, size, p, out)
}

// The sum of a bus for one block. The inputs' blocks stand one after the other, and counts has the channel count of each.
pub fn bus_sum(
    config: Config,
    inputs: &[f32],
    counts: &[usize],
    out: &mut [f32],
    outs: usize,
) -> Result<(), Refusal>
    ensures is { filled_of result out.new ≡ sum_answer config inputs.now counts.now out.old outs }
    ensures same { (x : refusal.Refusal) → result ≡ Err x → out.new ≡ out.old }
{
    bus::bus_sum(inputs, counts, config.block, out, outs)
}
