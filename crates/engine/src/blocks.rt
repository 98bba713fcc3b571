//! The blocks of sound that a host works out by the store's rules: fade output and bus sum, in floats and in whole
//! numbers. Of the store they read what making fixed.

ghost use Rattle.std.specs.Prelude.{◌≡◌, Err};
ghost use Rattle.node.specs.declared.refusal.Refusal as refusal;
ghost use Rattle.model.specs.Call as call;
ghost use Rattle.mixing.specs.Filled.{filled_of};
ghost use Rattle.whole_mixing.specs.Filled as whole;
ghost use Rattle.engine.specs.Called.{Asked};

use crate::Tables;
use mixing::FadePart;
use node::refusal::Refusal;

impl Tables {
    /// The output of a fade for one block (SPEC 15.1): `input` has `part.ins` channels one after the other, `out` takes
    /// `part.outs`. Where the fade table was chosen, `gains` is not looked at. Refused, and `out` stays, with 16 if a
    /// lent block has another size.
    pub fn fade_output(
        &self,
        input: &[f32],
        gains: &[f32],
        part: FadePart,
        out: &mut [f32],
    ) -> Result<(), Refusal>
        ensures is { Asked (call.fade_output input.now part.ins gains.now part.position out.old part.outs)
            self.now (filled_of result out.new) }
        ensures same { (x : refusal.Refusal) → result ≡ Err x → out.new ≡ out.old }
    {
        mixing::fade_output(self.config, input, gains, part, out)
    }

    /// The sum of a bus for one block (SPEC 15.2): the inputs' blocks stand one after the other, `counts` has the
    /// channels of each, `out` takes `outs` channels. Refused, and `out` stays, with 16 if a lent block has another
    /// size.
    pub fn bus_sum(
        &self,
        inputs: &[f32],
        counts: &[usize],
        out: &mut [f32],
        outs: usize,
    ) -> Result<(), Refusal>
        ensures is { Asked (call.bus_sum inputs.now counts.now out.old outs) self.now (filled_of result out.new) }
        ensures same { (x : refusal.Refusal) → result ≡ Err x → out.new ≡ out.old }
    {
        mixing::bus_sum(self.config, inputs, counts, out, outs)
    }

    /// `fade_output` in whole numbers (SPEC 15.3): gains from 0 to 2^24. Refused, and `out` stays, with 16 if a lent
    /// block has another size, 21 if a sample or a gain is out of its range.
    pub fn whole_fade_output(
        &self,
        input: &[i32],
        gains: &[u32],
        part: FadePart,
        out: &mut [i32],
    ) -> Result<(), Refusal>
        ensures is { Asked (call.whole_fade input.now part.ins gains.now part.position out.old part.outs)
            self.now (whole.filled_of result out.new) }
        ensures same { (x : refusal.Refusal) → result ≡ Err x → out.new ≡ out.old }
    {
        whole_mixing::fade_output(self.config, input, gains, part, out)
    }

    /// `bus_sum` in whole numbers (SPEC 15.3). Refused, and `out` stays, with 16 if a lent block has another size, 21
    /// if a sample is out of its range.
    pub fn whole_bus_sum(
        &self,
        inputs: &[i32],
        counts: &[usize],
        out: &mut [i32],
        outs: usize,
    ) -> Result<(), Refusal>
        ensures is { Asked (call.whole_sum inputs.now counts.now out.old outs)
            self.now (whole.filled_of result out.new) }
        ensures same { (x : refusal.Refusal) → result ≡ Err x → out.new ≡ out.old }
    {
        whole_mixing::bus_sum(self.config, inputs, counts, out, outs)
    }
}
