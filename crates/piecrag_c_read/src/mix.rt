// The page, and the blocks of sound that a host works out by the store's rules: fade output and bus sum, in floats and in whole numbers.
// Of fades and sums there are two functions each, since the C interface has no generic ones.
ghost use Rattle.std.specs.Prelude.{◌≡◌, Err};
ghost use Rattle.node.specs.declared.refusal.Refusal as refusal;
ghost use Rattle.model.specs.Call as call;
ghost use Rattle.memory.specs.View.{Memory};
ghost use Rattle.memory.specs.Lent.{lent_state, lent_page};
ghost use Rattle.call_page.specs.Paged.{paged_of};
ghost use Rattle.mixing.specs.Filled.{filled_of};
ghost use Rattle.whole_mixing.specs.Filled.{filled_of as filled_whole};
ghost use Rattle.state_words.specs.State.{state_in};
ghost use Rattle.c_answer.specs.Exported.{Tells};
ghost use Rattle.std.specs.Result.{result_unwrap_or};

use c_answer::answer::result_code;
use piecrag::{EdgeTable, FadePart, VoiceTable};
use state_words::{StateWords, config_in, state_in};

// The page in `out`; `length` becomes its length.
#[unsafe(no_mangle)]
pub extern "C" fn piecrag_page(
    state: &StateWords,
    edges: &EdgeTable,
    voices: &VoiceTable,
    out: &mut [u8],
    length: &mut usize,
) -> u32
    ensures { (m : Memory) → Tells (λ p. paged_of p out.new) (call.ask (call.page out.old)) (lent_page (state_in state.now) edges.now voices.now m) result (λ p. (length.new ≡ result_unwrap_or p length.old) × ((x : refusal.Refusal) → p ≡ Err x → out.new ≡ out.old)) }
{
    let s = state_in(state);
    let p = piecrag::page(s, edges, voices, out);
    *length = p.unwrap_or(*length);
    result_code(p)
}

// The output of a fade for one block.
#[unsafe(no_mangle)]
pub extern "C" fn piecrag_fade_output(
    state: &StateWords,
    input: &[f32],
    ins: usize,
    gains: &[f32],
    position: u64,
    out: &mut [f32],
    outs: usize,
) -> u32
    ensures { (m : Memory) → Tells (λ r. filled_of r out.new) (call.ask (call.fade_output input.now ins gains.now position out.old outs)) (lent_state (state_in state.now) m) result (λ r. (x : refusal.Refusal) → r ≡ Err x → out.new ≡ out.old) }
{
    let config = config_in(state);
    let part = FadePart {
        ins,
        outs,
        position,
    };
    result_code(piecrag::fade_output(config, input, gains, part, out))
}

// The sum of a bus for one block.
#[unsafe(no_mangle)]
pub extern "C" fn piecrag_bus_sum(
    state: &StateWords,
    inputs: &[f32],
    counts: &[usize],
    out: &mut [f32],
    outs: usize,
) -> u32
    ensures { (m : Memory) → Tells (λ r. filled_of r out.new) (call.ask (call.bus_sum inputs.now counts.now out.old outs)) (lent_state (state_in state.now) m) result (λ r. (x : refusal.Refusal) → r ≡ Err x → out.new ≡ out.old) }
{
    let config = config_in(state);
    result_code(piecrag::bus_sum(config, inputs, counts, out, outs))
}

// The output of a fade in whole numbers.
#[unsafe(no_mangle)]
pub extern "C" fn piecrag_whole_fade_output(
    state: &StateWords,
    input: &[i32],
    ins: usize,
    gains: &[u32],
    position: u64,
    out: &mut [i32],
    outs: usize,
) -> u32
    ensures { (m : Memory) → Tells (λ r. filled_whole r out.new) (call.ask (call.whole_fade input.now ins gains.now position out.old outs)) (lent_state (state_in state.now) m) result (λ r. (x : refusal.Refusal) → r ≡ Err x → out.new ≡ out.old) }
{
    let config = config_in(state);
    let part = FadePart {
        ins,
        outs,
        position,
    };
    result_code(piecrag::whole_fade_output(config, input, gains, part, out))
}

// The sum of a bus in whole numbers.
#[unsafe(no_mangle)]
pub extern "C" fn piecrag_whole_bus_sum(
    state: &StateWords,
    inputs: &[i32],
    counts: &[usize],
    out: &mut [i32],
    outs: usize,
) -> u32
    ensures { (m : Memory) → Tells (λ r. filled_whole r out.new) (call.ask (call.whole_sum inputs.now counts.now out.old outs)) (lent_state (state_in state.now) m) result (λ r. (x : refusal.Refusal) → r ≡ Err x → out.new ≡ out.old) }
{
    let config = config_in(state);
    result_code(piecrag::whole_bus_sum(config, inputs, counts, out, outs))
}
