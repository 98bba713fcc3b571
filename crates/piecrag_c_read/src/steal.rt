// The steal records, and their busiest stretch. A flag stands beside the cells of which it tells, since C has no option.
ghost use Rattle.std.specs.Prelude.{◌≡◌, length};
ghost use Rattle.voice.specs.Steals.{found_at};
ghost use Rattle.steal_log.specs.Rows.{log_in};
ghost use Rattle.busiest.specs.Stretch.{samples, busiest};
ghost use Rattle.model.specs.Call as call;
ghost use Rattle.memory.specs.View.{Memory};
ghost use Rattle.memory.specs.Lent.{lent_steals};
ghost use Rattle.state_words.specs.State.{state_in, some_flag};
ghost use Rattle.c_answer.specs.Exported.{Tells};
ghost use Rattle.piecrag_c_read.specs.Cells.{steal_sample, steal_known, steal_level, steal_cut, StretchCells};

use crate::cell::{stretch_code, stretch_count, stretch_sample};
use busiest::newest::busiest_steals;
use piecrag::StealTable;
use state_words::{StateWords, state_in};
use voice_policy::steals::{held_steals, steal_at};

// How many steals there were, and of how many the record is held.
#[unsafe(no_mangle)]
pub extern "C" fn piecrag_steals(
    state: &StateWords,
    steals: &StealTable,
    total: &mut u64,
    held: &mut usize,
) -> u32
    ensures { (m : Memory) → Tells call.stolen (call.ask call.steals) (lent_steals (state_in state.now) steals.now m) result (λ b. (total.new ≡ b.count) × (held.new ≡ length b.newest)) }
{
    let s = state_in(state);
    let r = piecrag::steals(s, steals);
    *total = r.total;
    *held = held_steals(r);
    0
}

// The record at a place of those that are held, oldest first: `found` becomes 1, or 0 where there is none.
#[unsafe(no_mangle)]
pub extern "C" fn piecrag_steal_at(
    state: &StateWords,
    steals: &StealTable,
    place: usize,
    found: &mut u32,
    sample: &mut u64,
    known: &mut u32,
    level: &mut f32,
    cut: &mut u32,
) -> u32
    ensures { (m : Memory) → Tells call.stolen (call.ask call.steals) (lent_steals (state_in state.now) steals.now m) result (λ b. (found.new ≡ some_flag (found_at place b.newest)) × (sample.new ≡ steal_sample (found_at place b.newest) sample.old) × (known.new ≡ steal_known (found_at place b.newest) known.old) × (level.new ≡ steal_level (found_at place b.newest) level.old) × (cut.new ≡ steal_cut (found_at place b.newest) cut.old)) }
{
    let s = state_in(state);
    let r = piecrag::steals(s, steals);
    let f = steal_at(r, place);
    // Four cells share the one flag: by `put_cell` one of them would set it for the others.
    *found = u32::from(f.is_some());
    *sample = f.map_or(*sample, |r| r.sample);
    *known = f.map_or(*known, |r| u32::from(r.known));
    *level = f.map_or(*level, |r| r.level);
    *cut = f.map_or(*cut, |r| u32::from(r.cut));
    0
}

// The busiest stretch of `width` samples among the records that are held.
#[unsafe(no_mangle)]
pub extern "C" fn piecrag_busiest_steals(
    state: &StateWords,
    steals: &StealTable,
    width: u64,
    count: &mut usize,
    sample: &mut u64,
) -> u32
    ensures { StretchCells (busiest width (samples (log_in steals.now (state_in state.now).stolen (state_in state.now).place).newest)) result count.old count.new sample.old sample.new }
{
    let s = state_in(state);
    let r = piecrag::steals(s, steals);
    let b = busiest_steals(r, width);
    *count = stretch_count(b, *count);
    *sample = stretch_sample(b, *sample);
    stretch_code(b)
}
