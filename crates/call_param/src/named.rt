// The parameters of a voice, read from its row one by one until the name is found.
ghost use Rattle.std.specs.Prelude.{◌≡◌, [], ◌+◌, ◌*◌, get_or, option_map};
ghost use Rattle.words.specs.Rows.{row_at};
ghost use Rattle.synthdef.specs.Tables.{param_rows};
ghost use Rattle.synthdef.specs.Params.{called, param_node};
ghost use Rattle.voice_rows.specs.Rows.{param_at, voice_of, voices_in};

use node::name::{Name, same_name};
use voice_rows::row::{param_at, param_count_at};

// Whether the parameter `k` of the voice in row `i` has that name.
fn is_called(t: &[u32], i: usize, k: u8, name: Name) -> bool
    ensures { result ≡ called name (param_at (row_at 143 i t.now) (23 + k * 6)) }
{
    same_name(param_at(t, i, k).name, name)
}

// The first parameter of that name of the voice in row `i`, or none.
fn param_called(t: &[u32], i: usize, name: Name) -> Option<u8>
    ensures { option_map (λ k. (param_at (row_at 143 i t.now) (23 + k * 6)).node) result ≡ param_node (param_rows (get_or (voices_in t.now) i (voice_of [])).params) name }
{
    let n = param_count_at(t, i).min(8) as u8;
    (0..n).find(|k| is_called(t, i, *k, name))
}

// Its node, or none.
pub(crate) fn param_named(t: &[u32], i: usize, name: Name) -> Option<u8>
    ensures { result ≡ param_node (param_rows (get_or (voices_in t.now) i (voice_of [])).params) name }
{
    param_called(t, i, name).map(|k| param_at(t, i, k).node)
}
