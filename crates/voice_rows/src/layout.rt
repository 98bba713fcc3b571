// Records that stand one after the other, each in so many words, in a row of a table.
ghost use Rattle.std.specs.Prelude.{◌≡◌, ◌+◌, ◌*◌, ◌<◌, ◌≤◌, List, ℕ};
ghost use Rattle.words.specs.Rows.{row_at};
ghost use Rattle.voice_rows.specs.Rows.{Spells, each};
ghost use Rattle.voice_rows.specs.Filled.{Filled, Local};

use std::array;
use words::table::put_words;

// How a record stands in `W` words: `at` is the record that words stand for from a place on.
pub trait Layout<const W: usize> {
    type Record: Copy;

    ghost at: { List ℕ → ℕ → Self.Record };

    fn words(x: Self::Record) -> [u32; W]
        ensures { Spells at W x result };

    // The record from word `k` of row `i` on, of rows of `width` words.
    fn read(t: &[u32], width: usize, i: usize, k: u16) -> Self::Record
        ensures { result ≡ at (row_at width i t.now) k };

    // It is read from its own words alone.
    ghost local: { Local W at };
}

// Where `N` records of `W` words each stand in a row of `M` words: one after the other, from word `base` on.
#[derive(Clone, Copy)]
pub struct Run<const W: usize, const N: usize, const M: usize> {
    pub base: u16,
    ghost fits: { base + N * W ≤ M },
    ghost narrow: { M ≤ 65536 },
}

// The records `xs` are stored in the words of a row. By the records' numbers, since words are no slice of records.
pub fn put_records<L: Layout<W>, const W: usize, const N: usize, const M: usize>(
    ws: &mut [u32; M],
    run: Run<W, N, M>,
    xs: &[L::Record; N],
)
    ensures { Filled run.entry.base W N L.at ws.old ws.new xs.now }
{
    let base = usize::from(run.base);
    for (k, x) in xs.iter().enumerate() {
        put_words(ws, base + k * W, &L::words(*x));
    }
}

// The records in row `i`.
pub fn records_at<L: Layout<W>, const W: usize, const N: usize, const M: usize>(
    t: &[u32],
    i: usize,
    run: Run<W, N, M>,
) -> [L::Record; N]
    ensures { result ≡ each (λ k. L.at (row_at M i t.now) (run.entry.base + k * W)) 0 N }
{
    let base = run.base;
    array::from_fn(
        |k: usize| -> L::Record
            requires { base + k * W < 65536 }
            ensures { result ≡ L.at (row_at M i t.entry.now) (base + k * W) }
        { L::read(t, M, i, base + (k * W) as u16) },
    )
}
