// Rows in fixed memory.
ghost use Rattle.std.specs.Prelude.{◌≡◌, ◌<◌, ◌+◌, replicate, set};
ghost use Rattle.lists.specs.Table.{rows_of};

// An array and how many of its rows count, from the front on; a count above the capacity is the capacity. The project has no heap, so that
// its capacity is part of the type.
#[derive(Clone, Copy, Default)]
pub struct Table<T: Copy, const N: usize> {
    pub rows: [T; N],
    pub count: usize,
}

impl<T: Copy, const N: usize> Table<T, N> {
    // No row counts, and each is `blank`.
    pub fn empty(blank: T) -> Table<T, N>
        ensures rows { result.rows ≡ replicate N blank }
        ensures count { result.count ≡ 0 }
    {
        Table {
            rows: [blank; N],
            count: 0,
        }
    }

    // The rows that count.
    pub fn as_slice(&self) -> &[T]
        ensures { result.now ≡ rows_of N self.now.count self.now.rows }
    {
        &self.rows[..self.count.min(N)]
    }

    // Stores a row at the count, and counts it; past the capacity nothing is stored. No `Result`: the count goes on, and a definition with too
    // many rows is refused by it.
    pub fn push(&mut self, x: T)
        ensures stored { self.new.rows ≡ set self.old.rows self.old.count x }
        ensures counted { self.old.count < 0xffff_ffff_ffff_ffff → self.new.count ≡ self.old.count + 1 }
        ensures full { self.old.count ≡ 0xffff_ffff_ffff_ffff → self.new.count ≡ 0xffff_ffff_ffff_ffff }
    {
        if self.count < N {
            self.rows[self.count] = x;
        }
        self.count = self.count.saturating_add(1);
    }
}
