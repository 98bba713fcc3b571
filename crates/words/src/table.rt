ghost use Rattle.std.specs.Prelude.{◌≡◌, ℕ, List, Bool, true, ◌+◌, ◌≤◌, min, length, get_or, take, drop, filter, position};
ghost use Rattle.std.specs.List.{list_all};
ghost use Rattle.std.proofs.lemmas.List.Edits.{sets};
ghost use Rattle.words.specs.Rows.{Apart, cuts, row_at, row_put, rows_counted, rows_appended, word_put, fields_put, row_moved, opened};
ghost use Rattle.words.specs.Place.{Changed, Holds, Tells};

use std::convert::AsSlice;

// Each function is given a slice and a width, so that one serves tables of every width. They are no struct with methods: the tables are lent, and
// a signature shows what a call may touch. A row's place is tested in each: its parts are what the index below it needs.

// The word at `i`, or 0 past the end, and no option: what no row holds reads as 0, here and in a row.
pub fn word(t: &[u32], i: usize) -> u32
    ensures { result ≡ get_or t.now i 0 }
{
    t.get(i).copied().unwrap_or(0)
}

// Word `k` of row `i`, of rows of `w` words; 0 where there is none.
pub fn word_at(t: &[u32], w: usize, i: usize, k: usize) -> u32
    ensures { result ≡ get_or (row_at w i t.now) k 0 }
{
    if 0 < w && i < t.len() / w && k < w {
        t[i * w + k]
    } else {
        0
    }
}

// Word `k` of row `i` is `x`, if there is such a word. No call of the store needs it alone; what it promises is kept.
pub fn put_word(t: &mut [u32], w: usize, i: usize, k: usize, x: u32)
    ensures { t.new ≡ word_put w i k x t.old }
{
    if 0 < w && i < t.len() / w && k < w {
        t[i * w + k] = x;
    }
}

// The words `ws`, stored from `at` on; what would stand past the end is left out.
pub fn put_words(t: &mut [u32], at: usize, ws: &[u32])
    ensures { t.new ≡ sets t.old at ws.now }
{
    if at < t.len() {
        let n = ws.len().min(t.len() - at);
        t[at..at + n].copy_from_slice(&ws[..n]);
    }
}

// Row `i` has the words `ws`, if there is room for it and they are as many as a row has; `put_fields` from word 0 on would take fewer too.
pub fn put_row(t: &mut [u32], w: usize, i: usize, ws: &[u32])
    ensures { t.new ≡ row_put w i ws.now t.old }
{
    if 0 < w && i < t.len() / w && ws.len() == w {
        put_words(t, i * w, ws);
    }
}

// The words `ws` are stored from word `k` of row `i` on, if they end within the row; a row has `w` words.
pub fn put_fields(t: &mut [u32], w: usize, i: usize, k: usize, ws: &[u32])
    ensures { t.new ≡ fields_put w i k ws.now t.old }
{
    if k < w && ws.len() <= w - k && i < t.len() / w {
        put_words(t, i * w + k, ws);
    }
}

// The `n` words from `from` on, stored from `to` on too, the first one first. Word by word: rows are short, and their width is known where they are
// moved. `copy_within`, which may move words over one another, takes 1.4 times the instructions in a disconnect (measured).
fn move_words(t: &mut [u32], from: usize, to: usize, n: usize)
    requires { (from + n ≤ length t.old) × (to + n ≤ length t.old) × Apart from to n }
    ensures { t.new ≡ sets t.old to (take n (drop from t.old)) }
{
    for k in 0..n {
        t[to + k] = t[from + k];
    }
}

// Row `to` of rows of `w` words is what row `from` is, if the words have room for both.
pub fn move_row(t: &mut [u32], w: usize, from: usize, to: usize)
    ensures { t.new ≡ row_moved w from to t.old }
{
    if 0 < w && from < t.len() / w && to < t.len() / w && from != to {
        move_words(t, from * w, to * w, w);
    }
}

// How many rows of `w` words a count stands for. A loop over the rows of one table has this expression as its bound, with the width or the room as a
// number: a call would say no more, and each proof would cite its clause in the place of that of `min`.
pub fn row_count(t: &[u32], w: usize, count: usize) -> usize
    ensures { result ≡ rows_counted w count t.now }
{
    count.min(t.len().checked_div(w).unwrap_or(0))
}

// The words `ws` as one row more behind the first `count`, if they are as many as a row has and there is room: how many rows there are.
pub fn append_row(t: &mut [u32], w: usize, count: usize, ws: &[u32]) -> usize
    ensures words { t.new ≡ row_put w (rows_counted w count t.old) ws.now t.old }
    ensures many { result ≡ rows_appended w count ws.now t.old }
{
    let n = row_count(t, w, count);
    put_row(t, w, n, ws);
    if ws.len() == w {
        row_count(t, w, count.saturating_add(1))
    } else {
        n
    }
}

// The first of the first `count` rows of `w` words for which `test` answers true, or none. `test` is given the words and a number.
pub fn first_row<F: Fn(&[u32], usize) -> bool>(
    t: &[u32],
    w: usize,
    count: usize,
    test: F,
) -> Option<usize>
    requires { F.IsAlwaysCallable test }
    ensures { (q : List ℕ → Bool) → Tells w (F.post test) q → result ≡ position q (take count (cuts w t.now)) }
{
    (0..row_count(t, w, count)).find(|i| test(t, *i))
}

// Of the first `count` rows of `w` words those stay for which `stays` answers true, in one pass that closes the gaps: how many are left. The first
// `from` rows stay unasked, so its clause speaks of tests which they pass. By the rows' numbers: a row is so many words of a lent table, and there is
// no slice of rows. `stays` is given the words and a number.
pub fn close_gaps<F: Fn(&[u32], usize) -> bool>(
    t: &mut [u32],
    w: usize,
    from: usize,
    count: usize,
    stays: F,
) -> usize
    requires { F.IsAlwaysCallable stays }
    ensures { (q : List ℕ → Bool) → Tells w (F.post stays) q → list_all q (take from (take count (cuts w t.old))) ≡ true → Holds (cuts w t.new) result (filter q (take count (cuts w t.old))) }
{
    let n = row_count(t, w, count);
    let mut to = from.min(n);
    for i in to..n {
        if stays(t, i) {
            move_row(t, w, i, to);
            to += 1;
        }
    }
    to
}

// Into each of the first `count` rows of `w` words for which `change` gives words these are stored, from word `k` on; the other rows stay.
// By the rows' numbers: a row is so many words of a lent table, and there is no slice of rows. `change` is given the words and a number; what it
// gives is any type that lends words, since the bound of a closure cannot name the length of an array.
pub fn change_rows<W: AsSlice<u32> + Drop, F: Fn(&[u32], usize) -> Option<W>>(
    t: &mut [u32],
    w: usize,
    count: usize,
    k: usize,
    change: F,
)
    requires { F.IsAlwaysCallable change }
    ensures { Changed w k (rows_counted w count t.old) W.items (F.post change) t.old t.new }
{
    for i in 0..row_count(t, w, count) {
        if let Some(ws) = change(t, i) {
            put_fields(t, w, i, k, ws.as_slice());
        }
    }
}

// Row `p` of the first `n` rows of `w` words and those after it move up by one, if there is room for one more.
pub fn open_row(t: &mut [u32], w: usize, n: usize, p: usize)
    ensures { t.new ≡ opened w n p t.old }
{
    if 0 < w && n < t.len() / w && p < n {
        t.copy_within(p * w..n * w, (p + 1) * w);
    }
}
