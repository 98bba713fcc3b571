#![tactic(auto)]

ghost use Rattle.std.specs.Prelude.{◌≡◌, min, ◌≤◌, length, take, replicate};
ghost use Rattle.rank.specs.Order.{arcs, upto, order, whole};
ghost use Rattle.rank.specs.Parts.{Degrees, Linked, Ready, Queued, ranking_of};

use lists::rows::Table;

// The order of nodes that are the indices 0 to n - 1, and whether it has them all. Which rows it has is promised also where they are not all,
// so it is no option.
#[derive(Clone, Copy)]
pub struct Ranking {
    pub rows: Table<usize, 512>,
    pub whole: bool,
}

// Indices, in the order in which they are looked at.
type Queue = Table<usize, 512>;

// The indices 0 to n - 1 and the arcs between them, from `from[i]` to `to[i]`. An arc with an end at or past n does not count. A slice for each end, and
// not one of pairs: of the two tables that hold the edges' ends, `Ends` of crate prepare says what stands in each.
#[derive(Clone, Copy)]
struct Graph<'f, 't> {
    n: usize,
    from: &'f [usize],
    to: &'t [usize],
    ghost few: { n ≤ 512 },
    ghost paired: { length from.now ≡ length to.now },
    ghost short: { length to.now ≤ 1024 },
}

impl Graph<'_, '_> {
    // How many arcs go to each index from a live one.
    fn degrees(&self) -> [usize; 512]
        ensures { Degrees result self.now.n (arcs self.now.from.now self.now.to.now) }
    {
        let mut counts = [0usize; 512];
        for (v, t) in self.from.iter().zip(self.to) {
            if *v < self.n && *t < self.n {
                counts[*t] += 1;
            }
        }
        counts
    }

    // The arcs of one source, as a chain in their order, are stored: `first` of an index, `next` of an arc; their number, past the arcs,
    // where there is none, as it stands there before. Two tables of numbers and no lists, since there is no heap. It is no `Option`, which would take
    // twice the memory. From the last arc back, so that an arc is put before the later ones of its source.
    fn linked(&self, first: &mut [usize; 512], next: &mut [usize; 1024])
        requires { (first.old ≡ replicate 512 (length self.now.to.now)) × (next.old ≡ replicate 1024 (length self.now.to.now)) }
        ensures { Linked first.new next.new self.now.n (arcs self.now.from.now self.now.to.now) }
    {
        for (i, v) in self.from.iter().enumerate().rev() {
            if *v < self.n {
                next[i] = first[*v];
                first[*v] = i;
            }
        }
    }

    // The indices whose count is 0.
    fn ready(&self, counts: &[usize; 512]) -> Queue
        ensures { Ready result (take self.now.n counts.now) }
    {
        let mut queue = Queue::empty(0);
        for (v, k) in counts[..self.n].iter().enumerate() {
            if *k == 0 {
                queue.push(v);
            }
        }
        queue
    }

    // The queue, walked to its end: it grows as it is walked, and the next arc of an index stands in a table, so that neither walk is one over a
    // range.
    fn queued(&self) -> Queue
        ensures { Queued result self.now.n (arcs self.now.from.now self.now.to.now) }
    {
        let m = self.to.len();
        let mut first = [m; 512];
        let mut next = [m; 1024];
        self.linked(&mut first, &mut next);
        let mut counts = self.degrees();
        let mut queue = self.ready(&counts);
        let mut head: usize = 0;
        while head < queue.count {
            let v = queue.rows[head];
            let mut e = first[v];
            while e < m {
                let t = self.to[e];
                if t < self.n {
                    let k = counts[t];
                    if 0 < k {
                        counts[t] = k - 1;
                        if k == 1 {
                            queue.push(t);
                        }
                    }
                }
                e = next[e];
            }
            head += 1;
        }
        queue
    }
}

// The order of the indices 0 to n - 1 under the arcs from from[i] to to[i], as far as both slices go; an arc with an end
// at or past n does not count. At most 512 indices and 1,024 arcs are looked at.
pub fn ranked(n: usize, from: &[usize], to: &[usize]) -> Ranking
    ensures is { ranking_of result ≡ order (upto (min n 512)) (take 1024 (arcs from.now to.now)) }
    ensures all { result.whole ≡ whole (upto (min n 512)) (take 1024 (arcs from.now to.now)) }
    ensures sized { (length result.rows.rows ≡ 512) × (result.rows.count ≡ length (ranking_of result)) }
{
    let k = n.min(512);
    let m = from.len().min(to.len()).min(1024);
    let g = Graph {
        n: k,
        from: &from[..m],
        to: &to[..m],
    };
    let rows = g.queued();
    Ranking {
        rows,
        whole: rows.count == k,
    }
}
