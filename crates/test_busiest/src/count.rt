// The busiest stretch as one would count it by hand: every stretch, one after the other.
use busiest::stretch::{Busiest, Stretch, Unanswered};

// How many samples lie in the stretch of `width` from `a` on.
fn inside(xs: &[u64], a: u64, width: u64) -> usize {
    xs.iter().filter(|x| a <= **x && **x - a < width).count()
}

// The earliest of the busiest stretches; of no samples none.
fn busiest_of(xs: &[u64], width: u64) -> Option<Stretch> {
    let last = *xs.last()?;
    // By falling starts: of equal keys the last one met is taken.
    let start = (0..=last).rev().max_by_key(|a| inside(xs, *a, width))?;
    let sample = xs.iter().copied().find(|x| start <= *x)?;
    Some(Stretch {
        count: inside(xs, start, width),
        sample,
    })
}

pub fn count_all(xs: &[u64], width: u64) -> Busiest {
    if width == 0 {
        return Err(Unanswered::NoWidth);
    }
    if !xs.is_sorted() {
        return Err(Unanswered::SamplesFall);
    }
    Ok(busiest_of(xs, width))
}
