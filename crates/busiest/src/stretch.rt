ghost use Rattle.std.specs.Prelude.{◌≡◌, ◌<◌, ◌+◌};
ghost use Rattle.busiest.specs.Stretch.{within, samples, said, busiest};
ghost use Rattle.busiest.specs.Scan.{begun, advanced, concluded};

use voice::steals::StealRecord;

// Why a run has no answer: the refusal of a host in C.
#[derive(Clone, Copy, PartialEq)]
pub enum Unanswered {
    NoWidth = 22,
    SamplesFall = 23,
}

// How many records a stretch holds, and the sample of the first of them.
#[derive(Clone, Copy, PartialEq)]
pub struct Stretch {
    pub count: usize,
    pub sample: u64,
}

// The busiest stretch; none of an empty run.
pub type Busiest = Result<Option<Stretch>, Unanswered>;

// What is known of the records passed so far: the largest number of them inside a stretch, the sample of the first record of the
// earliest such stretch, the sample passed last, whether samples fell. `head` is the place of the record from which a stretch
// would have to reach to the next record to hold one more: `most` places before that one. Of no records `most` is 0, and no Option: each step counts
// on from it, and would take it apart first. `falls` is a flag, and a step has no Result: `conclude` alone says what is refused, the width first.
#[derive(Clone, Copy)]
struct Scan {
    width: u64,
    most: usize,
    first: u64,
    last: u64,
    head: usize,
    falls: bool,
}

// Nothing is passed yet.
fn begin(width: u64) -> Scan
    ensures { result ≡ begun width }
{
    Scan {
        width,
        most: 0,
        first: 0,
        last: 0,
        head: 0,
        falls: false,
    }
}

// Whether the sample `y` lies inside the stretch of `width` samples that starts at `x`. No sum can wrap.
fn is_within(width: u64, x: u64, y: u64) -> bool
    ensures { result ≡ within width x y }
{
    x <= y && y - x < width
}

// One record more: `y` is its sample, and `x` that of the record at `head`.
fn advance(s: Scan, x: u64, y: u64) -> Scan
    requires { (s.most + 1 < 18446744073709551616) × (s.head + 1 < 18446744073709551616) }
    ensures { result ≡ advanced s x y }
{
    let passed = Scan {
        last: y,
        falls: s.falls || y < s.last,
        ..s
    };
    if is_within(s.width, x, y) {
        return Scan {
            most: s.most + 1,
            first: x,
            ..passed
        };
    }
    Scan {
        head: s.head + 1,
        ..passed
    }
}

// The answer once all records are passed.
fn conclude(s: Scan) -> Busiest
    ensures { said result ≡ concluded s }
{
    if s.width == 0 {
        return Err(Unanswered::NoWidth);
    }
    if s.falls {
        return Err(Unanswered::SamplesFall);
    }
    if s.most == 0 {
        return Ok(None);
    }
    Ok(Some(Stretch {
        count: s.most,
        sample: s.first,
    }))
}

// The busiest stretch of `width` consecutive samples of a lent run. The walk hands two samples for each record to `advance`, and
// decides nothing.
pub fn busiest_stretch(run: &[StealRecord], width: u64) -> Busiest
    ensures { said result ≡ busiest width (samples run.now) }
{
    let mut at = begin(width);
    for r in run {
        at = advance(at, run[at.head].sample, r.sample);
    }
    conclude(at)
}
