ghost use Rattle.std.specs.Prelude.{◌≡◌};
ghost use Rattle.edges.specs.Wiring.{listed};

// Whether `x` is one of `keys`. A function of its own, since the clauses of its five callers say `listed` and `contains` promises
// the library's word for it: with `contains` there each of them would cite the law that the two are the same. The ids of voices are listed as numbers,
// since `listed` is of numbers.
pub fn is_listed(keys: &[u64], x: u64) -> bool
    ensures { result ≡ listed keys.now x }
{
    keys.contains(&x)
}
