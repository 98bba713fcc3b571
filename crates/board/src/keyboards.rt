//! The wishes that wait.
ghost use Rattle.std.specs.Prelude.{◌≡◌, ◌≤◌, ◌<◌};
ghost use Rattle.console.specs.Wishes.{keyboards, waiting_at, wish_refusal, after, picked, rest, taken_from, new_wishes};
ghost use Rattle.console.specs.Console.{added_unless};
ghost use Rattle.sealed.specs.Board.{none_waits};
ghost use Rattle.board.specs.Queues.{waiting_in, picked_at, Waits, said};

use arrayvec::ArrayVec;
use console::refusal::KeyboardRefusal;
use std::iter::successors;
use std::marker::Model;
use store::wish::Wish;

/// What waits at `count` keyboards: the wishes of each, the oldest first, 16 at most. A turn begins at the keyboard
/// `next`. There is memory for KEYBOARDS of them.
#[derive(Drop)]
pub(crate) struct Keyboards<const KEYBOARDS: usize> {
    queues: [ArrayVec<Wish, 16>; KEYBOARDS],
    count: usize,
    next: usize,
}

impl<const KEYBOARDS: usize> Model for Keyboards<KEYBOARDS> {
    ghost use Rattle.std.specs.Prelude.{◌≡◌, ◌≤◌, length};
    ghost use Rattle.console.specs.Wishes.{Wishes};
    ghost use Rattle.board.specs.Queues.{wishes_of};

    ghost Value = { Wishes };

    ghost view = { λ k. wishes_of k.queues k.count k.next };

    ghost invariant = { λ k. (k.count ≤ KEYBOARDS) × (length k.queues ≡ KEYBOARDS) };
}

// The wishes at place `q` of these queues.
fn waiting_at(queues: &[ArrayVec<Wish, 16>], q: usize) -> &[Wish]
    ensures { result.now ≡ waiting_at q (waiting_in queues.now 0) }
{
    match queues.get(q) {
        Some(queue) => queue.as_slice(),
        None => &[],
    }
}

// Whether no wish waits in any of these queues.
fn none_waits(queues: &[ArrayVec<Wish, 16>]) -> bool
    ensures { result ≡ none_waits (waiting_in queues.now 0).waits }
{
    queues.iter().all(|queue| queue.is_empty())
}

// The keyboard after `q` of `m`, going round. Two tests: `(q + 1) % m` is another number where `q` is past the last,
// and `q + 1` need not fit.
fn after(m: usize, q: usize) -> usize
    ensures { result ≡ after m q }
{
    if q < m && q + 1 < m { q + 1 } else { 0 }
}

// The first of these queues in which a wish waits, going round from the place `next`.
fn next_in(queues: &[ArrayVec<Wish, 16>], next: usize) -> Option<usize>
    ensures is { picked (waiting_in queues.now next) ≡ picked_at result (waiting_in queues.now next) }
    ensures waits { Waits (waiting_in queues.now next) result }
{
    let m = queues.len();
    successors(Some(next), |q| Some(after(m, *q)))
        .take(m)
        .find(|q| 0 < waiting_at(queues, *q).len())
}

// The oldest wish of a queue waits no more.
fn drop_oldest(queue: &mut ArrayVec<Wish, 16>)
    ensures { queue.new.items ≡ rest queue.old.items }
{
    if !queue.is_empty() {
        queue.remove(0);
    }
}

impl<const KEYBOARDS: usize> Keyboards<KEYBOARDS> {
    /// Nothing waits at so many keyboards.
    pub(crate) fn new(count: usize) -> Keyboards<KEYBOARDS>
        requires { count ≤ KEYBOARDS }
        ensures { result ≡ new_wishes count }
    {
        Keyboards {
            queues: Default::default(),
            count,
            next: 0,
        }
    }

    /// How many keyboards there are.
    pub(crate) fn count(&self) -> usize
        ensures { result ≡ keyboards self.now }
    {
        self.queues[..self.count].len()
    }

    /// The wishes of keyboard `q`, the oldest first: none where there is no such keyboard.
    pub(crate) fn waiting(&self, q: usize) -> &[Wish]
        ensures { result.now ≡ waiting_at q self.now }
    {
        waiting_at(&self.queues[..self.count], q)
    }

    /// Whether no wish waits at any keyboard.
    pub(crate) fn none_waits(&self) -> bool
        ensures { result ≡ none_waits self.now.waits }
    {
        none_waits(&self.queues[..self.count])
    }

    /// The keyboard whose oldest wish the next turn serves.
    pub(crate) fn next(&self) -> Option<usize>
        ensures is { picked self.now ≡ picked_at result self.now }
        ensures waits { Waits self.now result }
    {
        next_in(&self.queues[..self.count], self.next)
    }

    /// The wish waits behind those of keyboard `q`. Refused with 24 where there is no such keyboard, and then with 25
    /// where 16 wait there.
    pub(crate) fn add(&mut self, q: usize, wish: &Wish) -> Result<(), KeyboardRefusal>
        ensures answer { result ≡ said (wish_refusal self.old q) }
        ensures wishes { self.new ≡ added_unless (wish_refusal self.old q) q wish.now self.old }
    {
        if self.count <= q {
            return Err(KeyboardRefusal::OutOfRange);
        }
        let queue = &mut self.queues[q];
        if queue.is_full() {
            return Err(KeyboardRefusal::Full);
        }
        queue.push(*wish);
        Ok(())
    }

    /// The oldest wish of keyboard `q` waits no more, and the next turn begins behind that keyboard.
    pub(crate) fn take(&mut self, q: usize)
        requires { q < keyboards self.old }
        ensures { self.new ≡ taken_from q self.old }
    {
        self.next = after(self.count, q);
        drop_oldest(&mut self.queues[q]);
    }
}
