#![tactic(auto)]

// A list in a fixed room.
ghost use Rattle.std.specs.Prelude.{◌≡◌, ◌<◌, ◌≤◌, [], ◌∷◌, ◌++◌, List, leb, length, take};

use rows::NodeBytes;
use std::marker::Model;

// The elements in the first count places; no one reads those behind them.
// An array with its count, since there is no heap; the library's `ArrayVec` asks for a `Default`, which a reference has not.
#[derive(Drop)]
pub struct FixedList<T, const N: usize> {
    count: usize,
    places: [T; N],
}

// Nodes in a list, each where its row stands.
pub type NodeList<'a, const N: usize> = FixedList<&'a NodeBytes, N>;

impl<T, const N: usize> Model for FixedList<T, N> {
    ghost Value = { List T };

    ghost view = { λ l. take l.count l.places };

    ghost invariant = { λ l. l.count ≤ N };
}

impl<T: Copy, const N: usize> FixedList<T, N> {
    // No element; the filler stands in places that are not filled.
    pub fn new(filler: T) -> Self
        ensures { result ≡ [] }
    {
        FixedList {
            count: 0,
            places: [filler; N],
        }
    }

    // The elements, in the order in which they came.
    pub fn used(&self) -> &[T]
        ensures elements { result.now ≡ self.now }
        ensures within { length result.now ≤ N }
    {
        &self.places[..self.count]
    }

    // The count is never above the room, by the invariant.
    pub fn is_full(&self) -> bool
        ensures { result ≡ leb N (length self.now) }
    {
        N <= self.count
    }

    // One more, behind the others.
    pub fn push(&mut self, x: T)
        requires { length self.old < N }
        ensures { self.new ≡ self.old ++ x ∷ [] }
    {
        self.places[self.count] = x;
        self.count += 1;
    }
}
