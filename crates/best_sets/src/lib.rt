// The best of the sets of a few qubits. A qubit is a row of three words, whose ones are the checks that change with the qubit.
// The words that a set leaves are those at the start with its rows added, and its weight is how many ones are left.
#![tactic(auto)]

ghost use Rattle.std.specs.Prelude.{◌≡◌, ◌+◌, ◌*◌, ◌^◌, ◌<◌, ◌≤◌, [], ◌∷◌, length, if◌then◌else◌};
ghost use Rattle.best_sets.specs.Best.{BestIsUnbeaten};
ghost use Rattle.best_sets.specs.Walk.{changed_by, weighed, wins, walked, walk_of};

use std::cmp::Reverse;
use std::{array, cmp};

// A set of at most so many rows has a number of twelve bits.
const MOST_ROWS: usize = 12;

// A bit for each check near the qubits.
pub type Words = [u64; 3];

// A set of up to twelve rows: the weight that it leaves, how many rows it has, and its number.
// In the number each row has a bit, one if the set has the row, and the first row has the highest.
#[derive(Clone, Copy)]
pub struct Choice {
    pub weight: u32,
    pub size: u32,
    pub picks: u32,
}

impl Choice {
    // The best has the least key: less is left, or as much with fewer rows, or as much with as many and has the first row where they differ.
    fn key(&self) -> (u32, u32, Reverse<u32>)
        ensures { result ≡ (self.now.weight, self.now.size, record { 0 = self.now.picks }) }
    {
        (self.weight, self.size, Reverse(self.picks))
    }

    // The better of the two; the first stays where they are equal.
    fn or_better(self, here: Choice) -> Choice
        ensures { result ≡ (if wins here self then here else self) }
    {
        cmp::min_by_key(self, here, |choice| choice.key())
    }
}

// How many ones the three words have.
pub fn weigh(words: Words) -> u32
    ensures { result ≡ weighed words }
{
    words.iter().map(|word| word.count_ones()).sum()
}

// A set of the first rows: the words that it leaves, how many rows it has, and its number.
#[derive(Clone, Copy)]
struct Begun {
    left: Words,
    size: u32,
    picks: u32,
}

// The bounds stay required: the last sets of a walk go past them, as choices that are not begun again.
impl Begun {
    // With the next row.
    fn with(self, row: Words) -> Begun
        requires { (self.size ≤ 12) × (self.picks < 4096) }
        ensures { result ≡ record { left = changed_by self.left row; size = self.size + 1; picks = 2 * self.picks + 1 } }
    {
        Begun {
            left: array::from_fn(|i| self.left[i] ^ row[i]),
            size: self.size + 1,
            picks: 2 * self.picks + 1,
        }
    }

    // Without the next row.
    fn without(self) -> Begun
        requires { self.picks < 4096 }
        ensures { result ≡ record { left = self.left; size = self.size; picks = 2 * self.picks } }
    {
        Begun {
            picks: 2 * self.picks,
            ..self
        }
    }

    // The set as a choice among all sets.
    fn choice(self) -> Choice
        ensures { result ≡ record { weight = weighed self.left; size = self.size; picks = self.picks } }
    {
        Choice {
            weight: weigh(self.left),
            size: self.size,
            picks: self.picks,
        }
    }

    // The best of `best` and of the two sets with and without the last row.
    fn best_of_two(self, row: Words, best: Choice) -> Choice
        requires { (self.size ≤ 12) × (self.picks < 4096) }
        ensures { result ≡ walked (row ∷ []) self.left self.size self.picks best }
    {
        best.or_better(self.with(row).choice())
            .or_better(self.without().choice())
    }
}

// The best of `best` and of every set that adds some of the rows to this one.
// The last two rows are written out: a call for each of these sets takes three times as long.
fn best_from(rows: &[Words], begun: Begun, best: Choice) -> Choice
    requires few_rows { begun.size + length rows.now ≤ 12 }
    requires few_sets { (begun.picks + 1) * 2 ^ length rows.now ≤ 4096 }
    ensures { result ≡ walked rows.now begun.left begun.size begun.picks best }
{
    match rows {
        [] => best.or_better(begun.choice()),
        [a, b] => begun
            .without()
            .best_of_two(*b, begun.with(*a).best_of_two(*b, best)),
        [row, rest @ ..] => {
            let best = best_from(rest, begun.with(*row), best);
            best_from(rest, begun.without(), best)
        }
    }
}

// The best of all sets of the rows, where the empty set leaves `start`; none if there are more than twelve rows.
// If the rows stand for qubits in rising order, this is the set of those qubits that no other set of them beats.
pub fn best_choice(rows: &[Words], start: Words) -> Option<Choice>
    ensures value { result ≡ walk_of rows.now start }
    ensures best { BestIsUnbeaten }
{
    if rows.len() > MOST_ROWS {
        return None;
    }
    let empty = Begun {
        left: start,
        size: 0,
        picks: 0,
    };
    Some(best_from(rows, empty, empty.choice()))
}
