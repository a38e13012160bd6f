// What a profile is given and should leave, from a list of the reference build's fields. `test_replay_profiles` says what the lines hold. Tested by changed
// lists, and proved to be safe and to end.
#![tactic(auto)]

ghost use Rattle.std.specs.Prelude.{◌≤◌, length};

use refusals::Refusal;
use test_replay::{double_at, from_place, runs, word_at};

// A profile in a list: the line of its body, with the two lists, the order list and a table of stations, each with its thirteen numbers, and the line of
// the profile, which names its stations by their places in the table.
#[derive(Clone, Copy)]
pub struct Profile<'a> {
    pub body: &'a [u8],
    pub line: &'a [u8],
    // how many entries the vertex list and the face list have, and where in the body's line the order list begins
    pub vertices: usize,
    pub faces: usize,
    pub order: usize,
    pub ghost within: { (order ≤ 2000) × (faces ≤ 1000) },
}

// What fields holds at i before a call: 2^52 + i.
fn field_mark(i: usize) -> u64
    requires { i ≤ 1000 }
{
    0x4330_0000_0000_0000 + i as u64
}

pub fn mark_fields(fields: &mut [f64])
    requires { length fields.old ≤ 1000 }
{
    for (i, x) in fields.iter_mut().enumerate() {
        *x = doubles::of_bits(field_mark(i));
    }
}

impl Profile<'_> {
    // Where the numbers of the station that the profile has at i begin in the body's line: three, and the field's thirteen.
    fn station_place(&self, i: usize) -> usize
        requires { i ≤ 1000 }
        ensures { result ≤ 19000 }
    {
        self.order + self.faces + 16 * runs::length_at(self.line, 8 + i)
    }

    pub fn read_stations(&self, stations: &mut [f64])
        requires { length stations.old ≤ 1000 }
    {
        for (i, x) in stations.iter_mut().enumerate() {
            *x = double_at(self.body, self.station_place(i / 3) + i % 3);
        }
    }

    // What fields should hold at i afterwards, where so many records are filled.
    fn field_after(&self, filled: usize, i: usize) -> u64
        requires { i ≤ 1000 }
    {
        if i / 13 < filled {
            return word_at(self.body, self.station_place(i / 13) + 3 + i % 13);
        }
        field_mark(i)
    }

    // What work should hold at i afterwards, whose first n entries are the order list.
    fn work_after(&self, n: usize, i: usize) -> u64
        requires { i ≤ 1000 }
    {
        if i < n {
            return word_at(self.body, self.order + i);
        }
        u64::from(runs::work_mark(i))
    }

    // Whether work and fields are right.
    pub fn same_lists(&self, work: &[u32], fields: &[f64]) -> bool
        requires { (length work.now ≤ 1000) × (length fields.now ≤ 1000) }
    {
        let filled = runs::length_at(self.line, 6);
        let sorted = if word_at(self.line, 7) == 0 {
            0
        } else {
            self.faces
        };
        let same_work = work.iter().enumerate().all(|(i, entry)| self.work_after(sorted, i)
            == u64::from(*entry));
        let same_fields = fields.iter().enumerate().all(|(i, x)| self.field_after(filled, i)
            == doubles::to_bits(*x));
        same_work && same_fields
    }

    pub fn same_cause(&self, cause: Result<(), Refusal>) -> bool {
        let numbers = match cause {
            Ok(()) => [0, 0, 0],
            Err(r) => {
                let [first, second] = runs::values(r);
                [u64::from(r.number()), first, second]
            }
        };
        runs::same_words(from_place(self.line, 3), &numbers)
    }
}
