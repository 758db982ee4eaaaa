// A group's keys where they are only read: lookup, and each key by its place.
ghost use Rattle.std.specs.Prelude.{◌≡◌, ◌^◌, ◌≤◌, ◌<◌, length, option_copied};
ghost use Rattle.maps.specs.Maps.{bytes};
ghost use Rattle.maps.specs.MapLaws.{Ascending};
ghost use Rattle.kvs.specs.Rows.{keys_in, Wf};
ghost use Rattle.kvs.specs.Places.{place_of, pair_at};
ghost use Rattle.kvs.specs.Calls.{GetKey};

use crate::rows::{file_at, key_at, value_at};
use pipe_log::FileId;
use std::cmp::Ordering;
use std::marker::Model;

// Keys that are only read; a clause sees the map that they stand for. What writes keys is passed the number, the rows and the bytes: a
// struct that holds `&mut`s has to say in each contract that its fields keep their ghost names, so it is no plainer.
#[derive(Drop)]
pub struct Keys<'r, 'b> {
    n: usize,
    rows: &'r [u64],
    bytes: &'b [u8],
}

impl<'r, 'b> Model for Keys<'r, 'b> {
    ghost use Rattle.std.specs.Prelude.{List, ℕ};
    ghost use Rattle.maps.specs.Maps.{Map};
    ghost use Rattle.rules.specs.Table.{Held};
    ghost use Rattle.kvs.specs.Rows.{keys_in, Wf};

    ghost Value = { Map (List ℕ) Held };

    ghost view = { λ k. keys_in k.n k.rows.now k.bytes.now };

    ghost invariant = { λ k. Wf k.n k.rows.now k.bytes.now };
}

impl<'r, 'b> Keys<'r, 'b> {
    // The keys of the first `n` rows.
    pub fn new(n: usize, rows: &'r [u64], bytes: &'b [u8]) -> Keys<'r, 'b>
        requires { Wf n rows.now bytes.now }
        ensures { result ≡ keys_in n rows.now bytes.now }
    {
        Keys { n, rows, bytes }
    }

    // The number of the keys, which ascend.
    #[tactic(auto, using(crate::proofs::Read::count_is))]
    pub fn len(&self) -> usize
        ensures value { result ≡ length self.now }
        ensures ascending { Ascending bytes self.now }
        ensures upper_bound { result < 2 ^ 57 }
    {
        self.n
    }

    // The key at place `i`, as the part of the area that holds it.
    #[tactic(auto, using(crate::proofs::Read::key_is))]
    pub fn key(&self, i: usize) -> &'b [u8]
        requires { i < length self.now }
        ensures value { result.now ≡ (pair_at i self.now).key }
        ensures upper_bound { length result.now ≤ 32 }
    {
        key_at(self.rows, self.bytes, i)
    }

    // The value at place `i`, as the part of the area that holds it.
    #[tactic(auto, using(crate::proofs::Read::value_is))]
    pub fn value(&self, i: usize) -> &'b [u8]
        requires { i < length self.now }
        ensures value { result.now ≡ (pair_at i self.now).val.value }
        ensures upper_bound { length result.now ≤ 32 }
    {
        value_at(self.rows, self.bytes, i)
    }

    // The file at place `i`.
    pub fn file(&self, i: usize) -> FileId
        requires { i < length self.now }
        ensures { result ≡ (pair_at i self.now).val.file }
    {
        file_at(self.rows, i)
    }

    // Looks for a key of any length, by halves. std's search goes over one slice, and a key is a row of numbers and bytes in another.
    pub fn find(&self, key: &[u8]) -> Result<usize, usize>
        ensures place { result ≡ place_of key.now self.now }
        ensures ascending { Ascending bytes self.now }
    {
        let mut low = 0;
        let mut high = self.len();
        while low < high {
            let mid = low + (high - low) / 2;
            match cells::compare_u8(key, self.key(mid)) {
                Ordering::Less => high = mid,
                Ordering::Equal => return Ok(mid),
                Ordering::Greater => low = mid + 1,
            }
        }
        Err(low)
    }

    // The value of a key of any length, as the part of the area that holds it.
    #[tactic(auto, using(crate::proofs::Search::at_within, crate::proofs::Found::get_none))]
    pub fn get(&self, key: &[u8]) -> Option<&'b [u8]>
        ensures { GetKey self.now key.now (option_copied result) }
    {
        let Ok(i) = self.find(key) else {
            return None;
        };
        Some(self.value(i))
    }
}
