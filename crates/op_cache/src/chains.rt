//! The chains of the buckets through the entries: following one, linking an entry, and linking all anew.

ghost use Rattle.std.specs.Prelude.{◌≡◌, ◌<◌, ◌≤◌, ◌+◌, length, take, drop, ◌++◌, ◌∷◌, vec_len, vec_capacity};
ghost use Rattle.std.specs.List.{All, IsDistinct};
ghost use Rattle.std.specs.Map.{keys_of};
ghost use Rattle.op_cache.specs.Keys.{same_place};
ghost use Rattle.op_cache.specs.Memo.{result_at};
ghost use Rattle.op_cache.specs.Chains.{AreLinked, pairs_of};

use crate::Place;
use crate::heads::{Head, first_link};

/// A pair, and one more than the index of the last entry before it in its bucket, or 0.
#[derive(Clone, Copy)]
pub struct Entry<H> {
    pub place: Place,
    pub result: H,
    pub link: u32,
}

/// The result of a place, looked for along the chain of its bucket.
pub fn find<H: Copy>(
    entries: &[Entry<H>],
    heads: &[Head],
    window: usize,
    round: u32,
    place: Place,
) -> Option<H>
    requires some { 0 < window }
    requires reach { window ≤ length heads.now }
    requires linked { AreLinked entries.now heads.now window round }
    requires distinct { IsDistinct same_place (keys_of (pairs_of entries.now)) }
    ensures { result ≡ result_at (pairs_of entries.now) place }
{
    let mut link = first_link(heads, round, place.bucket(window));
    while link > 0 {
        let entry = &entries[link as usize - 1];
        if place.is(entry.place) {
            return Some(entry.result);
        }
        link = entry.link;
    }
    None
}

/// Puts an entry after so many others, within the room that was taken.
pub fn put<H: Copy>(entries: &mut Vec<Entry<H>>, at: usize, entry: Entry<H>)
    requires reach { at ≤ vec_len entries.old }
    requires room { at < vec_capacity entries.old }
    ensures put { entries.new.items ≡ take at entries.old.items ++ entry ∷ drop (at + 1) entries.old.items }
    ensures room { vec_capacity entries.old ≤ vec_capacity entries.new }
{
    if at < entries.len() {
        entries[at] = entry;
    } else {
        entries.push(entry).unwrap();
    }
}

/// Puts an entry at the head of its bucket's chain. Those before it are linked already.
pub fn link_entry<H: Copy>(
    entries: &mut [Entry<H>],
    heads: &mut [Head],
    window: usize,
    round: u32,
    at: u32,
)
    requires within { at < length entries.old }
    requires fits { at < u32.MAX }
    requires some { 0 < window }
    requires reach { window ≤ length heads.old }
    requires rounds { All (λ h. h.round ≤ round) heads.old }
    requires linked { AreLinked (take at entries.old) heads.old window round }
    ensures linked { AreLinked (take (at + 1) entries.new) heads.new window round }
    ensures pairs { pairs_of entries.new ≡ pairs_of entries.old }
    ensures rounds { All (λ h. h.round ≤ round) heads.new }
{
    let entry = &mut entries[at as usize];
    let bucket = entry.place.bucket(window);
    entry.link = first_link(heads, round, bucket);
    heads[bucket] = Head {
        round,
        link: at + 1,
    };
}

/// Links the first entries anew, in a round in which no head is set yet.
pub fn relink<H: Copy>(
    entries: &mut [Entry<H>],
    heads: &mut [Head],
    window: usize,
    round: u32,
    held: u32,
)
    requires within { held ≤ length entries.old }
    requires some { 0 < window }
    requires reach { window ≤ length heads.old }
    requires unset { All (λ h. h.round < round) heads.old }
    ensures linked { AreLinked (take held entries.new) heads.new window round }
    ensures pairs { pairs_of entries.new ≡ pairs_of entries.old }
    ensures rounds { All (λ h. h.round ≤ round) heads.new }
{
    for at in 0..held {
        link_entry(entries, heads, window, round, at);
    }
}
