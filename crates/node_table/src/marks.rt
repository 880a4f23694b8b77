//! Notes: each has a mark, the number of the round in which it was taken, so that a new round begins with none.

ghost use Rattle.std.specs.Prelude.{◌≡◌, ℕ, ◌<◌, ◌≤◌, ◌==◌, if◌then◌else◌, slice_index_or, vec_capacity};

/// The number of a new round, in which nothing is noted. At the last number all marks are cleared, and rounds are
/// counted from 1 again.
pub fn new_round(marks: &mut [u32], round: u32) -> u32
    requires { (h : ℕ) → slice_index_or marks.old h 0 ≤ round }
    ensures started { 0 < result }
    ensures within { (h : ℕ) → slice_index_or marks.new h 0 ≤ result }
    ensures none { (h : ℕ) → slice_index_or marks.new h 0 < result }
{
    if round < u32::MAX {
        return round + 1;
    }
    for mark in marks.iter_mut() {
        *mark = 0;
    }
    1
}

/// What was written for a number, 0 where nothing was.
pub fn read(found: &[u32], number: u32) -> u32
    ensures { result ≡ slice_index_or found.now number 0 }
{
    let at = number as usize;
    if at < found.len() { found[at] } else { 0 }
}

/// Writes for a number, within the room that was taken.
pub fn write(found: &mut Vec<u32>, number: u32, value: u32)
    requires room { number < vec_capacity found.old }
    ensures written { (k : ℕ) → slice_index_or found.new.items k 0 ≡ (if k == number then value else slice_index_or found.old.items k 0) }
    ensures room { vec_capacity found.old ≤ vec_capacity found.new }
{
    let at = number as usize;
    if at >= found.len() {
        found.resize(at + 1, 0).unwrap();
    }
    found[at] = value;
}
