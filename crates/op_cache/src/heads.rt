//! The heads of the buckets. Each has the number of the round in which it was set, so that a new round visits none.

ghost use Rattle.std.specs.Prelude.{◌≡◌, ◌<◌, ◌≤◌, length, vec_len, vec_capacity};
ghost use Rattle.std.specs.List.{All};
ghost use Rattle.op_cache.specs.Chains.{first_link};

/// The head of a bucket's chain: a link, which is meant only in its round.
#[derive(Clone, Copy)]
pub struct Head {
    pub round: u32,
    pub link: u32,
}

const UNSET: Head = Head { round: 0, link: 0 };

/// The link at the head of a bucket, 0 where none was set in this round.
pub fn first_link(heads: &[Head], round: u32, bucket: usize) -> u32
    requires { bucket < length heads.now }
    ensures { result ≡ first_link heads.now round bucket }
{
    let head = heads[bucket];
    if head.round == round { head.link } else { 0 }
}

/// Makes heads up to so many, within the room that was taken. The new ones were set in no round.
pub fn reach(heads: &mut Vec<Head>, window: usize, round: u32)
    requires room { window ≤ vec_capacity heads.old }
    requires rounds { All (λ h. h.round ≤ round) heads.old.items }
    ensures reached { window ≤ vec_len heads.new }
    ensures rounds { All (λ h. h.round ≤ round) heads.new.items }
{
    if heads.len() < window {
        heads.resize(window, UNSET).unwrap();
    }
}

/// The number of a new round, in which no head is set yet.
pub fn next_round(heads: &mut [Head], round: u32) -> u32
    requires { All (λ h. h.round ≤ round) heads.old }
    ensures { All (λ h. h.round < result) heads.new }
{
    if round < u32::MAX {
        return round + 1;
    }
    clear(heads);
    1
}

/// Takes every head back to before the first round.
fn clear(heads: &mut [Head])
    ensures { All (λ h. h.round < 1) heads.new }
{
    for head in heads.iter_mut() {
        *head = UNSET;
    }
}
