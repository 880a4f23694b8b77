//! One line of the sample log, written to the back of a room for it.

ghost use Rattle.std.specs.Prelude.{◌≡◌, ◌+◌, ◌^◌, ◌<◌, ◌≤◌, ◌++◌, [], if◌then◌else◌, codes, decimal, drop, length};
ghost use Rattle.sample_log.specs.Sample.{fact as fact_lem, line as line_lem};

use itoa::write_digits;

/// No line is longer.
pub const ROOM: usize = 64;

/// What an event says: its words up to the user's number, and that number.
#[derive(Clone, Copy)]
struct Fact {
    words: &'static [u8],
    user: u32,
}

/// The fact at a place of a round.
fn fact_at(seed: u32, round: u32, place: u32) -> Fact
    ensures fact { result.words.now ++ decimal result.user ≡ fact_lem seed round place }
    ensures short { length result.words.now ≤ 8 }
{
    let strays = (u64::from(round) + u64::from(seed)) % 1000 == 0;
    match place {
        0 => Fact {
            words: b"login,u",
            user: round,
        },
        2 if round >= 100 => Fact {
            words: b"logout,u",
            user: round - 100,
        },
        3 if round >= 200 && strays => Fact {
            words: b"access,u",
            user: round - 200,
        },
        _ => Fact {
            words: b"access,u",
            user: round,
        },
    }
}

/// Puts bytes before what stands from here on, and answers where they begin.
fn put_before(room: &mut [u8], end: usize, bytes: &[u8]) -> usize
    requires fits { length bytes.now ≤ end }
    requires within { end ≤ length room.old }
    ensures start { result + length bytes.now ≡ end }
    ensures written { drop result room.new ≡ bytes.now ++ drop end room.old }
{
    let start = end - bytes.len();
    room[start..end].copy_from_slice(bytes);
    start
}

/// Writes the end of a line, from the event's number on.
fn write_end(room: &mut [u8], timed: bool, number: u32) -> usize
    requires { length room.old ≡ ROOM }
    ensures start { 42 ≤ result }
    ensures within { result < ROOM }
    ensures written { drop result room.new ≡ (if timed then codes "," ++ decimal number else []) ++ codes "\n" }
{
    let end = put_before(room, ROOM, b"\n");
    if !timed {
        return end;
    }
    let digits = write_digits(u64::from(number), room, end);
    put_before(room, digits, b",")
}

/// Writes the line of an event, which counts from 1, so that it ends with the room, and answers where it begins.
pub fn write_line(room: &mut [u8], seed: u32, timed: bool, number: u32) -> usize
    requires room { length room.old ≡ ROOM }
    requires first { 1 ≤ number }
    ensures within { result < ROOM }
    ensures written { drop result room.new ≡ line_lem seed timed number }
{
    let end = write_end(room, timed, number);
    let fact = fact_at(seed, (number - 1) / 4, (number - 1) % 4);
    let digits = write_digits(u64::from(fact.user), room, end);
    put_before(room, digits, fact.words)
}
