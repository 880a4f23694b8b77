//! What a reader keeps, and how it goes on by one field or one line.
ghost use Rattle.std.specs.Prelude.{◌≡◌, ℕ, List, ◌+◌, ◌-◌, ◌^◌, ◌<◌, ◌≤◌, ◌⊎◌, ◌&&◌, not, ◌==◌, [], ◌∷◌, ◌++◌, length, drop, vec_len, slice_index, Bool, true, false, None, Some, Ok, Err, OnOk, OnErr, IfOk, IfErr, ◌≢◌};
ghost use Rattle.qtl_syntax.specs.Tree as tree;
ghost use Rattle.log_reader.specs.declared.fault.LogFault as declared;

use crate::buffer::{bytes_from, drop_front};
use crate::fault::{LogFault, lasting};
use crate::mark::mark_length;
use crate::place::{Place, is_inside};
use crate::scan::scan;
use crate::text::field_text;
use crate::time::pop_time;
use qtl_syntax::Text;
use qtl_truth::Event;
use sqlite_items::Items;
use std::alloc::AllocError;
use std::mem;

/// How many bytes a line has at most, without its line feed.
const MAX_LINE: usize = 65_536;

/// How many commas a line has at most.
const MAX_COMMAS: usize = 63;

/// What one step finds.
#[derive(Debug, Drop)]
pub enum Turn {
    /// A field or a line without a record is behind.
    More,
    /// The bytes have no further record.
    Wait,
    /// The next event.
    Found(Event),
}

/// The bytes of `held` before `from` are done with. Those before `seen` are the field begun, behind which the next
/// byte stands at this place. The line has so many bytes before the field, and these texts.
/// `last_time` is that of the last event, and 0 where there is none.
#[derive(Drop)]
pub struct State {
    pub timed: bool,
    pub held: Vec<u8>,
    pub from: usize,
    pub seen: usize,
    pub before: usize,
    pub place: Place,
    pub texts: Items<Text>,
    pub is_begun: bool,
    pub ended: bool,
    pub given: u64,
    pub last_time: u64,
    pub fault: Option<LogFault>,
    pub scratch: Vec<u8>,
}

impl State {
    ghost use Rattle.log_reader.specs.Standing.{Goes, IsNext, Sought, Stands, all_texts, given_next, is_blank_so_far, with_rest};
    ghost use Rattle.log_reader.specs.Places.{is_in_field, is_inside as is_inside_lem};
    ghost use Rattle.log_reader.specs.State.{reading_of, IsState, IsSame, IsAtByte, IsTaken, IsMade, IsNotMade, Turned, given_after};

    /// Looks at the bytes of the field begun that were not looked at.
    fn scan_field(&mut self)
        requires sound { IsState self.old }
        requires begun { self.old.is_begun ≡ true }
        ensures sound { IsState self.new }
        ensures same { IsSame self.old self.new }
        ensures given { self.new.given ≡ self.old.given }
        ensures later { self.old.seen ≤ self.new.seen }
        ensures goes { (bytes : tree.Text) → Goes bytes (reading_of self.old) → Goes bytes (reading_of self.new) }
        ensures stops { self.new.seen < vec_len self.new.held → self.new.before + (self.new.seen - self.new.from) < 65536 → is_in_field self.new.place (slice_index self.new.held.items self.new.seen) ≡ false }
    {
        let room = MAX_LINE - (self.before + (self.seen - self.from));
        let end = self.held.len().min(self.seen.saturating_add(room));
        let scanned = scan(&self.held, self.seen, end, self.place);
        self.seen = scanned.seen;
        self.place = scanned.place;
    }

    /// The line is blank so far.
    fn is_blank(&self) -> bool
        ensures { result ≡ is_blank_so_far self.now.texts self.now.place }
    {
        self.texts.is_empty() && self.place == Place::Before
    }

    /// The number of the record that comes next.
    fn number(&self) -> u64
        requires { self.now.given + 1 < 2 ^ 64 }
        ensures { result ≡ self.now.given + 1 }
    {
        self.given + 1
    }

    /// The next byte.
    fn next_byte(&self) -> u8
        requires { self.now.seen < vec_len self.now.held }
        ensures { result ≡ slice_index self.now.held.items self.now.seen }
    {
        self.held[self.seen]
    }

    /// The next byte ends the line.
    fn is_at_line_end(&self) -> bool
        requires { self.now.seen < vec_len self.now.held }
        ensures { result ≡ (slice_index self.now.held.items self.now.seen == 10 && not (is_inside_lem self.now.place)) }
    {
        self.next_byte() == b'\n' && !is_inside(self.place)
    }

    /// How many bytes the line has so far.
    fn length(&self) -> usize
        requires { IsState self.now }
        ensures { result ≡ (reading_of self.now).length }
    {
        self.before + (self.seen - self.from)
    }

    /// Adds the text of the field begun to those of the line.
    fn add_text(&mut self) -> Result<(), LogFault>
        requires sound { IsState self.old }
        requires closed { is_inside_lem self.old.place ≡ false }
        ensures sound { IsState self.new }
        ensures same { IsSame self.old self.new }
        ensures places { (self.new.seen ≡ self.old.seen) × (self.new.from ≡ self.old.from) × (self.new.before ≡ self.old.before) × (self.new.place ≡ self.old.place) × (self.new.given ≡ self.old.given) × (self.new.last_time ≡ self.old.last_time) }
        ensures ok { OnOk result (self.new.texts ≡ all_texts (reading_of self.old)) }
        ensures err { IfErr result (λ f. (f ≡ LogFault.NoMemory) × (reading_of self.new ≡ reading_of self.old)) }
    {
        let alloc = *self.held.allocator();
        let text = field_text(
            alloc,
            &mut self.scratch,
            self.place,
            &self.held[self.from..self.seen],
        )?;
        self.texts.push(text)?;
        Ok(())
    }

    /// Ends the field begun at the comma behind it.
    fn end_field(&mut self) -> Result<Turn, LogFault>
        requires at { IsAtByte self.old }
        requires comma { slice_index self.old.held.items self.old.seen ≡ 44 }
        requires short { (reading_of self.old).length < 65536 }
        ensures sound { IsState self.new }
        ensures same { IsSame self.old self.new }
        ensures given { self.new.given ≡ given_after self.old.given result }
        ensures later { OnOk result (self.old.seen < self.new.seen) }
        ensures turned { (bytes : tree.Text) → Goes bytes (reading_of self.old) → Turned bytes (reading_of self.old) (reading_of self.new) result }
    {
        if self.texts.len() >= MAX_COMMAS {
            return Err(LogFault::TooManyFields {
                number: self.number(),
            });
        }
        self.add_text()?;
        self.before += self.seen - self.from + 1;
        self.seen += 1;
        self.from = self.seen;
        self.place = Place::Before;
        Ok(Turn::More)
    }

    /// The texts of the line, which has none then.
    fn take_texts(&mut self) -> Items<Text>
        requires sound { IsState self.old }
        ensures sound { IsState self.new }
        ensures same { IsSame self.old self.new }
        ensures places { (self.new.seen ≡ self.old.seen) × (self.new.from ≡ self.old.from) × (self.new.before ≡ self.old.before) × (self.new.place ≡ self.old.place) × (self.new.given ≡ self.old.given) × (self.new.last_time ≡ self.old.last_time) }
        ensures none { self.new.texts ≡ [] }
        ensures all { result ≡ self.old.texts }
    {
        let alloc = *self.held.allocator();
        mem::replace(&mut self.texts, Items::new(alloc))
    }

    /// Takes the time of the event off the end of its arguments. In an untimed log it is 0.
    fn take_time(&self, args: &mut Items<Text>) -> Result<u64, LogFault>
        requires room { self.now.given + 1 < 2 ^ 64 }
        ensures { (name : tree.Text) → IsTaken self.now name args.old args.new result }
    {
        if !self.timed {
            return Ok(0);
        }
        let Some(time) = pop_time(args) else {
            return Err(LogFault::BadTime {
                number: self.number(),
            });
        };
        if time < self.last_time {
            return Err(LogFault::TimeBack {
                number: self.number(),
                before: self.last_time,
                now: time,
            });
        }
        Ok(time)
    }

    /// Makes the event of the line, behind which the next one begins after so many bytes.
    fn end_record(&mut self, skip: usize) -> Result<Event, LogFault>
        requires sound { IsState self.old }
        requires within { self.old.seen + skip ≤ vec_len self.old.held }
        requires out { is_inside_lem self.old.place ≡ false }
        requires room { self.old.given + 1 < 2 ^ 64 }
        ensures sound { IsState self.new }
        ensures same { IsSame self.old self.new }
        ensures ok { IfOk result (λ e. IsMade self.old self.new skip e) }
        ensures err { IfErr result (λ f. IsNotMade self.old self.new f) }
    {
        self.add_text()?;
        let mut args = self.take_texts();
        let name = args.remove(0);
        if name.bytes().is_empty() {
            return Err(LogFault::EmptyName {
                number: self.number(),
            });
        }
        let time = self.take_time(&mut args)?;
        self.before = 0;
        self.seen += skip;
        self.from = self.seen;
        self.place = Place::Before;
        self.given += 1;
        self.last_time = time;
        Ok(Event { name, args, time })
    }

    /// Ends the line at the line feed behind it.
    fn end_line(&mut self) -> Result<Turn, LogFault>
        requires at { IsAtByte self.old }
        requires feed { slice_index self.old.held.items self.old.seen ≡ 10 }
        ensures sound { IsState self.new }
        ensures same { IsSame self.old self.new }
        ensures given { self.new.given ≡ given_after self.old.given result }
        ensures later { OnOk result (self.old.seen < self.new.seen) }
        ensures turned { (bytes : tree.Text) → Goes bytes (reading_of self.old) → Turned bytes (reading_of self.old) (reading_of self.new) result }
    {
        if self.is_blank() {
            self.before = 0;
            self.seen += 1;
            self.from = self.seen;
            return Ok(Turn::More);
        }
        match self.end_record(1) {
            Ok(event) => Ok(Turn::Found(event)),
            Err(fault) => Err(fault),
        }
    }

    /// What the end of the bytes says of the line begun.
    fn end_log(&mut self) -> Result<Turn, LogFault>
        requires sound { IsState self.old }
        requires started { self.old.is_begun ≡ true }
        requires end { self.old.seen ≡ vec_len self.old.held }
        requires room { self.old.given + 1 < 2 ^ 64 }
        ensures sound { IsState self.new }
        ensures same { IsSame self.old self.new }
        ensures given { self.new.given ≡ given_after self.old.given result }
        ensures never { IfOk result (λ t. t ≡ Turn.More → ⊥) }
        ensures turned { (bytes : tree.Text) → Goes bytes (reading_of self.old) → Turned bytes (reading_of self.old) (reading_of self.new) result }
    {
        if !self.ended {
            return Ok(Turn::Wait);
        }
        if self.is_blank() {
            return Ok(Turn::Wait);
        }
        if is_inside(self.place) {
            return Err(LogFault::QuoteOpen {
                number: self.number(),
            });
        }
        match self.end_record(0) {
            Ok(event) => Ok(Turn::Found(event)),
            Err(fault) => Err(fault),
        }
    }

    /// Goes on to the end of the field begun, or as far as there are bytes.
    pub fn turn(&mut self) -> Result<Turn, LogFault>
        requires sound { IsState self.old }
        requires started { self.old.is_begun ≡ true }
        requires room { self.old.given + 1 < 2 ^ 64 }
        ensures sound { IsState self.new }
        ensures same { IsSame self.old self.new }
        ensures given { self.new.given ≡ given_after self.old.given result }
        ensures later { IfOk result (λ t. t ≡ Turn.More → self.old.seen < self.new.seen) }
        ensures turned { (bytes : tree.Text) → Goes bytes (reading_of self.old) → Turned bytes (reading_of self.old) (reading_of self.new) result }
    {
        self.scan_field();
        if self.seen == self.held.len() {
            return self.end_log();
        }
        if self.is_at_line_end() {
            return self.end_line();
        }
        if self.length() >= MAX_LINE {
            return Err(LogFault::RecordTooLong {
                number: self.number(),
            });
        }
        if self.next_byte() == b',' {
            return self.end_field();
        }
        Err(LogFault::AfterQuote {
            number: self.number(),
        })
    }

    /// Gives the next record of the bytes held, or says that they have none yet.
    fn next_record(&mut self) -> Result<Option<Event>, LogFault>
        requires sound { IsState self.old }
        requires started { self.old.is_begun ≡ true }
        requires right { self.old.fault ≡ None }
        requires room { self.old.given + 1 < 2 ^ 64 }
        ensures sound { IsState self.new }
        ensures ended { self.new.ended ≡ self.old.ended }
        ensures timed { self.new.timed ≡ self.old.timed }
        ensures given { self.new.given ≡ given_next self.old.given result }
        ensures fault { IfErr result (λ f. f ≢ LogFault.NoMemory → self.new.fault ≡ Some f) }
        ensures sought { (bytes : tree.Text) → Goes bytes (reading_of self.old) → Sought bytes (reading_of self.old) (reading_of self.new) result }
    {
        'turns: loop {
            match self.turn() {
                Ok(Turn::More) => {}
                Ok(Turn::Wait) => return Ok(None),
                Ok(Turn::Found(event)) => return Ok(Some(event)),
                Err(fault) => {
                    self.fault = lasting(fault);
                    return Err(fault);
                }
            }
        }
    }

    /// Drops a byte-order mark. Says no as long as the bytes may still become one.
    fn has_begun(&mut self) -> bool
        requires sound { IsState self.old }
        ensures sound { IsState self.new }
        ensures same { (self.new.ended ≡ self.old.ended) × (self.new.timed ≡ self.old.timed) × (self.new.fault ≡ self.old.fault) × (self.new.given ≡ self.old.given) }
        ensures started { result ≡ true → self.new.is_begun ≡ true }
        ensures goes { (bytes : tree.Text) → Goes bytes (reading_of self.old) → Goes bytes (reading_of self.new) }
        ensures waits { result ≡ false → (bytes : tree.Text) → Goes bytes (reading_of self.old) → IsNext bytes (reading_of self.old) (Ok None) }
    {
        if self.is_begun {
            return true;
        }
        let Some(length) = mark_length(bytes_from(&self.held, self.seen), self.ended) else {
            return false;
        };
        self.seen += length;
        self.from = self.seen;
        self.is_begun = true;
        true
    }

    /// Takes away the bytes that are done with, where they are as many as those to come, so that each byte is moved
    /// once at most for each that goes.
    fn drop_done(&mut self)
        requires sound { IsState self.old }
        ensures sound { IsState self.new }
        ensures same { reading_of self.new ≡ reading_of self.old }
        ensures ended { self.new.ended ≡ self.old.ended }
        ensures given { self.new.given ≡ self.old.given }
    {
        if self.from < self.held.len() - self.from {
            return;
        }
        drop_front(&mut self.held, self.from);
        self.seen -= self.from;
        self.from = 0;
    }

    /// Adds a piece to the bytes held.
    pub fn feed(&mut self, piece: &[u8]) -> Result<(), AllocError>
        requires sound { IsState self.old }
        ensures sound { IsState self.new }
        ensures ended { self.new.ended ≡ self.old.ended }
        ensures given { self.new.given ≡ self.old.given }
        ensures ok { OnOk result (reading_of self.new ≡ with_rest (reading_of self.old) ((reading_of self.old).rest ++ piece.now)) }
        ensures err { OnErr result (reading_of self.new ≡ reading_of self.old) }
    {
        self.drop_done();
        self.held.extend_from_slice(piece)?;
        Ok(())
    }

    /// Gives the next record of the bytes fed, or says that they have none yet. A fault is given again.
    pub fn next(&mut self) -> Result<Option<Event>, LogFault>
        requires sound { IsState self.old }
        requires room { self.old.given + 1 < 2 ^ 64 }
        ensures sound { IsState self.new }
        ensures ended { self.new.ended ≡ self.old.ended }
        ensures timed { self.new.timed ≡ self.old.timed }
        ensures given { self.new.given ≡ given_next self.old.given result }
        ensures fault { IfErr result (λ f. f ≢ LogFault.NoMemory → self.new.fault ≡ Some f) }
        ensures again { (f : declared.LogFault) → self.old.fault ≡ Some f → (result ≡ Err f) × (reading_of self.new ≡ reading_of self.old) }
        ensures sought { (bytes : tree.Text) → Stands bytes (reading_of self.old) → Sought bytes (reading_of self.old) (reading_of self.new) result }
    {
        if let Some(fault) = self.fault {
            return Err(fault);
        }
        if !self.has_begun() {
            return Ok(None);
        }
        self.next_record()
    }
}
