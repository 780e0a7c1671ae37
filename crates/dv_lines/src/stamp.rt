//! A time with its text.

ghost use Rattle.std.specs.Prelude.{◌≡◌, ◌≤◌, ◌+◌, ◌<◌, ◌∷◌, ◌++◌, ◌/◌, length, take, IfSome};
ghost use Rattle.std.specs.Fmt.{decimal};
ghost use Rattle.dv_time.specs.Time.{time_text};
ghost use Rattle.dv_written.specs.Rooms.{IsPut};

use crate::numbers::{put_digits, put_four};
use crate::pieces::{HEAD, put_byte, put_sixteen, sixteen_at};
use dv_time::Time;
use std::marker::Model;

// The room that is asked for: a head, and the 35 bytes behind it.
const ROOM: usize = 51;

/// A time with its text, which is made once for all lines of that time. Of a later time only the
/// last four digits of the tick are made, if the digits before them are the same.
#[derive(Drop)]
pub struct Stamp {
    time: Time,
    bytes: [u8; 32],
    // How many of the bytes are the text, at most 16. If it is 0, the text is made for each line.
    length: usize,
    // How many bytes the tick has before its last four digits. If it is 0, they are not there.
    front: usize,
}

impl Model for Stamp {
    ghost use Rattle.std.specs.Prelude.{◌≡◌, ◌≤◌, ◌<◌, ◌/◌, take};
    ghost use Rattle.std.specs.Fmt.{decimal};
    ghost use Rattle.dv_time.specs.Time.{time_text};
    ghost use Rattle.dv_time.specs.declared.time.Time.{Time};

    ghost Value = { Time };

    ghost view = { λ s. s.time };

    ghost invariant = { λ s. (0 < s.length → take s.length s.bytes ≡ time_text s.time)
        × (0 < s.front → 0 < s.time.tick / 10000)
        × (0 < s.front → take s.front s.bytes ≡ decimal (s.time.tick / 10000))
        × (s.length ≤ 16) };
}

// How many of the first digits of a tick stay for the next one: `front`, or none.
#[inline(always)]
fn digits_kept(front: usize, tick: u64, next: u64) -> usize
    ensures fewer { result ≤ front }
    ensures kept { 0 < result → (result ≡ front) × (next / 10000 ≡ tick / 10000) }
{
    if next / 10_000 == tick / 10_000 {
        return front;
    }
    0
}

// A tick. If `front` is not 0, as many of its digits are there already, all but the last four.
#[inline(always)]
fn put_tick(to: &mut [u8], front: usize, tick: u64) -> Option<usize>
    requires there { 0 < front → take front to.old ≡ decimal (tick / 10000) }
    requires long { 0 < front → 0 < tick / 10000 }
    ensures size { length to.new ≡ length to.old }
    ensures text { IfSome result (λ end. IsPut to.old 0 to.new end (decimal tick)) }
{
    if front == 0 || front > to.len() {
        return put_digits(to, 0, tick);
    }
    put_four(to, front, tick)
}

// The rest of the text of a time: `.micro`.
#[inline(always)]
fn put_micro(to: &mut [u8], at: usize, micro: u32) -> Option<usize>
    requires { at ≤ length to.old }
    ensures size { length to.new ≡ length to.old }
    ensures text { IfSome result (λ end. IsPut to.old at to.new end (46 ∷ decimal micro)) }
{
    let at = put_byte(to, at, b'.')?;
    put_digits(to, at, micro as u64)
}

// The text of a time, as `tick.micro`, where the first digits may be there already. Returns how many
// bytes the tick has before its last four digits, and the length of the text.
#[inline(always)]
fn put_anew(to: &mut [u8], front: usize, tick: u64, micro: u32) -> Option<(usize, usize)>
    requires there { 0 < front → take front to.old ≡ decimal (tick / 10000) }
    requires long { 0 < front → 0 < tick / 10000 }
    ensures next_long { IfSome result (λ ends. 0 < ends.0 → 0 < tick / 10000) }
    ensures next_there { IfSome result (λ ends.
        0 < ends.0 → take ends.0 to.new ≡ decimal (tick / 10000)) }
    ensures text { IfSome result (λ ends.
        take ends.1 to.new ≡ decimal tick ++ (46 ∷ decimal micro)) }
{
    let at = put_tick(to, front, tick)?;
    let end = put_micro(to, at, micro)?;
    let front = at.saturating_sub(4);
    Some((front, end))
}

// A time, as `tick.micro`.
fn put_time(to: &mut [u8], time: Time) -> Option<usize>
    ensures size { length to.new ≡ length to.old }
    ensures text { IfSome result (λ end. IsPut to.old 0 to.new end (time_text time)) }
{
    let at = put_digits(to, 0, time.tick)?;
    put_micro(to, at, time.micro)
}

// A time whose text is longer than a head. Behind it there is room for 35 bytes.
#[inline(never)]
fn put_long_time(to: &mut [u8], time: Time) -> Option<usize>
    ensures size { length to.new ≡ length to.old }
    ensures room { IfSome result (λ end. end + 35 ≤ length to.new) }
    ensures text { IfSome result (λ end. IsPut to.old 0 to.new end (time_text time)) }
{
    let end = put_time(to, time)?;
    if to.len() - end < ROOM - HEAD {
        return None;
    }
    Some(end)
}

impl Stamp {
    /// A time.
    pub fn of(time: Time) -> Self
        ensures { result ≡ time }
    {
        let mut stamp = Stamp {
            time,
            bytes: [0; 32],
            length: 0,
            front: 0,
        };
        stamp.renew(time);
        stamp
    }

    /// Another time, or the same. Returns the stamp of it.
    #[inline(always)]
    pub fn at(&mut self, time: Time) -> &Stamp
        ensures { result.now ≡ time }
    {
        if self.time != time {
            self.renew(time);
        }
        self
    }

    // Another time: its text is put in place of the last one.
    fn renew(&mut self, time: Time)
        ensures { self.new ≡ time }
    {
        let front = digits_kept(self.front, self.time.tick, time.tick);
        self.time = time;
        self.length = 0;
        self.front = 0;
        if let Some((front, length)) = put_anew(&mut self.bytes, front, time.tick, time.micro) {
            self.front = front;
            if length <= HEAD {
                self.length = length;
            }
        }
    }

    /// Puts the text of the time at the start of a slice. Returns the index after it, behind which
    /// there is room for 35 bytes, or `None` if there is not enough room.
    #[inline(always)]
    pub fn put_first(&self, to: &mut [u8]) -> Option<usize>
        ensures size { length to.new ≡ length to.old }
        ensures room { IfSome result (λ end. end + 35 ≤ length to.new) }
        ensures text { IfSome result (λ end. IsPut to.old 0 to.new end (time_text self.now)) }
    {
        if to.len() < ROOM {
            return None;
        }
        if self.length == 0 {
            return put_long_time(to, self.time);
        }
        put_sixteen(to, 0, sixteen_at(&self.bytes, 0), self.length);
        Some(self.length)
    }
}
