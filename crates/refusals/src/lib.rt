//! Why a call is refused and where, what it answers, and the one word that a host is answered.
#![tactic(auto)]

ghost use Rattle.std.specs.Prelude.{◌≡◌};
ghost use Rattle.refusals.specs.Table.{fault_number, answer_number, answer_place, answer_word};
ghost use Rattle.refusals.specs.Output.{room_answer};

/// Why a call is refused. Each fault's number in the table of refusals is its discriminant.
#[derive(Clone, Copy, Debug, PartialEq, Eq, Hash)]
pub enum Fault {
    /// The input is longer than its limit.
    Long = 1,
    /// The input ends before a number does.
    Cut = 2,
    /// A number that is not in its shortest form, or that is 2^32 or more.
    Form = 3,
    /// The words of an item are fewer than 1 or more than 8.
    Width = 4,
    /// A count is above its limit.
    Count = 5,
    /// A move or an event has a code that is not listed.
    Code = 6,
    /// Bytes stand after the last move or event.
    Trailing = 7,
    /// No item is left for a write that is called.
    Items = 8,
    /// A side is called while it has a call open, or returns while it has none.
    Turn = 9,
    /// The lent output is too short.
    Room = 10,
    /// A finished read has no place.
    NoPlace = 11,
    /// No machine has such a state.
    State = 12,
}

impl From<Fault> for u32 {
    ghost from_gives = { λ fault number. number ≡ fault_number fault };

    fn from(fault: Fault) -> u32 {
        fault as u32
    }
}

/// A fault, and the place that the table of refusals gives it: of a byte, a move, an event or a
/// read, or the limit, or the room that would do.
#[derive(Clone, Copy, Debug, PartialEq, Eq, Hash)]
pub struct Refusal {
    pub fault: Fault,
    pub place: u32,
}

/// What a call answers: the place that the table of refusals gives where it is accepted, as the
/// bytes that were written or the reads that were placed; or why and where it refuses.
pub type Answer = Result<u32, Refusal>;

/// The number of an answer: 0 where it is accepted, else the number of its fault.
pub fn answer_number(answer: Answer) -> u32
    ensures { result ≡ answer_number answer }
{
    match answer {
        Ok(_) => 0,
        Err(refusal) => u32::from(refusal.fault),
    }
}

/// The place of an answer.
pub fn answer_place(answer: Answer) -> u32
    ensures { result ≡ answer_place answer }
{
    match answer {
        Ok(place) => place,
        Err(refusal) => refusal.place,
    }
}

/// The one word of an answer: its number times 2^32, plus its place.
pub fn answer_word(answer: Answer) -> u64
    ensures { result ≡ answer_word answer }
{
    u64::from(answer_number(answer)) << 32 | u64::from(answer_place(answer))
}

/// Whether an output of this length has room for what is needed, from a place on: accepted with
/// that, or ROOM with that.
pub fn room(len: usize, at: usize, needed: u32) -> Answer
    ensures { result ≡ room_answer len at needed }
{
    if at <= len && needed as usize <= len - at {
        Ok(needed)
    } else {
        Err(Refusal {
            fault: Fault::Room,
            place: needed,
        })
    }
}
