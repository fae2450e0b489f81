//! Simpson's moves: the control part of a machine, which is all of a state but its words.
#![tactic(auto)]

ghost use Rattle.std.specs.Prelude.{◌≡◌, true, not, IfSome, is_some};
ghost use Rattle.control.specs.Simpson.{Writer, Reader, slot_at, simpson};
ghost use Rattle.control.specs.Simpson.{set_pair, set_index, set_slot, set_latest, set_reading};
ghost use Rattle.control.specs.Step.{idle, does, at_phase, sound, accepted, step_of, refused, step};

use refusals::{Answer, Fault, Refusal};

/// The shared bits.
#[derive(Clone, Copy, Debug, PartialEq, Eq, Hash)]
pub struct Bits {
    pub latest: bool,
    pub reading: bool,
    pub slot0: bool,
    pub slot1: bool,
}

/// A core's locals but its item. The phase is the number of moves done of its open call, 0 when
/// idle.
#[derive(Clone, Copy, Debug, PartialEq, Eq, Hash)]
pub struct Core {
    pub phase: usize,
    pub pair: bool,
    pub index: bool,
}

/// A machine of width n, without its words.
#[derive(Clone, Copy, Debug, PartialEq, Eq, Hash)]
pub struct Control {
    pub n: usize,
    pub bits: Bits,
    pub writer: Core,
    pub reader: Core,
}

/// The event of a move: its call's, CW of a writer and CR of a reader, or its return's, RW and RR.
#[derive(Clone, Copy, Debug, PartialEq, Eq, Hash)]
pub enum Happened {
    Called,
    Returned,
}

/// A move's answer and event, the word that it touches, and the control part after it.
///
/// Word k of its side's item is touched: a writer stores it into the slot (pair, index), and a
/// reader loads it from there.
#[derive(Clone, Copy, Debug, PartialEq, Eq, Hash)]
pub struct Step {
    pub answer: Answer,
    pub happened: Option<Happened>,
    pub touched: Option<usize>,
    // A refusal hands it back too: hence the answer beside it, and no Result around it.
    pub control: Control,
}

/// What a move on a sound control part tells: its event, and the word that it touches.
#[derive(Clone, Copy, Debug, PartialEq, Eq, Hash)]
pub struct Told {
    pub happened: Option<Happened>,
    pub touched: Option<usize>,
}

/// A sound control part: its width is from 1 to 8, and each core's phase is one that its call has.
/// No move on it is refused.
#[derive(Clone, Copy, Debug, PartialEq, Eq)]
pub struct SoundControl {
    pub control: Control,
    pub ghost is_sound: { sound simpson control ≡ true },
}

impl Bits {
    // slot[pair]
    fn slot_at(self, pair: bool) -> bool
        ensures { result ≡ slot_at self pair }
    {
        if pair { self.slot1 } else { self.slot0 }
    }
}

impl Control {
    /// All bits and locals 0, both cores idle. A width outside 1 to 8 gives a control part that
    /// every move refuses.
    pub fn idle(n: usize) -> Control
        ensures { result ≡ idle n }
    {
        let core = Core {
            phase: 0,
            pair: false,
            index: false,
        };
        let bits = Bits {
            latest: false,
            reading: false,
            slot0: false,
            slot1: false,
        };
        Control {
            n,
            bits,
            writer: core,
            reader: core,
        }
    }

    // Whether the width is one that an item has, and each phase one that its call has.
    fn sound(&self) -> bool
        ensures { result ≡ sound simpson self.now }
    {
        let n = self.n;
        match n {
            1..=8 => self.writer.phase < n + 4 && self.reader.phase < n + 3,
            _ => false,
        }
    }

    fn refused(self) -> Step
        ensures { result ≡ refused self }
    {
        Step {
            answer: Err(Refusal {
                fault: Fault::State,
                place: 0,
            }),
            happened: None,
            touched: None,
            control: self,
        }
    }

    // A move that was made, and left this control part.
    fn accepted(self, told: Told) -> Step
        ensures { result ≡ step_of told self }
    {
        Step {
            answer: Ok(0),
            happened: told.happened,
            touched: told.touched,
            control: self,
        }
    }

    // The phases of the two are two fields, so this stands twice.
    // A move of the writer that leaves it at this phase.
    fn writer_at(
        &mut self,
        phase: usize,
        happened: Option<Happened>,
        touched: Option<usize>,
    ) -> Told
        ensures { step_of result self.new
            ≡ accepted happened touched (at_phase Writer phase self.old) }
    {
        self.writer.phase = phase;
        Told { happened, touched }
    }

    // A move of the reader that leaves it at this phase.
    fn reader_at(
        &mut self,
        phase: usize,
        happened: Option<Happened>,
        touched: Option<usize>,
    ) -> Told
        ensures { step_of result self.new
            ≡ accepted happened touched (at_phase Reader phase self.old) }
    {
        self.reader.phase = phase;
        Told { happened, touched }
    }

    // The writer's pair := not reading
    fn pair_not_reading(&mut self)
        ensures { self.new ≡ does Writer (set_pair (λ b c. not b.reading)) self.old }
    {
        self.writer.pair = !self.bits.reading;
    }

    // The writer's index := not slot[pair]
    fn index_not_slot(&mut self)
        ensures { self.new ≡ does Writer (set_index (λ b c. not (slot_at b c.pair))) self.old }
    {
        self.writer.index = !self.bits.slot_at(self.writer.pair);
    }

    // slot[pair] := index
    fn slot_index(&mut self)
        ensures { self.new ≡ does Writer (set_slot (λ b c. c.index)) self.old }
    {
        if self.writer.pair {
            self.bits.slot1 = self.writer.index;
        } else {
            self.bits.slot0 = self.writer.index;
        }
    }

    // latest := pair
    fn latest_pair(&mut self)
        ensures { self.new ≡ does Writer (set_latest (λ b c. c.pair)) self.old }
    {
        self.bits.latest = self.writer.pair;
    }

    // The reader's pair := latest
    fn pair_latest(&mut self)
        ensures { self.new ≡ does Reader (set_pair (λ b c. b.latest)) self.old }
    {
        self.reader.pair = self.bits.latest;
    }

    // reading := pair
    fn reading_pair(&mut self)
        ensures { self.new ≡ does Reader (set_reading (λ b c. c.pair)) self.old }
    {
        self.bits.reading = self.reader.pair;
    }

    // The reader's index := slot[pair]
    fn index_slot(&mut self)
        ensures { self.new ≡ does Reader (set_index (λ b c. slot_at b c.pair)) self.old }
    {
        self.reader.index = self.bits.slot_at(self.reader.pair);
    }

    // The two procedures have no action in common but that on a word, so each has its own function,
    // with a line of the procedure in each arm.
    // One move of the writer, on a sound control part that is lent.
    fn step_writer(&mut self) -> Told
        requires { sound simpson self.old ≡ true }
        ensures { step_of result self.new ≡ step simpson Writer self.old }
    {
        match self.writer.phase {
            0 => {
                self.pair_not_reading();
                self.writer_at(1, Some(Happened::Called), None)
            }
            1 => {
                self.index_not_slot();
                self.writer_at(2, None, None)
            }
            phase => {
                let word = phase - 2;
                if word < self.n {
                    self.writer_at(phase + 1, None, Some(word))
                } else if word == self.n {
                    self.slot_index();
                    self.writer_at(phase + 1, None, None)
                } else {
                    self.latest_pair();
                    self.writer_at(0, Some(Happened::Returned), None)
                }
            }
        }
    }

    // One move of the reader, on a sound control part that is lent.
    fn step_reader(&mut self) -> Told
        requires { sound simpson self.old ≡ true }
        ensures { step_of result self.new ≡ step simpson Reader self.old }
    {
        match self.reader.phase {
            0 => {
                self.pair_latest();
                self.reader_at(1, Some(Happened::Called), None)
            }
            1 => {
                self.reading_pair();
                self.reader_at(2, None, None)
            }
            2 => {
                self.index_slot();
                self.reader_at(3, None, None)
            }
            phase => {
                let word = phase - 3;
                if word + 1 < self.n {
                    self.reader_at(phase + 1, None, Some(word))
                } else {
                    self.reader_at(0, Some(Happened::Returned), Some(word))
                }
            }
        }
    }

    /// One move of the writer. STATE, and the control part that came in, where the width is
    /// outside 1 to 8 or either core's phase is past its call's last move.
    pub fn writer_move(self) -> Step
        ensures { result ≡ step simpson Writer self }
    {
        let Some(mut sound) = SoundControl::of(self) else {
            return self.refused();
        };
        let told = sound.writer_move();
        sound.control.accepted(told)
    }

    /// One move of the reader. STATE as for the writer.
    pub fn reader_move(self) -> Step
        ensures { result ≡ step simpson Reader self }
    {
        let Some(mut sound) = SoundControl::of(self) else {
            return self.refused();
        };
        let told = sound.reader_move();
        sound.control.accepted(told)
    }
}

impl SoundControl {
    /// The control part, where it is sound.
    pub fn of(control: Control) -> Option<SoundControl>
        ensures same { IfSome result (λ s. s.control ≡ control) }
        ensures tested { is_some result ≡ sound simpson control }
    {
        if !control.sound() {
            return None;
        }
        Some(SoundControl { control })
    }

    /// One move of the writer, on a control part that is lent.
    pub fn writer_move(&mut self) -> Told
        ensures { step_of result self.new.control ≡ step simpson Writer self.old.control }
    {
        self.control.step_writer()
    }

    /// One move of the reader, on a control part that is lent.
    pub fn reader_move(&mut self) -> Told
        ensures { step_of result self.new.control ≡ step simpson Reader self.old.control }
    {
        self.control.step_reader()
    }
}
