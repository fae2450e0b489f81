//! The machine: a state by value or lent, its start and the moves of its two sides.
#![tactic(auto)]

ghost use Rattle.std.specs.Prelude.{◌≡◌, cond, [], ◌<◌, IfSome, is_some};
ghost use Rattle.words.specs.Words.{eight};
ghost use Rattle.control.specs.Simpson.{simpson};
ghost use Rattle.control.specs.Step.{sound, WordBelow};
ghost use Rattle.machine.specs.Machine.{slot_word, is_call, is_return, writer_move, reader_move};
ghost use Rattle.machine.specs.Machine.{after_taking, after_storing, after_loading, plain};
ghost use Rattle.machine.specs.Machine.{first_words, in_all_four, idle_state, fresh, refused_move};

use control::{Control, Happened, SoundControl};
use refusals::{Answer, Fault, Refusal};

/// A state: the control part, the words of the four slots, the item that the writer has taken in,
/// and the words that the reader has loaded.
///
/// Word k of the slot (pair, index) stands at 16 * pair + 8 * index + k.
#[derive(Clone, Copy, Debug, PartialEq, Eq)]
pub struct State {
    pub control: Control,
    // One array, in which `slot_word` names each place.
    pub slots: [u32; 32],
    pub taken: [u32; 8],
    pub loaded: [u32; 8],
}

/// A move's answer and event, the item of a write called or a read returned, and the state after
/// it.
#[derive(Clone, Copy, Debug, PartialEq, Eq)]
pub struct Moved {
    pub answer: Answer,
    pub happened: Option<Happened>,
    pub item: Option<[u32; 8]>,
    // A refusal hands it back too: hence the answer beside it, and no Result around it.
    pub state: State,
}

/// A state whose control part is sound: no move on it is refused.
#[derive(Clone, Copy, Debug, PartialEq, Eq)]
pub struct SoundState {
    pub control: SoundControl,
    pub slots: [u32; 32],
    pub taken: [u32; 8],
    pub loaded: [u32; 8],
}

/// A start's answer, and the machine.
#[derive(Clone, Copy, Debug, PartialEq, Eq)]
pub struct Started {
    pub answer: Answer,
    // A refusal gives a state too, of zeros.
    pub state: State,
}

// The first n words of an item, and 0 past them.
fn first_words(item: &[u32; 8], n: usize) -> [u32; 8]
    ensures { result ≡ first_words n item.now }
{
    let n = n.min(8);
    let mut words = [0; 8];
    words[..n].copy_from_slice(&item[..n]);
    words
}

/// Where word k of the slot (pair, index) stands.
pub fn slot_word(pair: bool, index: bool, k: u32) -> usize
    ensures { result ≡ slot_word pair index k }
{
    let word = k as usize;
    match (pair, index) {
        (false, false) => word,
        (false, true) => 8 + word,
        (true, false) => 16 + word,
        (true, true) => 24 + word,
    }
}

// The item beside a writer's event: the copy taken in at a call.
fn called_with(happened: Option<Happened>, item: &[u32; 8]) -> Option<[u32; 8]>
    ensures { result ≡ cond (is_call happened) (Some item.now) None }
{
    match happened {
        Some(Happened::Called) => Some(*item),
        _ => None,
    }
}

// The item beside a reader's event: the first n words loaded at a return.
fn returned_with(happened: Option<Happened>, n: usize, item: &[u32; 8]) -> Option<[u32; 8]>
    ensures { result ≡ cond (is_return happened) (Some (first_words n item.now)) None }
{
    match happened {
        Some(Happened::Returned) => Some(first_words(item, n)),
        _ => None,
    }
}

// The same item in all four slots.
fn in_all_four(item: &[u32; 8]) -> [u32; 32]
    ensures { result ≡ in_all_four item.now }
{
    let mut slots = [0; 32];
    for k in 0..4 {
        slots[8 * k..8 * k + 8].copy_from_slice(item);
    }
    slots
}

// A machine with these slots, all else 0.
fn idle_state(n: usize, slots: [u32; 32]) -> State
    ensures { result ≡ idle_state n slots }
{
    State {
        control: Control::idle(n),
        slots,
        taken: [0; 8],
        loaded: [0; 8],
    }
}

impl State {
    /// The fresh machine: all bits 0, both cores idle, the initial item in all four slots. WIDTH
    /// and zeros where n is outside 1 to 8.
    pub fn fresh(n: usize, initial: [u32; 8]) -> Started
        ensures { result ≡ fresh n initial }
    {
        match n {
            1..=8 => {
                let item = first_words(&initial, n);
                Started {
                    answer: Ok(0),
                    state: idle_state(n, in_all_four(&item)),
                }
            }
            _ => Started {
                answer: Err(Refusal {
                    fault: Fault::Width,
                    place: 0,
                }),
                state: idle_state(0, [0; 32]),
            },
        }
    }

    // STATE: the state that came in, with no event.
    fn refused(self) -> Moved
        ensures { result ≡ refused_move self }
    {
        Moved {
            answer: Err(Refusal {
                fault: Fault::State,
                place: 0,
            }),
            happened: None,
            item: None,
            state: self,
        }
    }

    // Two functions here too, as the procedures are two.
    /// One move of the writer. An idle writer takes the item in; a writer in a call ignores it.
    /// STATE, and the state that came in, where the width is outside 1 to 8 or either core's phase
    /// is past its call's last move.
    pub fn writer_move(self, item: [u32; 8]) -> Moved
        ensures { result ≡ writer_move simpson self item }
    {
        let Some(mut sound) = SoundState::of(self) else {
            return self.refused();
        };
        let happened = sound.writer_move(&item);
        Moved {
            answer: Ok(0),
            happened,
            item: called_with(happened, &sound.taken),
            state: sound.state(),
        }
    }

    /// One move of the reader. STATE as for the writer.
    pub fn reader_move(self) -> Moved
        ensures { result ≡ reader_move simpson self }
    {
        let Some(mut sound) = SoundState::of(self) else {
            return self.refused();
        };
        let happened = sound.reader_move();
        Moved {
            answer: Ok(0),
            happened,
            item: returned_with(happened, self.control.n, &sound.loaded),
            state: sound.state(),
        }
    }
}

impl SoundState {
    /// The state, where it is sound.
    pub fn of(state: State) -> Option<SoundState>
        ensures same { IfSome result (λ s. plain s ≡ state) }
        ensures tested { is_some result ≡ sound simpson state.control }
    {
        let control = SoundControl::of(state.control)?;
        let slots = state.slots;
        let taken = state.taken;
        let loaded = state.loaded;
        Some(SoundState {
            control,
            slots,
            taken,
            loaded,
        })
    }

    /// The state that it is.
    pub fn state(&self) -> State
        ensures { result ≡ plain self.now }
    {
        let slots = self.slots;
        let taken = self.taken;
        let loaded = self.loaded;
        State {
            control: self.control.control,
            slots,
            taken,
            loaded,
        }
    }

    // Takes the item in, where a write is called.
    fn take_in(&mut self, happened: Option<Happened>, item: &[u32; 8])
        ensures { plain self.new ≡ after_taking happened item.now (plain self.old) }
    {
        if let Some(Happened::Called) = happened {
            self.taken = first_words(item, self.control.control.n);
        }
    }

    // Stores the word that a move of the writer touches.
    fn store(&mut self, touched: Option<usize>)
        requires { WordBelow 8 touched }
        ensures { plain self.new ≡ after_storing touched (plain self.old) }
    {
        if let Some(k) = touched {
            let core = self.control.control.writer;
            self.slots[slot_word(core.pair, core.index, k as u32)] = self.taken[k];
        }
    }

    // Loads the word that a move of the reader touches.
    fn load(&mut self, touched: Option<usize>)
        requires { WordBelow 8 touched }
        ensures { plain self.new ≡ after_loading touched (plain self.old) }
    {
        if let Some(k) = touched {
            let core = self.control.control.reader;
            self.loaded[k] = self.slots[slot_word(core.pair, core.index, k as u32)];
        }
    }

    /// One move of the writer, on a state that is lent: its event. The item of a call is then in
    /// `taken`.
    pub fn writer_move(&mut self, item: &[u32; 8]) -> Option<Happened>
        ensures state { plain self.new ≡ (writer_move simpson (plain self.old) item.now).state }
        ensures happened { result ≡ (writer_move simpson (plain self.old) item.now).happened }
    {
        let told = self.control.writer_move();
        self.take_in(told.happened, item);
        self.store(told.touched);
        told.happened
    }

    /// One move of the reader, on a state that is lent: its event. The item of a return is then
    /// the first n words of `loaded`.
    pub fn reader_move(&mut self) -> Option<Happened>
        ensures state { plain self.new ≡ (reader_move simpson (plain self.old)).state }
        ensures happened { result ≡ (reader_move simpson (plain self.old)).happened }
    {
        let told = self.control.reader_move();
        self.load(told.touched);
        told.happened
    }
}
