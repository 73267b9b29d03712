//! One cell for one thread: who holds its value, and how often it was handed and given back.

ghost use Rattle.std.specs.Prelude.{◌≡◌, ◌+◌, ◌≤◌, ◌^◌};
ghost use Rattle.lane_side.specs.Cells.{look_of, after_look, poll_of, after_poll};
ghost use Rattle.lane_side.specs.declared.cells.Holder.TheVariants.{AtHome, WithDriver, Posted, WithDaemon};

use sample_key::Parcel;
use turn_cell::{Look, PollOf};

// Where the value of a cell is.
#[derive(Drop)]
pub(crate) enum Holder<B> {
    // Given back, or never handed: the driver may take it.
    AtHome(B),
    // The driver holds it.
    WithDriver,
    // Handed: the daemon may take it.
    Posted(Parcel<B>),
    // The daemon holds it.
    WithDaemon,
}

// A cell for one thread: how often it was handed and given back, and where its value is.
#[derive(Drop)]
pub(crate) struct Cell<B> {
    pub(crate) hands: u64,
    pub(crate) given: u64,
    pub(crate) holder: Holder<B>,
}

impl<B: Drop> Cell<B> {
    pub(crate) fn new(value: B) -> Cell<B>
        ensures { result ≡ record { hands = 0; given = 0; holder = AtHome value } }
    {
        Cell {
            hands: 0,
            given: 0,
            holder: Holder::AtHome(value),
        }
    }

    // The word: even where the value is the driver's.
    pub(crate) fn word(&self) -> u64
        requires { self.now.hands + self.now.given ≤ 2 ^ 63 }
        ensures { result ≡ self.now.hands + self.now.given }
    {
        self.hands + self.given
    }

    // A look, which read this word. A value that is out is not moved.
    pub(crate) fn look(&mut self, word: u64) -> Look<B>
        ensures answer { result ≡ look_of word self.old.holder }
        ensures cell { self.new ≡ record self.old { holder = after_look self.old.holder } }
    {
        match &self.holder {
            Holder::AtHome(_) => self.take_back(word),
            Holder::Posted(_) => Look::Out(word),
            Holder::WithDaemon => Look::Out(word),
            Holder::WithDriver => Look::Out(word),
        }
    }

    // A look at a value that is at home.
    fn take_back(&mut self, word: u64) -> Look<B>
        ensures answer { result ≡ look_of word self.old.holder }
        ensures cell { self.new ≡ record self.old { holder = after_look self.old.holder } }
    {
        match std::mem::replace(&mut self.holder, Holder::WithDriver) {
            Holder::AtHome(value) => Look::Back(value),
            Holder::Posted(parcel) => {
                self.holder = Holder::Posted(parcel);
                Look::Out(word)
            }
            Holder::WithDaemon => {
                self.holder = Holder::WithDaemon;
                Look::Out(word)
            }
            Holder::WithDriver => Look::Out(word),
        }
    }

    // A poll, which read this word. A value that is at home is not moved.
    pub(crate) fn poll(&mut self, word: u64) -> PollOf<Parcel<B>>
        ensures answer { result ≡ poll_of word self.old.holder }
        ensures cell { self.new ≡ record self.old { holder = after_poll self.old.holder } }
    {
        match &self.holder {
            Holder::Posted(_) => self.take(word),
            Holder::AtHome(_) => PollOf::Home(word),
            Holder::WithDriver => PollOf::Home(word),
            Holder::WithDaemon => PollOf::Home(word),
        }
    }

    // A poll of a value that was handed.
    fn take(&mut self, word: u64) -> PollOf<Parcel<B>>
        ensures answer { result ≡ poll_of word self.old.holder }
        ensures cell { self.new ≡ record self.old { holder = after_poll self.old.holder } }
    {
        match std::mem::replace(&mut self.holder, Holder::WithDaemon) {
            Holder::Posted(parcel) => PollOf::Parcel(parcel),
            Holder::AtHome(value) => {
                self.holder = Holder::AtHome(value);
                PollOf::Home(word)
            }
            Holder::WithDriver => {
                self.holder = Holder::WithDriver;
                PollOf::Home(word)
            }
            Holder::WithDaemon => PollOf::Home(word),
        }
    }

    // A hand.
    pub(crate) fn hand(&mut self, parcel: Parcel<B>)
        requires { self.old.hands ≤ 2 ^ 62 }
        ensures { self.new
            ≡ record self.old { hands = self.old.hands + 1; holder = Posted parcel } }
    {
        self.holder = Holder::Posted(parcel);
        self.hands += 1;
    }

    // A give-back.
    pub(crate) fn give_back(&mut self, value: B)
        requires { self.old.given ≤ 2 ^ 62 }
        ensures { self.new ≡ record self.old { given = self.old.given + 1; holder = AtHome value } }
    {
        self.holder = Holder::AtHome(value);
        self.given += 1;
    }
}
