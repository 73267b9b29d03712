//! The steps of a turn, in the order in which it makes them: `Driver::step` hears the bell and looks for the table; then it
//! answers a flush, or goes on with the next sample, which it takes, loses or holds.
//!
//! The contract of a step is its definition's equation. Each step keeps that there is room for every possible loss, and that
//! the active buffer has the size that it was made with.
ghost use Rattle.std.specs.Prelude.{◌≡◌, ℕ, ◌+◌, ◌/◌, ◌<◌, ◌≤◌, ◌^◌, ◌∷◌, ◌++◌, ◌==◌, if◌then◌else◌, [], List, None, Some, true, false, is_some, drop, length, vec_capacity, IfSome, IsSomeAnd, MatchOption};
ghost use Rattle.sample_key.specs.Counted.{Counted};
ghost use Rattle.sample_key.specs.Marks.{IsRising};
ghost use Rattle.driver_model.specs.Table.{given_out};
ghost use Rattle.driver_model.specs.Sides.{Side, slot_of};
ghost use Rattle.driver_model.specs.Handover.{rung_of};
ghost use Rattle.driver_model.specs.Runs.{words_at};
ghost use Rattle.driver_model.specs.Driver.{Two, Words, after_regain, answer_with, answers_now, buffer_header, ends_with, hand_active, hand_buffer, hand_table, hands_of, look_both, lose, may_answer, needs_write, next_sample, other, pair_handed, regain, table_header, take_next, take_sample, tally, to_write, turn_of, write, write_sample};
ghost use Rattle.driver_model.specs.Invariant.{IsSetup, DriverInvariant};
ghost use Rattle.driver_model.specs.declared.answers.Turn.TheVariants.{Done, Answered};
ghost use Rattle.driver_laws.specs.Turns.{AreFairWords, IsFairWord};
ghost use Rattle.overflow_pair.specs.Contents.{Contents, HasSpace, pushed};
ghost use Rattle.overflow_pair.specs.Pairs.{buffers_of};
ghost use Rattle.lane_side.specs.Calls.{ReadsBuffer};
ghost use Rattle.cpu_lane.specs.Seen.{setup_of, driver_of, IsSound};
ghost use Rattle.cpu_lane.specs.Told.{WhereTold, OverTwo, OverThird};
ghost use Rattle.cpu_lane.specs.Steps.{Is, Gives, Finds, both_out, looked, put, take_held, world_of};
ghost use Rattle.cpu_lane.specs.Ready.{IsSideOf, HasRoom, HeardBy, Ready, CanHand, CanHandTable, CanCount, IsDue};
ghost use Rattle.cpu_lane.specs.declared.drivers.Setup as made;

use assoc_table::AssocTable;
use driver_model::{Added, Plan, Stats, Turn};
use lane_side::{LaneSide, Look};
use overflow_pair::{Buffer, Pair};
use sample_key::{Entry, Key, LAST_CELL, LAST_CPU, Loss, MOST_SAMPLES, Marked, Note, Pace, Parcel};

// What a lane was made for; it never changes.
#[derive(Drop)]
pub(crate) struct Setup {
    // The processor.
    pub(crate) cpu: u32,
    // Its samples, by rising marks.
    pub(crate) samples: Vec<Marked>,
    // The pace, the bell value of the close, and the size of a buffer.
    pub(crate) plan: Plan,
}

// Where a lane stands.
#[derive(Drop)]
pub(crate) struct Driver {
    // The samples taken or lost so far.
    pub(crate) at: usize,
    // The table, where it is held.
    pub(crate) table: Option<AssocTable>,
    // The active buffer, and the hands of both.
    pub(crate) pair: Pair,
    // The hands of the table.
    pub(crate) tables: u64,
    // The bell value answered last, 0 before the first.
    pub(crate) answered: u64,
    // Whether the close was answered.
    pub(crate) done: bool,
    // The samples lost, in order.
    pub(crate) losses: Vec<Loss>,
    // How the others were counted.
    pub(crate) stats: Stats,
}

// What the driver found when it needed a buffer.
#[derive(Drop)]
enum Found {
    // One of the two came back, and is the active one now.
    Active,
    // Both are out, with these words of buffer 0 and buffer 1.
    Out { word0: u64, word1: u64 },
}

impl Driver {
    // One turn. After the close it does nothing more.
    #[inline]
    pub(crate) fn step<S: LaneSide>(&mut self, setup: &Setup, side: &mut S) -> Turn
        requires sound { IsSound setup.now self.old }
        requires setup { IsSetup (setup_of setup.now) }
        requires side { IsSideOf (setup_of setup.now) (S.fixed side.old) (S.seen side.old) }
        requires room { HasRoom (driver_of self.old) (S.seen side.old) }
        requires invariant { DriverInvariant (setup_of setup.now) (driver_of self.old)
            (S.seen side.old) }
        ensures step { (words : Words) ×
            Gives (turn_of (setup_of setup.now) words (world_of self.old (S.seen side.old)))
            result (driver_of self.new) (S.seen side.new)
            × AreFairWords (S.seen side.old) words.two × ((S.seen side.old).heard ≤ words.bell)
            × (self.old.done ≡ false → HeardBy (S.fixed side.old) (S.far side.old) words.bell) }
        ensures told { (S.fixed side.old).told ≡ true → WhereTold (S.far side.old) (λ given.
            Gives (turn_of (setup_of setup.now)
            (words_at (rung_of (S.far side.old).rungs) given (S.seen side.old))
            (world_of self.old (S.seen side.old))) result (driver_of self.new) (S.seen side.new)) }
        ensures sound { IsSound setup.now self.new }
        ensures far { S.far side.new ≡ S.far side.old }
        ensures fixed { S.fixed side.new ≡ S.fixed side.old }
    {
        if self.done {
            return Turn::Done;
        }
        let heard = side.hear();
        self.regain(side);
        self.after_regain(setup, side, heard)
    }

    // Where the table is not held, looks for it.
    #[inline(always)]
    fn regain<S: LaneSide>(&mut self, side: &mut S)
        requires holds { (S.seen side.old).third.holds ≡ is_some self.old.table }
        ensures step { OverThird (S.far side.old) (S.seen side.old) (λ word.
            Is (regain (driver_of self.old) (S.seen side.old) word self.old.table)
            (driver_of self.new) (S.seen side.new)) }
        ensures pair { self.new.pair ≡ self.old.pair }
        ensures losses { self.new.losses ≡ self.old.losses }
        ensures far { S.far side.new ≡ S.far side.old }
        ensures fixed { S.fixed side.new ≡ S.fixed side.old }
    {
        if self.table.is_some() {
            return;
        }
        match side.look_table() {
            Look::Back(table) => self.table = Some(table),
            Look::Out(_) => {}
        }
    }

    // Goes on after the bell was heard and the table looked for.
    #[inline(always)]
    fn after_regain<S: LaneSide>(&mut self, setup: &Setup, side: &mut S, heard: u64) -> Turn
        requires sound { IsSound setup.now self.old }
        requires ready { Ready (setup_of setup.now) (S.fixed side.old) (driver_of self.old)
            (S.seen side.old) }
        requires heard { heard ≡ (S.seen side.old).heard }
        requires bound { heard ≤ 2 ^ 32 }
        ensures step { OverTwo (S.far side.old) (S.seen side.old) (λ two. (third : ℕ) →
            Gives (after_regain (setup_of setup.now) (record { bell = heard; third = third; two = two })
            (world_of self.old (S.seen side.old))) result (driver_of self.new) (S.seen side.new)) }
        ensures sound { IsSound setup.now self.new }
        ensures far { S.far side.new ≡ S.far side.old }
        ensures fixed { S.fixed side.new ≡ S.fixed side.old }
    {
        if self.answers_now(setup, heard) {
            self.answer(setup, side, heard)
        } else {
            self.next_sample(setup, side, heard)
        }
    }

    // Whether the driver answers this value.
    #[inline(always)]
    fn answers_now(&self, setup: &Setup, heard: u64) -> bool
        requires rising { IsRising setup.now.samples.items }
        ensures { result ≡ answers_now (setup_of setup.now) (driver_of self.now) heard }
    {
        heard % 2 == 1
            && self.answered < heard
            && self.table.is_some()
            && self.may_answer(setup, heard)
    }

    // Whether the driver may answer this value.
    fn may_answer(&self, setup: &Setup, heard: u64) -> bool
        requires rising { IsRising setup.now.samples.items }
        ensures { result ≡ may_answer (setup_of setup.now)
            (driver_of self.now) heard setup.now.plan.pace }
    {
        match setup.plan.pace {
            Pace::Free => heard != setup.plan.last || self.at >= setup.samples.len(),
            Pace::Exact => match self.next(setup) {
                Some(sample) => heard / 2 < sample.mark,
                None => true,
            },
        }
    }

    // The next sample.
    #[inline(always)]
    fn next<'a>(&self, setup: &'a Setup) -> Option<&'a Marked>
        ensures { MatchOption result (drop self.now.at setup.now.samples.items ≡ []) (λ s.
            drop self.now.at setup.now.samples.items
            ≡ s.now ∷ drop (self.now.at + 1) setup.now.samples.items) }
    {
        setup.samples.get(self.at)
    }

    // Answers a flush: first the active buffer is handed, then the table.
    fn answer<S: LaneSide>(&mut self, setup: &Setup, side: &mut S, heard: u64) -> Turn
        requires sound { IsSound setup.now self.old }
        requires ready { Ready (setup_of setup.now) (S.fixed side.old) (driver_of self.old)
            (S.seen side.old) }
        requires heard { heard ≡ (S.seen side.old).heard }
        requires bound { heard ≤ 2 ^ 32 }
        ensures step { Gives (answer_with (setup_of setup.now) (world_of self.old
            (S.seen side.old)) heard
            self.old.table) result (driver_of self.new) (S.seen side.new) }
        ensures sound { IsSound setup.now self.new }
        ensures far { S.far side.new ≡ S.far side.old }
        ensures fixed { S.fixed side.new ≡ S.fixed side.old }
    {
        match self.table.take() {
            Some(table) => {
                self.hand_active(setup, side);
                self.hand_table(setup, side, heard, table)
            }
            None => Turn::Idle,
        }
    }

    // Hands the active buffer where there is one.
    fn hand_active<S: LaneSide>(&mut self, setup: &Setup, side: &mut S)
        requires sound { IsSound setup.now self.old }
        requires can { IfSome self.old.pair.active
            (CanHand (setup_of setup.now) (S.fixed side.old) (driver_of self.old) (S.seen side.old)) }
        ensures step { Is (hand_active (setup_of setup.now) (driver_of self.old) (S.seen side.old)
            (driver_of self.old).pair.active) (driver_of self.new) (S.seen side.new) }
        ensures sound { IsSound setup.now self.new }
        ensures table { self.new.table ≡ self.old.table }
        ensures far { S.far side.new ≡ S.far side.old }
        ensures fixed { S.fixed side.new ≡ S.fixed side.old }
    {
        match self.pair.active.take() {
            Some(buffer) => self.hand(setup, side, buffer),
            None => {}
        }
    }

    // Hands the table, which was taken out and answers this value.
    fn hand_table<S: LaneSide>(
        &mut self,
        setup: &Setup,
        side: &mut S,
        answers: u64,
        table: AssocTable,
    ) -> Turn
        requires sound { IsSound setup.now self.old }
        requires gone { self.old.table ≡ None }
        requires can { CanHandTable (setup_of setup.now) (S.fixed side.old) (driver_of self.old)
            (S.seen side.old) answers table }
        ensures step { Gives (ends_with (hand_table (setup_of setup.now) (driver_of self.old)
            (S.seen side.old) answers table) (if answers == setup.now.plan.last then Done else Answered))
            result (driver_of self.new) (S.seen side.new) }
        ensures sound { IsSound setup.now self.new }
        ensures far { S.far side.new ≡ S.far side.old }
        ensures fixed { S.fixed side.new ≡ S.fixed side.old }
    {
        let note = self.table_note(setup, answers);
        side.hand_table(Parcel { note, body: table });
        self.tables += 1;
        self.answered = answers;
        self.done = answers == setup.plan.last;
        if self.done {
            Turn::Done
        } else {
            Turn::Answered
        }
    }

    // The header of the next hand of the table, which answers this value.
    fn table_note(&self, setup: &Setup, answers: u64) -> Note
        requires cpu { setup.now.cpu ≤ LAST_CPU }
        requires at { self.now.at ≤ MOST_SAMPLES }
        requires few { self.now.tables < 2 ^ 62 }
        ensures { result ≡ table_header (setup_of setup.now) (driver_of self.now) answers }
    {
        Note {
            cpu: setup.cpu,
            cell: LAST_CELL,
            number: self.tables + 1,
            upto: self.at as u64,
            answers,
            sent0: self.pair.hands0,
            sent1: self.pair.hands1,
        }
    }

    // Goes on with the next sample, where the bell value heard is this one: none is left, or it is not due, or it is taken.
    #[inline(always)]
    fn next_sample<S: LaneSide>(&mut self, setup: &Setup, side: &mut S, heard: u64) -> Turn
        requires sound { IsSound setup.now self.old }
        requires ready { Ready (setup_of setup.now) (S.fixed side.old) (driver_of self.old)
            (S.seen side.old) }
        requires heard { heard ≡ (S.seen side.old).heard }
        ensures step { OverTwo (S.far side.old) (S.seen side.old) (λ two.
            Gives (next_sample (setup_of setup.now) two heard (world_of self.old (S.seen side.old))
            (drop self.old.at setup.now.samples.items)) result (driver_of self.new) (S.seen side.new)) }
        ensures sound { IsSound setup.now self.new }
        ensures far { S.far side.new ≡ S.far side.old }
        ensures fixed { S.fixed side.new ≡ S.fixed side.old }
    {
        match self.next(setup) {
            Some(sample) => {
                if heard / 2 < sample.mark {
                    return Turn::Held;
                }
                self.take_sample(setup, side, &sample.key)
            }
            None => Turn::Idle,
        }
    }

    // The next sample, of this key, is due.
    #[inline(always)]
    fn take_sample<S: LaneSide>(&mut self, setup: &Setup, side: &mut S, key: &Key) -> Turn
        requires sound { IsSound setup.now self.old }
        requires ready { Ready (setup_of setup.now) (S.fixed side.old) (driver_of self.old)
            (S.seen side.old) }
        requires due { IsDue (setup_of setup.now) (driver_of self.old) (S.seen side.old) key.now }
        ensures step { OverTwo (S.far side.old) (S.seen side.old) (λ two.
            Gives (take_sample (setup_of setup.now) two (world_of self.old (S.seen side.old)) key.now)
            result (driver_of self.new) (S.seen side.new)) }
        ensures sound { IsSound setup.now self.new }
        ensures far { S.far side.new ≡ S.far side.old }
        ensures fixed { S.fixed side.new ≡ S.fixed side.old }
    {
        if self.pair.active.is_some() {
            self.take_held(setup, side, key)
        } else {
            self.take_alone(setup, side, key)
        }
    }

    // The next sample, of this key, is taken, where a buffer is active.
    #[inline(always)]
    fn take_held<S: LaneSide>(&mut self, setup: &Setup, side: &mut S, key: &Key) -> Turn
        requires sound { IsSound setup.now self.old }
        requires active { is_some self.old.pair.active ≡ true }
        requires ready { Ready (setup_of setup.now) (S.fixed side.old) (driver_of self.old)
            (S.seen side.old) }
        requires due { IsDue (setup_of setup.now) (driver_of self.old) (S.seen side.old) key.now }
        ensures step { (b : Contents) → self.old.pair.active ≡ Some b →
            Gives (take_held (setup_of setup.now) (world_of self.old (S.seen side.old)) key.now b.entries)
            result (driver_of self.new) (S.seen side.new) }
        ensures sound { IsSound setup.now self.new }
        ensures far { S.far side.new ≡ S.far side.old }
        ensures fixed { S.fixed side.new ≡ S.fixed side.old }
    {
        match self.take_next(key) {
            Some(entry) => {
                self.push(setup, side, entry);
                Turn::Took
            }
            None => Turn::Took,
        }
    }

    // The next sample, of this key, is due, and no buffer is active.
    fn take_alone<S: LaneSide>(&mut self, setup: &Setup, side: &mut S, key: &Key) -> Turn
        requires sound { IsSound setup.now self.old }
        requires gone { self.old.pair.active ≡ None }
        requires ready { Ready (setup_of setup.now) (S.fixed side.old) (driver_of self.old)
            (S.seen side.old) }
        requires due { IsDue (setup_of setup.now) (driver_of self.old) (S.seen side.old) key.now }
        ensures step { OverTwo (S.far side.old) (S.seen side.old) (λ two.
            Gives (take_sample (setup_of setup.now) two (world_of self.old (S.seen side.old)) key.now)
            result (driver_of self.new) (S.seen side.new)) }
        ensures sound { IsSound setup.now self.new }
        ensures far { S.far side.new ≡ S.far side.old }
        ensures fixed { S.fixed side.new ≡ S.fixed side.old }
    {
        if self.needs_write(key) {
            return self.write_sample(setup, side, key);
        }
        let _nothing = self.take_next(key);
        Turn::Took
    }

    // Whether a sample of this key needs a write.
    fn needs_write(&self, key: &Key) -> bool
        ensures { result ≡ needs_write key.now self.now.table }
    {
        match &self.table {
            Some(table) => table.needs_room(key),
            None => true,
        }
    }

    // Counts the next sample, of this key, and gives what is to be written for it, if anything is.
    #[inline(always)]
    fn take_next(&mut self, key: &Key) -> Option<Entry>
        requires { CanCount (driver_of self.old) }
        ensures step { driver_of self.new ≡ take_next (driver_of self.old) key.now self.old.table }
        ensures written { result ≡ to_write key.now self.old.table }
        ensures pair { self.new.pair ≡ self.old.pair }
        ensures losses { self.new.losses ≡ self.old.losses }
    {
        self.at += 1;
        match &mut self.table {
            Some(table) => tally(&mut self.stats, table.add(*key)),
            None => {
                self.stats.direct += 1;
                Some(Entry {
                    key: *key,
                    count: 1,
                })
            }
        }
    }

    // The next sample, of this key, needs a write, and no buffer is active.
    fn write_sample<S: LaneSide>(&mut self, setup: &Setup, side: &mut S, key: &Key) -> Turn
        requires sound { IsSound setup.now self.old }
        requires gone { self.old.pair.active ≡ None }
        requires ready { Ready (setup_of setup.now) (S.fixed side.old) (driver_of self.old)
            (S.seen side.old) }
        requires due { IsDue (setup_of setup.now) (driver_of self.old) (S.seen side.old) key.now }
        requires needs { needs_write key.now self.old.table ≡ true }
        ensures step { OverTwo (S.far side.old) (S.seen side.old) (λ two.
            Gives (write_sample (setup_of setup.now) two (world_of self.old (S.seen side.old)) key.now)
            result (driver_of self.new) (S.seen side.new)) }
        ensures sound { IsSound setup.now self.new }
        ensures far { S.far side.new ≡ S.far side.old }
        ensures fixed { S.fixed side.new ≡ S.fixed side.old }
    {
        match self.look_both(side) {
            Found::Active => self.take_held(setup, side, key),
            Found::Out { word0, word1 } => self.go_without(setup, key, word0, word1),
        }
    }

    // Looks at the next buffer, then, where that is out, at the other.
    fn look_both<S: LaneSide>(&mut self, side: &mut S) -> Found
        requires next { self.old.pair.next ≤ 1 }
        requires free0 { (S.seen side.old).first.holds ≡ false }
        requires free1 { (S.seen side.old).second.holds ≡ false }
        requires gone { self.old.pair.active ≡ None }
        ensures step { OverTwo (S.far side.old) (S.seen side.old) (λ two.
            Is (look_both two (driver_of self.old) (S.seen side.old) self.old.pair.next)
            (driver_of self.new) (S.seen side.new)) }
        ensures found { Finds (S.seen side.old).buffer
            (S.seen side.new) result self.new.pair.active }
        ensures losses { self.new.losses ≡ self.old.losses }
        ensures far { S.far side.new ≡ S.far side.old }
        ensures fixed { S.fixed side.new ≡ S.fixed side.old }
    {
        let b = self.pair.next;
        match side.look_buffer(b) {
            Look::Back(buffer) => {
                self.pair.active = Some(buffer);
                self.pair.active_number = b;
                Found::Active
            }
            Look::Out(word) => self.look_other(side, 1 - b, word),
        }
    }

    // The second look of a turn, at this buffer; the first read the word `before`.
    fn look_other<S: LaneSide>(&mut self, side: &mut S, b: u8, before: u64) -> Found
        requires number { b ≤ 1 }
        requires free { (slot_of (S.seen side.old) b).holds ≡ false }
        requires before { before ≡ (slot_of (S.seen side.old) (other b)).read }
        requires gone { self.old.pair.active ≡ None }
        ensures step { Is (looked (driver_of self.old) (S.seen side.old) b (slot_of
            (S.seen side.new) b).read)
            (driver_of self.new) (S.seen side.new) }
        ensures fair { IsFairWord (slot_of (S.seen side.old) b) (slot_of (S.seen side.new) b).read }
        ensures told { ReadsBuffer (S.seen side.old) (S.far side.old) b (slot_of
            (S.seen side.new) b).read }
        ensures found { Finds (S.seen side.old).buffer
            (S.seen side.new) result self.new.pair.active }
        ensures losses { self.new.losses ≡ self.old.losses }
        ensures far { S.far side.new ≡ S.far side.old }
        ensures fixed { S.fixed side.new ≡ S.fixed side.old }
    {
        match side.look_buffer(b) {
            Look::Back(buffer) => {
                self.pair.active = Some(buffer);
                self.pair.active_number = b;
                Found::Active
            }
            Look::Out(word) => both_out(b, word, before),
        }
    }

    // Pushes this entry to the active buffer, in place, and hands the buffer if it is full.
    #[inline(always)]
    fn push<S: LaneSide>(&mut self, setup: &Setup, side: &mut S, entry: Entry)
        requires sound { IsSound setup.now self.old }
        requires space { IsSomeAnd self.old.pair.active HasSpace }
        requires can { (b : Contents) → self.old.pair.active ≡ Some b →
            CanHand (setup_of setup.now) (S.fixed side.old) (driver_of self.old) (S.seen side.old) (pushed b entry) }
        ensures step { (b : Contents) → self.old.pair.active ≡ Some b →
            Is (put (setup_of setup.now) (driver_of self.old) (S.seen side.old) (b.entries ++ entry ∷ []))
            (driver_of self.new) (S.seen side.new) }
        ensures sound { IsSound setup.now self.new }
        ensures far { S.far side.new ≡ S.far side.old }
        ensures fixed { S.fixed side.new ≡ S.fixed side.old }
    {
        match self.pair.push(entry) {
            Some(buffer) => self.hand(setup, side, buffer),
            None => {}
        }
    }

    // Hands the active buffer, which was taken out.
    fn hand<S: LaneSide>(&mut self, setup: &Setup, side: &mut S, buffer: Buffer)
        requires sound { IsSound setup.now self.old }
        requires gone { self.old.pair.active ≡ None }
        requires can { CanHand (setup_of setup.now) (S.fixed side.old) (driver_of self.old)
            (S.seen side.old) buffer }
        ensures step { Is (hand_buffer (setup_of setup.now) (driver_of self.old) (S.seen side.old)
            self.old.pair.active_number buffer.entries) (driver_of self.new) (S.seen side.new) }
        ensures sound { IsSound setup.now self.new }
        ensures gone { self.new.pair.active ≡ None }
        ensures table { self.new.table ≡ self.old.table }
        ensures far { S.far side.new ≡ S.far side.old }
        ensures fixed { S.fixed side.new ≡ S.fixed side.old }
    {
        let b = self.pair.active_number;
        self.pair.count_hand();
        let note = self.buffer_note(setup, b);
        side.hand_buffer(b, Parcel { note, body: buffer });
    }

    // The header of a hand of this buffer, which is counted already.
    fn buffer_note(&self, setup: &Setup, b: u8) -> Note
        requires number { b ≤ 1 }
        requires counted { 1 ≤ hands_of (buffers_of self.now.pair) b }
        requires cpu { setup.now.cpu ≤ LAST_CPU }
        requires at { self.now.at ≤ MOST_SAMPLES }
        ensures { result ≡ buffer_header (setup_of setup.now) self.now.at b
            (buffers_of self.now.pair) }
    {
        let (number, upto) = (self.pair.hands_of(b), self.at as u64);
        Note {
            cpu: setup.cpu,
            cell: b,
            number,
            upto,
            answers: 0,
            sent0: self.pair.hands0,
            sent1: self.pair.hands1,
        }
    }

    // Goes without a buffer: both are out, with these words. At the free pace the next sample, of this key, is lost; at the
    // exact one it waits.
    fn go_without(&mut self, setup: &Setup, key: &Key, word0: u64, word1: u64) -> Turn
        requires sound { IsSound setup.now self.old }
        requires count { CanCount (driver_of self.old) }
        requires left { self.old.at < length setup.now.samples.items }
        requires gone { self.old.pair.active ≡ None }
        ensures step { (v : Side) → word0 ≡ v.first.read → word1 ≡ v.second.read →
            Gives (write (setup_of setup.now) (world_of self.old v) key.now setup.now.plan.pace None)
            result (driver_of self.new) v }
        ensures sound { IsSound setup.now self.new }
    {
        match setup.plan.pace {
            Pace::Free => self.lose(key, word0, word1),
            Pace::Exact => Turn::Held,
        }
    }

    // Loses the next sample, of this key: both buffers are out, with these words.
    fn lose(&mut self, key: &Key, word0: u64, word1: u64) -> Turn
        requires count { CanCount (driver_of self.old) }
        requires room { length self.old.losses.items < vec_capacity self.old.losses }
        requires gone { self.old.pair.active ≡ None }
        ensures step { (v : Side) → word0 ≡ v.first.read → word1 ≡ v.second.read →
            Gives (lose (world_of self.old v) key.now) result (driver_of self.new) v }
        ensures sound { (setup : made.Setup) → IsSound setup self.old → IsSound setup self.new }
    {
        let loss = Loss {
            index: self.at as u64,
            event: key.event,
            word0,
            word1,
        };
        match self.losses.push(loss) {
            Ok(()) => {}
            Err(_) => unreachable!(),
        }
        self.at += 1;
        Turn::Lost(loss)
    }
}

// Both buffers are out, with these words: that of the one looked at last, of this number, and that of the other.
fn both_out(last: u8, word: u64, before: u64) -> Found
    ensures { result ≡ both_out last word before }
{
    if last == 0 {
        Found::Out {
            word0: word,
            word1: before,
        }
    } else {
        Found::Out {
            word0: before,
            word1: word,
        }
    }
}

// Counts one sample more in this way, and gives the entry that the table gave out, if any.
#[inline(always)]
fn tally(stats: &mut Stats, added: Added) -> Option<Entry>
    requires { stats.old.folded + stats.old.placed + stats.old.evicted + stats.old.spilt
        + stats.old.direct ≤ MOST_SAMPLES }
    ensures stats { stats.new ≡ tally stats.old (Some added) }
    ensures out { result ≡ given_out added }
{
    match added {
        Added::Folded => {
            stats.folded += 1;
            None
        }
        Added::Placed => {
            stats.placed += 1;
            None
        }
        Added::Evicted(old) => {
            stats.evicted += 1;
            Some(old)
        }
        Added::Spilt(old) => {
            stats.spilt += 1;
            Some(old)
        }
    }
}
