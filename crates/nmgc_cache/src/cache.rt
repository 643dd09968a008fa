//! The decider: a mutator's operations on the cache, one command after the other.
//!
//! A read reads the weak pointer in the index, its value, and the stamp of that. If there is none, or it is dead, the owner writes
//! the value that it knows anew, and another mutator clears a dead field. A scan only reads, except at its last key. A write makes a value and its
//! weak pointer, puts the value into a ring, and exchanges the index field, once more if another mutator was faster.
ghost use Rattle.std.specs.Prelude.{IfSome};
ghost use Rattle.nmgc_limits.specs.Limits.{most_segment_words};
ghost use Rattle.nmgc_world_spec.specs.World.{Fits};

use crate::known::Known;
use crate::load::{Load, Operation, SCANNED};
use crate::sizes::{Sizes, field_of, index_of, ring_of, shard_of};
use crate::stamp::Stamp;
use crate::tables::{NIL, Setting};
use crate::turns::Turns;
use nmgc_commands::registers::{R16, R17, R18, R19, R20, R21, R22};
use nmgc_commands::{Number, PackedCommand, Register};
use nmgc_decider::Decider;
use nmgc_world_spec::{Reply, Value};

// The registers above the registers of arrays.
const OLD: Register = R16;

const VALUE: Register = R17;

const NUMBER: Register = R18;

const NEW: Register = R19;

const WEAK: Register = R20;

const COUNT: Register = R21;

const RAISED: Register = R22;

// The finalisers are asked for once in this number of values made.
const VALUES_A_DRAIN: u64 = 16;

/// The command to whose reply the decider looks next.
#[derive(Clone, Copy, Debug, PartialEq, Eq)]
enum Step {
    Setting(Setting),
    // The weak pointer of the index, its value, and the value's stamp.
    ReadWeak,
    ReadValue,
    ReadStamp,
    // A dead weak pointer leaves the index.
    Clear,
    // A new value: its stamp, itself and its weak pointer; the count of its ring, which is raised; its place in the ring, the
    // old weak pointer, and the exchange.
    PutNumber,
    PutValue,
    PutWeak,
    ReadCount,
    NextCount,
    RaiseCount,
    Keep,
    ReadOld,
    Exchange,
    // The finalisers.
    Drain,
    // The end: both registers that hold values are cleared, a full cycle comes, and the last finalisers.
    ClearValue,
    ClearNew,
    Collect,
    LastDrain,
    Done,
}

/// The counts of one mutator.
#[derive(Clone, Copy, Debug, PartialEq, Eq)]
pub struct Tally {
    /// Reads. The keys that scans read aren't counted here.
    pub reads: u64,
    pub writes: u64,
    pub scans: u64,
    /// Keys that were read, by reads and scans, whose value was there.
    pub hits: u64,
    /// Keys that were read whose index field was nil.
    pub absent: u64,
    /// Keys that were read whose weak pointer was dead.
    pub dead: u64,
    /// Values made.
    pub made: u64,
    /// Exchanges that came too late, at the index or at a ring.
    pub retries: u64,
    /// Finalisers that came.
    pub evictions: u64,
    /// Replies that none of its commands should have.
    pub refused: u64,
}

impl Tally {
    /// Nothing counted.
    pub const ZERO: Tally = Tally {
        reads: 0,
        writes: 0,
        scans: 0,
        hits: 0,
        absent: 0,
        dead: 0,
        made: 0,
        retries: 0,
        evictions: 0,
        refused: 0,
    };

    /// Returns the sums of two tallies.
    pub fn plus(&self, other: &Tally) -> Tally {
        Tally {
            reads: self.reads.saturating_add(other.reads),
            writes: self.writes.saturating_add(other.writes),
            scans: self.scans.saturating_add(other.scans),
            hits: self.hits.saturating_add(other.hits),
            absent: self.absent.saturating_add(other.absent),
            dead: self.dead.saturating_add(other.dead),
            made: self.made.saturating_add(other.made),
            retries: self.retries.saturating_add(other.retries),
            evictions: self.evictions.saturating_add(other.evictions),
            refused: self.refused.saturating_add(other.refused),
        }
    }
}

/// A mutator's operations on the cache.
#[derive(Drop)]
pub struct Cache {
    sizes: Sizes,
    mutator: u8,
    load: Load,
    /// The plain map.
    pub known: Known,
    /// Its counts.
    pub tally: Tally,
    step: Step,
    // The key of the operation, and the keys of a scan that follow it.
    key: u32,
    scanned: u32,
    // The key and the version of the new value, and its turn at its ring.
    stamp: Stamp,
    turn: u64,
    /// The turns at all rings.
    pub turns: Turns,
}

// Adds one to a count.
fn count(number: &mut u64) {
    *number = number.saturating_add(1);
}

impl Cache {
    /// Makes the decider of a mutator. `first` returns its first command.
    pub fn new(sizes: Sizes, mutator: u8, load: Load, known: Known) -> Self {
        Cache {
            sizes,
            mutator,
            load,
            known,
            tally: Tally::ZERO,
            step: Step::Setting(Setting::new(mutator)),
            key: 0,
            scanned: 0,
            stamp: Stamp { key: 0, version: 0 },
            turn: 0,
            turns: Turns::NONE,
        }
    }

    /// Returns the command with which the decider begins, or `None` if it has none. The clause says only that it fits.
    pub fn first(&self) -> Option<PackedCommand>
        ensures { IfSome result (Fits most_segment_words) }
    {
        Setting::new(self.mutator).command(self.sizes)
    }

    /// Returns whether all operations were done.
    pub fn is_done(&self) -> bool {
        self.step == Step::Done && self.load.left() == 0 && self.tally.refused == 0
    }

    // Goes to a step with its command.
    fn go(&mut self, step: Step, command: PackedCommand) -> Option<PackedCommand>
        requires { Fits most_segment_words command }
        ensures { IfSome result (Fits most_segment_words) }
    {
        self.step = step;
        Some(command)
    }

    // Ends after a reply that can't come.
    fn refuse(&mut self) -> Option<PackedCommand>
        ensures { IfSome result (Fits most_segment_words) }
    {
        count(&mut self.tally.refused);
        self.step = Step::Done;
        None
    }

    // Begins to read this key.
    fn read(&mut self, key: u32) -> Option<PackedCommand>
        ensures { IfSome result (Fits most_segment_words) }
    {
        self.key = key;
        self.go(
            Step::ReadWeak,
            PackedCommand::get(OLD, index_of(key), field_of(key)),
        )
    }

    // Begins to make a value.
    fn put(&mut self, stamp: Stamp) -> Option<PackedCommand>
        ensures { IfSome result (Fits most_segment_words) }
    {
        self.stamp = stamp;
        count(&mut self.tally.made);
        self.go(Step::PutNumber, PackedCommand::num(NUMBER, stamp.number()))
    }

    // Begins the next operation, or the end.
    fn operate(&mut self) -> Option<PackedCommand>
        ensures { IfSome result (Fits most_segment_words) }
    {
        match self.load.next() {
            Some(Operation::Read { key }) => {
                count(&mut self.tally.reads);
                self.read(key)
            }
            Some(Operation::Write { key }) => {
                count(&mut self.tally.writes);
                let stamp = self.known.write(key);
                self.put(stamp)
            }
            Some(Operation::Scan { key }) => {
                count(&mut self.tally.scans);
                self.scanned = SCANNED - 1;
                self.read(key)
            }
            None => self.go(Step::ClearValue, PackedCommand::nil(VALUE)),
        }
    }

    // Goes on after a key was read: with the next key of a scan, or with the next operation.
    fn after_read(&mut self) -> Option<PackedCommand>
        ensures { IfSome result (Fits most_segment_words) }
    {
        if self.scanned == 0 {
            return self.operate();
        }
        self.scanned -= 1;
        let next = self.key.saturating_add(1);
        let key = if next < self.sizes.all_keys() {
            next
        } else {
            0
        };
        self.read(key)
    }

    // Goes on after the value of a key wasn't there: its owner makes it anew.
    fn missed(&mut self, is_dead: bool) -> Option<PackedCommand>
        ensures { IfSome result (Fits most_segment_words) }
    {
        let version = self.known.version(self.key);
        if self.scanned > 0 {
            return self.after_read();
        }
        if self.known.owns(self.key) && version > 0 {
            let key = self.key;
            return self.put(Stamp { key, version });
        }
        if is_dead {
            let command = PackedCommand::cas(index_of(self.key), field_of(self.key), OLD, NIL);
            return self.go(Step::Clear, command);
        }
        self.after_read()
    }

    // Returns the next command of a read.
    fn decide_read(&mut self, reply: Reply) -> Option<PackedCommand>
        ensures { IfSome result (Fits most_segment_words) }
    {
        match (self.step, reply) {
            (Step::ReadWeak, Reply::Given(Value::Ref(_))) => {
                self.go(Step::ReadValue, PackedCommand::deref(VALUE, OLD))
            }
            (Step::ReadWeak, Reply::Given(Value::Nil)) => {
                count(&mut self.tally.absent);
                self.missed(false)
            }
            (Step::ReadValue, Reply::Given(Value::Ref(_))) => {
                self.go(Step::ReadStamp, PackedCommand::get(NUMBER, VALUE, 0))
            }
            (Step::ReadValue, Reply::Dead) => {
                count(&mut self.tally.dead);
                self.missed(true)
            }
            (Step::ReadStamp, Reply::Given(Value::Number(number))) => {
                count(&mut self.tally.hits);
                self.known.read(self.key, Stamp::of_number(number));
                self.after_read()
            }
            (Step::Clear, Reply::Yes | Reply::No) => self.after_read(),
            (_, _) => self.refuse(),
        }
    }

    // Returns the next command of a write.
    fn decide_put(&mut self, reply: Reply) -> Option<PackedCommand>
        ensures { IfSome result (Fits most_segment_words) }
    {
        let key = self.stamp.key;
        match (self.step, reply) {
            (Step::PutNumber, Reply::Fine) => self.go(
                Step::PutValue,
                PackedCommand::pair(NEW, 0, NUMBER, NIL),
            ),
            (Step::PutValue, Reply::Given(_)) => {
                self.go(Step::PutWeak, PackedCommand::weak(WEAK, NEW, NEW, NUMBER))
            }
            (Step::PutWeak, Reply::Given(_)) => self.read_count(),
            (Step::Keep, Reply::Fine) => self.read_old(),
            (Step::ReadOld, Reply::Given(_)) => {
                let command = PackedCommand::cas(index_of(key), field_of(key), OLD, WEAK);
                self.go(Step::Exchange, command)
            }
            (Step::Exchange, Reply::Yes) => self.after_put(),
            (Step::Exchange, Reply::No) => {
                count(&mut self.tally.retries);
                self.read_old()
            }
            (_, _) => self.refuse(),
        }
    }

    // Reads the weak pointer that the new one is to replace.
    fn read_old(&mut self) -> Option<PackedCommand>
        ensures { IfSome result (Fits most_segment_words) }
    {
        let key = self.stamp.key;
        self.go(
            Step::ReadOld,
            PackedCommand::get(OLD, index_of(key), field_of(key)),
        )
    }

    // Goes on after a value was made: with the finalisers, once in a while.
    fn after_put(&mut self) -> Option<PackedCommand>
        ensures { IfSome result (Fits most_segment_words) }
    {
        if self.tally.made % VALUES_A_DRAIN == 0 {
            return self.go(Step::Drain, PackedCommand::nextfin(NUMBER));
        }
        self.operate()
    }

    // Returns the next command while the count of a ring is raised.
    fn decide_count(&mut self, reply: Reply) -> Option<PackedCommand>
        ensures { IfSome result (Fits most_segment_words) }
    {
        let key = self.stamp.key;
        match (self.step, reply) {
            (Step::ReadCount, Reply::Given(Value::Nil)) => self.raise(0),
            (Step::ReadCount, Reply::Given(Value::Number(turn))) => self.raise(turn),
            (Step::NextCount, Reply::Fine) => {
                let command = PackedCommand::cas(ring_of(key), self.sizes.entries, COUNT, RAISED);
                self.go(Step::RaiseCount, command)
            }
            (Step::RaiseCount, Reply::Yes) => {
                self.turns.take(shard_of(key), self.turn);
                let command = PackedCommand::set(ring_of(key), self.place(), NEW);
                self.go(Step::Keep, command)
            }
            (Step::RaiseCount, Reply::No) => {
                count(&mut self.tally.retries);
                self.read_count()
            }
            (_, _) => self.refuse(),
        }
    }

    // Reads the count of the ring of the new value.
    fn read_count(&mut self) -> Option<PackedCommand>
        ensures { IfSome result (Fits most_segment_words) }
    {
        let command = PackedCommand::get(COUNT, ring_of(self.stamp.key), self.sizes.entries);
        self.go(Step::ReadCount, command)
    }

    // Begins to raise the count of a ring, which is `turn`.
    fn raise(&mut self, turn: u64) -> Option<PackedCommand>
        ensures { IfSome result (Fits most_segment_words) }
    {
        let Some(raised) = Number::new(turn.saturating_add(1)) else {
            return self.refuse();
        };
        self.turn = turn;
        self.go(Step::NextCount, PackedCommand::num(RAISED, raised))
    }

    // Returns the place in its ring of the new value.
    fn place(&self) -> u16 {
        (self.turn % u64::from(self.sizes.entries.max(1))) as u16
    }

    // Returns the next command while finalisers are asked for, and at the end.
    fn decide_drain(&mut self, reply: Reply) -> Option<PackedCommand>
        ensures { IfSome result (Fits most_segment_words) }
    {
        match (self.step, reply) {
            (Step::Drain | Step::LastDrain, Reply::Given(Value::Number(number))) => {
                count(&mut self.tally.evictions);
                self.known.evict(Stamp::of_number(number));
                Some(PackedCommand::nextfin(NUMBER))
            }
            (Step::Drain, Reply::Nothing) => self.operate(),
            (Step::ClearValue, Reply::Fine) => self.go(Step::ClearNew, PackedCommand::nil(NEW)),
            (Step::ClearNew, Reply::Fine) => self.go(Step::Collect, PackedCommand::full()),
            (Step::Collect, Reply::Fine) => self.go(
                Step::LastDrain,
                PackedCommand::nextfin(NUMBER),
            ),
            (Step::LastDrain, Reply::Nothing) => {
                self.step = Step::Done;
                None
            }
            (_, _) => self.refuse(),
        }
    }

    // Returns the next command while the arrays are made or found.
    fn decide_setting(&mut self, setting: Setting, reply: Reply) -> Option<PackedCommand>
        ensures { IfSome result (Fits most_segment_words) }
    {
        let setting = setting.after(reply);
        match setting.command(self.sizes) {
            Some(command) => self.go(Step::Setting(setting), command),
            None if setting == Setting::Set => self.operate(),
            None => self.refuse(),
        }
    }
}

impl Decider for Cache {
    ghost steps = { λ p r q. Unit {0} };

    ghost words = { λ p. most_segment_words };

    ghost valid = { λ p. Unit {0} };

    fn decide(&mut self, reply: Reply) -> Option<PackedCommand> {
        match self.step {
            Step::Setting(setting) => self.decide_setting(setting, reply),
            Step::ReadWeak | Step::ReadValue | Step::ReadStamp | Step::Clear => {
                self.decide_read(reply)
            }
            Step::PutNumber
            | Step::PutValue
            | Step::PutWeak
            | Step::Keep
            | Step::ReadOld
            | Step::Exchange => self.decide_put(reply),
            Step::ReadCount | Step::NextCount | Step::RaiseCount => self.decide_count(reply),
            _ => self.decide_drain(reply),
        }
    }
}
