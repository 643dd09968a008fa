//! The commands on words that several threads change: `cas`, `update`, `force`, `deref` and `finalise`.
//!
//! Each takes its place in the order by one step of the round. The words that it loads before and after never change.
//!
//! Easy to get wrong: `update` and `finalise` owe more than the word of that step, and owe it from that very step on. So a
//! thunk's free variables and a weak pointer's finaliser are loaded before it: by then the seat must name them.
ghost use Rattle.std.specs.Prelude.{◌≡◌, ◌+◌, length, ◌-◌, ◌^◌, ◌<◌, ◌≤◌, []};
ghost use Rattle.nmgc_world_spec.specs.{Known.IsOperand, Known.IsRegister, World.Fits, declared.command.Command.TheVariants.Cas, declared.command.Command.TheVariants.Deref, declared.command.Command.TheVariants.Finalise, declared.command.Command.TheVariants.Force, declared.command.Command.TheVariants.Update, declared.node.Kind.TheVariants.Thunk};
ghost use Rattle.nmgc_object.specs.{declared.words.Header.Header, declared.size.TheConstants.HEADER_WORDS, declared.words.TheConstants.WEAK_FIELDS};
ghost use Rattle.nmgc_round.specs.{Ready.Names, View.plain, View.hand_now, View.leaves, Known.known_answer, Known.CanAnswer, Seat.seen, Seat.word_count};
ghost use Rattle.nmgc_mutator.specs.{declared.mutator.TheConstants.MOST_PUSHED, Thunks.AreLoaded, Ready.IsReady, Ready.part_of, Ready.hand_in, Records.recorded_by, Records.noted_by, Records.weaks_by, Acts.Acts, Acts.most_pushed};

use crate::mutator::{MOST_PUSHED, Mutator};
use nmgc_commands::PackedCommand;
use nmgc_object::{Address, FieldWord, HEADER_WORDS};
use nmgc_round::{Exchanged, MutatorSeat, Round};
use nmgc_world_spec::{Kind, Operand, Reply};

impl Mutator {
    // Refuses a command by the load of the header of g, and returns `reply`. It calls `answer_in_order`, but ensures more:
    // `Acts`, so that nothing of any kind was noted. Note [Where a command takes its place in the order] is in `commands`.
    pub(crate) fn refuse(
        &self,
        round: &Round,
        seat: &mut MutatorSeat,
        command: &PackedCommand,
        reply: Reply,
    ) -> Reply
        requires ready { IsReady round.now seat.old self.now }
        requires known { CanAnswer (seen seat.old).opening (part_of (seen seat.old)) command.now }
        requires reply { known_answer (hand_now (seen seat.old).opening (part_of (seen seat.old))) (part_of (seen seat.old)).fixed command.now ≡ plain reply }
        requires left { leaves (hand_now (seen seat.old).opening (part_of (seen seat.old))) command.now (plain reply) ≡
            hand_now (seen seat.old).opening (part_of (seen seat.old)) }
        requires unrecorded { recorded_by self.now.layout self.now.registers command.now (plain reply) ≡ [] }
        requires unnoted { noted_by self.now.layout (hand_in (seen seat.old)) command.now (plain reply) ≡ [] }
        requires no_weak { (weaks_by command.now (plain reply) ≡ []) × (1 ≤ most_pushed command.now) }
        ensures does { Acts round.now (seen seat.old) seat.new self.now self.now command.now reply }
        ensures reply { result ≡ reply }
    {
        self.answer_in_order(round, seat, command, reply)
    }

    // Does the command `Cas`: writes a field of a variable or an array if it has the expected value. While marking it owes
    // this value.
    #[inline(always)]
    pub(crate) fn cas(
        &mut self,
        round: &Round,
        seat: &mut MutatorSeat,
        object: Operand,
        index: u32,
        expected: Operand,
        value: Operand,
        command: &PackedCommand,
    ) -> Reply
        requires ready { IsReady round.now seat.old self.old }
        requires serial { self.old.serial < 2 ^ 32 - 1 }
        requires fits { Fits self.old.layout.words command.now }
        requires command { command.now ≡ Cas object index expected value }
        requires registers { IsOperand object × IsOperand expected × IsOperand value }
        requires room { (0 < self.old.recorded.spare) × (0 < self.old.updrem.spare) }
        ensures { Acts round.now (seen seat.old) seat.new self.old self.new command.now result }
    {
        let Some((at, header)) = self.object(round, seat, object) else {
            return self.refuse(round, seat, command, Reply::NoPointer);
        };
        match header.kind {
            Kind::Var | Kind::Arr => {}
            Kind::Con => return self.refuse(round, seat, command, Reply::Fixed),
            _ => return self.refuse(round, seat, command, Reply::WrongKind),
        }
        if index >= header.fields {
            return self.refuse(round, seat, command, Reply::NoField);
        }
        let word = self.word(value);
        let before = self.word(expected);
        match round.exchange_field(seat, at, index, before, word, command) {
            Exchanged::No { .. } => Reply::No,
            Exchanged::Yes => {
                self.record(at, index, word);
                self.push(round.is_marking(), before);
                Reply::Yes
            }
        }
    }

    // Does the command `Force`: reads the result of a thunk, if it has one, into a register.
    #[inline(always)]
    pub(crate) fn force(
        &mut self,
        round: &Round,
        seat: &mut MutatorSeat,
        dest: u8,
        object: Operand,
        command: &PackedCommand,
    ) -> Reply
        requires ready { IsReady round.now seat.old self.old }
        requires serial { self.old.serial < 2 ^ 32 - 1 }
        requires fits { Fits self.old.layout.words command.now }
        requires command { command.now ≡ Force dest object }
        requires registers { IsRegister dest × IsOperand object }
        ensures { Acts round.now (seen seat.old) seat.new self.old self.new command.now result }
    {
        let Some((at, header)) = self.object(round, seat, object) else {
            return self.refuse(round, seat, command, Reply::NoPointer);
        };
        match header.kind {
            Kind::Thunk => {}
            _ => return self.refuse(round, seat, command, Reply::WrongKind),
        }
        let word = round.load_result(seat, at, command);
        if word == 0 {
            return Reply::Nothing;
        }
        self.set_register(dest, word);
        Reply::Given(self.value(round, seat, Operand::Register(dest)))
    }

    // Does the command `Deref`: reads the value of a weak pointer, if it is alive, into a register. While marking it owes the
    // value.
    #[inline(always)]
    pub(crate) fn deref(
        &mut self,
        round: &Round,
        seat: &mut MutatorSeat,
        dest: u8,
        object: Operand,
        command: &PackedCommand,
    ) -> Reply
        requires ready { IsReady round.now seat.old self.old }
        requires serial { self.old.serial < 2 ^ 32 - 1 }
        requires fits { Fits self.old.layout.words command.now }
        requires command { command.now ≡ Deref dest object }
        requires registers { IsRegister dest × IsOperand object }
        requires room { 0 < self.old.updrem.spare }
        ensures { Acts round.now (seen seat.old) seat.new self.old self.new command.now result }
    {
        let Some((at, header)) = self.object(round, seat, object) else {
            return self.refuse(round, seat, command, Reply::NoPointer);
        };
        match header.kind {
            Kind::Weak => {}
            _ => return self.refuse(round, seat, command, Reply::WrongKind),
        }
        let word = round.load_weak(seat, at, command);
        if word == 0 {
            return Reply::Dead;
        }
        self.set_register(dest, word);
        self.push(round.is_marking(), word);
        Reply::Given(self.value(round, seat, Operand::Register(dest)))
    }

    // Does the command `Finalise`: kills a weak pointer, if it is alive, and takes its finaliser into a register. While
    // marking it owes the weak pointer, its value and its finaliser. A weak pointer in a segment is noted for the stop.
    #[inline(always)]
    pub(crate) fn finalise(
        &mut self,
        round: &Round,
        seat: &mut MutatorSeat,
        dest: u8,
        object: Operand,
        command: &PackedCommand,
    ) -> Reply
        requires ready { IsReady round.now seat.old self.old }
        requires serial { self.old.serial < 2 ^ 32 - 1 }
        requires fits { Fits self.old.layout.words command.now }
        requires command { command.now ≡ Finalise dest object }
        requires registers { IsRegister dest × IsOperand object }
        requires room { (WEAK_FIELDS ≤ self.old.updrem.spare) × (0 < self.old.finalised.spare) }
        ensures { Acts round.now (seen seat.old) seat.new self.old self.new command.now result }
    {
        let Some((at, header)) = self.object(round, seat, object) else {
            return self.refuse(round, seat, command, Reply::NoPointer);
        };
        match header.kind {
            Kind::Weak => {}
            _ => return self.refuse(round, seat, command, Reply::WrongKind),
        }
        let finaliser = round.load_fixed(seat, at, HEADER_WORDS + 2, None);
        let word = round.swap_weak(seat, at, command);
        if word == 0 {
            return Reply::Dead;
        }
        self.set_register(dest, finaliser);
        let owed = [FieldWord::of_place(at.0).0, word, finaliser];
        self.push_words(round.is_marking(), &owed);
        self.note_finalised(at);
        Reply::Given(self.value(round, seat, Operand::Register(dest)))
    }

    // Loads the free variables of a thunk into `free`. They never change, and the seat names them from then on.
    #[inline(always)]
    fn load_free(&self, round: &Round, seat: &mut MutatorSeat, at: Address, free: &mut [u64])
        requires ready { IsReady round.now seat.old self.now }
        requires thunk { (header : Header) × Names (part_of (seen seat.old)) at.0 header × (header.kind ≡ Thunk) ×
            (length free.old + 1 ≡ header.fields) × (at.0 + HEADER_WORDS + header.fields ≤ word_count round.now) }
        ensures { AreLoaded round.now (seen seat.old) seat.new self.now at.0 free.new (length free.new) }
    {
        for index in 0..free.len() {
            free[index] = round.load_fixed(seat, at, HEADER_WORDS + 1 + index as u32, None);
        }
    }

    // Does the command `Update`: gives a thunk a result if it has none. While marking it owes the thunk's free variables.
    #[inline(always)]
    pub(crate) fn update(
        &mut self,
        round: &Round,
        seat: &mut MutatorSeat,
        object: Operand,
        value: Operand,
        command: &PackedCommand,
    ) -> Reply
        requires ready { IsReady round.now seat.old self.old }
        requires serial { self.old.serial < 2 ^ 32 - 1 }
        requires fits { Fits self.old.layout.words command.now }
        requires command { command.now ≡ Update object value }
        requires registers { IsOperand object × IsOperand value }
        requires room { (0 < self.old.recorded.spare) × (MOST_PUSHED ≤ self.old.updrem.spare) }
        ensures { Acts round.now (seen seat.old) seat.new self.old self.new command.now result }
    {
        let Some((at, header)) = self.object(round, seat, object) else {
            return self.refuse(round, seat, command, Reply::NoPointer);
        };
        match header.kind {
            Kind::Thunk => {}
            _ => return self.refuse(round, seat, command, Reply::WrongKind),
        }
        let mut words = [0u64; MOST_PUSHED as usize];
        let free = &mut words[..header.fields as usize - 1];
        self.load_free(round, seat, at, free);
        let word = self.word(value);
        match round.exchange_result(seat, at, word, command) {
            Exchanged::No { .. } => Reply::Already,
            Exchanged::Yes => {
                self.record(at, 0, word);
                self.push_words(round.is_marking(), free);
                Reply::Updated
            }
        }
    }
}
