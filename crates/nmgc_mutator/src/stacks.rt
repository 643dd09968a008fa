//! The commands on a mutator's own words: `push` and `pop` on stacks that it made, and `nextfin` on its queue of finalisers.
//!
//! No other thread writes there. So loads of a stack's slots find its depth, without a position in the order, and one swap is
//! the position of the command. The queue is outside the heap. The load that is the position of `nextfin` shows that the
//! queue's first word is an address within the heap.
//!
//! Easy to get wrong: no word has a stack's depth. It is the number of slots before the first 0, so a `pop` has to leave 0.
ghost use Rattle.std.specs.Prelude.{◌≡◌, ◌+◌, ◌-◌, ◌^◌, ◌<◌, ◌≤◌, [], IfOk, IfErr};
ghost use Rattle.nmgc_world_spec.specs.{Known.IsOperand, Known.IsRegister, World.Fits, declared.command.Command.TheVariants.NextFin, declared.command.Command.TheVariants.Pop, declared.command.Command.TheVariants.Push};
ghost use Rattle.nmgc_object.specs.declared.size.TheConstants.{HEADER_WORDS};
ghost use Rattle.nmgc_round.specs.Seat.{IsAt, Knows, seen, word_count};
ghost use Rattle.nmgc_mutator.specs.{Ready.IsReady, Does.Went, Acts.Acts, Stacks.Owns, Stacks.HasNoStack, Stacks.IsOwnStack, Stacks.HasDepth};

use crate::mutator::Mutator;
use nmgc_commands::PackedCommand;
use nmgc_object::{Address, HEADER_WORDS, NAME_OFFSET, SHARED_PLACE, decode_name};
use nmgc_round::{MutatorSeat, Round};
use nmgc_world_spec::{Kind, Operand, Reply};

// Returns the number of values on a stack of the mutator's own, by a binary search: its slots fill from the bottom up.
fn depth(round: &Round, seat: &mut MutatorSeat, at: Address, slots: u32) -> u32
    requires seat { IsAt round.now seat.old }
    requires own { IsOwnStack (seen seat.old) at.0 slots }
    requires within { at.0 + HEADER_WORDS + slots ≤ word_count round.now }
    ensures view { Knows round.now seat.old seat.new (seen seat.old) }
    ensures depth { 0 < slots → HasDepth (seen seat.old) at.0 result }
    ensures most { result ≤ slots }
{
    let mut low = 0;
    let mut high = slots;
    while low < high {
        let middle = low + (high - low) / 2;
        let word = round.load_slot(seat, at, middle);
        if word == 0 {
            high = middle;
        } else {
            low = middle + 1;
        }
    }
    low
}

impl Mutator {
    // Returns the own stack (address and number of slots) to which an operand refers, or the refusal if it refers to none.
    fn own_stack(
        &self,
        round: &Round,
        seat: &mut MutatorSeat,
        operand: Operand,
    ) -> Result<(Address, u32), Reply>
        requires ready { IsReady round.now seat.old self.now }
        requires operand { IsOperand operand }
        ensures ready { IsReady round.now seat.new self.now }
        ensures went { Went (seen seat.old) (seen seat.new) [] [] }
        ensures found { IfOk result (λ s. Owns round.now (seen seat.new) self.now operand s.0.0 s.1) }
        ensures none { IfErr result (λ reply. HasNoStack (seen seat.new) operand reply) }
    {
        let Some((at, header)) = self.object(round, seat, operand) else {
            return Err(Reply::NoPointer);
        };
        match header.kind {
            Kind::Stack => {}
            _ => return Err(Reply::WrongKind),
        }
        let name = decode_name(round.load_fixed(seat, at, NAME_OFFSET, None));
        match name {
            Some(name) if name.maker == self.number => Ok((at, header.fields)),
            _ => Err(Reply::NotOwner),
        }
    }

    // Does the command `Push`: puts a value on top of a stack of the mutator's own, unless it is full.
    #[inline(always)]
    pub(crate) fn push_value(
        &mut self,
        round: &Round,
        seat: &mut MutatorSeat,
        object: Operand,
        value: Operand,
        command: &PackedCommand,
    ) -> Reply
        requires ready { IsReady round.now seat.old self.old }
        requires serial { self.old.serial < 2 ^ 32 - 1 }
        requires fits { Fits self.old.layout.words command.now }
        requires command { command.now ≡ Push object value }
        requires registers { IsOperand object × IsOperand value }
        requires room { 0 < self.old.recorded.spare }
        ensures { Acts round.now (seen seat.old) seat.new self.old self.new command.now result }
    {
        let (at, slots) = match self.own_stack(round, seat, object) {
            Ok(stack) => stack,
            Err(reply) => return self.refuse(round, seat, command, reply),
        };
        let depth = depth(round, seat, at, slots);
        if depth == slots {
            round.refuse_slot(seat, command);
            return Reply::StackFull;
        }
        let word = self.word(value);
        round.swap_slot(seat, at, depth, word, command);
        self.record(at, depth, word);
        Reply::Fine
    }

    // Does the command `Pop`: takes the value on top of a stack of the mutator's own, if there is one. While marking it owes
    // the value.
    #[inline(always)]
    pub(crate) fn pop_value(
        &mut self,
        round: &Round,
        seat: &mut MutatorSeat,
        dest: u8,
        object: Operand,
        command: &PackedCommand,
    ) -> Reply
        requires ready { IsReady round.now seat.old self.old }
        requires serial { self.old.serial < 2 ^ 32 - 1 }
        requires fits { Fits self.old.layout.words command.now }
        requires command { command.now ≡ Pop dest object }
        requires registers { IsRegister dest × IsOperand object }
        requires room { 0 < self.old.updrem.spare }
        ensures { Acts round.now (seen seat.old) seat.new self.old self.new command.now result }
    {
        let (at, slots) = match self.own_stack(round, seat, object) {
            Ok(stack) => stack,
            Err(reply) => return self.refuse(round, seat, command, reply),
        };
        let depth = depth(round, seat, at, slots);
        if depth == 0 {
            round.refuse_slot(seat, command);
            return Reply::StackEmpty;
        }
        let word = round.swap_slot(seat, at, depth - 1, 0, command);
        self.set_register(dest, word);
        self.push(round.is_marking(), word);
        Reply::Given(self.value(round, seat, Operand::Register(dest)))
    }

    // Does the command `NextFin`: takes the first finaliser that waits for this mutator, if any, into a register.
    #[inline(always)]
    pub(crate) fn next_fin(
        &mut self,
        round: &Round,
        seat: &mut MutatorSeat,
        dest: u8,
        command: &PackedCommand,
    ) -> Reply
        requires ready { IsReady round.now seat.old self.old }
        requires serial { self.old.serial < 2 ^ 32 - 1 }
        requires fits { Fits self.old.layout.words command.now }
        requires command { command.now ≡ NextFin dest }
        requires registers { IsRegister dest }
        ensures { Acts round.now (seen seat.old) seat.new self.old self.new command.now result }
    {
        let Some(word) = self.queue.words().first().copied() else {
            return self.refuse(round, seat, command, Reply::Nothing);
        };
        round.load_fixed(seat, Address(SHARED_PLACE), 0, Some(command));
        let _ = self.queue.take_first();
        self.set_register(dest, word);
        Reply::Given(self.value(round, seat, Operand::Register(dest)))
    }
}
