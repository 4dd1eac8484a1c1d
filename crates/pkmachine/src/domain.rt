//! What a machine keeps of an object beside what it knows about it.

use crate::stack::Operands;
use pkops::{Inst, Op};
use pkstack::Move;

/// What a domain keeps of an object.
pub trait Item: Copy + Drop {
    ghost use Rattle.std.specs.Prelude.{◌≡◌};

    // What a mark has in the place of an item.
    ghost none: { Self };

    /// What a mark has in the place of an item.
    fn none() -> Self
        ensures { result ≡ none };
}

/// Whoever follows the objects of a pickle along with the machine: what each is made of, and what
/// the moves do. An operation that leaves its first operand leaves that one's item.
pub trait Domain: Copy + Drop {
    ghost use Rattle.std.specs.Prelude.{◌≡◌, [], false, map};
    ghost use Rattle.pkmachine.specs.declared.held.Held.{Held};
    ghost use Rattle.pkops.specs.Inst.{instruction_of};
    ghost use Rattle.pkmachine.specs.Following.{Follower, HasLength, is_described};
    ghost use Rattle.pkops.specs.Spelling.{Instruction};

    /// What is kept of an object.
    type Item: Item;

    // What is kept of the object that an instruction makes, and what the domain is after it.
    ghost follows: { Follower Self.Item Self };

    /// Follows an instruction that makes an object without operands.
    fn made(&mut self, inst: &Inst<'_>) -> Self::Item
        ensures item { result ≡ follows.given self.old (instruction_of inst.now) [] }
        ensures state { self.new ≡ follows.after self.old (instruction_of inst.now) [] };

    /// Follows an instruction of `count` bytes that makes an object, whose payload was skipped.
    fn passed(&mut self, op: Op, count: u64) -> Self::Item
        ensures item { (i : Instruction) → HasLength i op count
            → result ≡ follows.given self.old i [] }
        ensures state { (i : Instruction) → HasLength i op count
            → self.new ≡ follows.after self.old i [] };

    /// Follows an operation on these operands, whose object no argument describes.
    fn operated(&mut self, op: Op, operands: &Operands<'_, Self::Item>) -> Self::Item
        requires plain { is_described op ≡ false }
        ensures item { (i : Instruction) → i.op ≡ op
            → result ≡ follows.given self.old i
            (map (λ (held : Held Self.Item). held.item) operands.now) }
        ensures state { (i : Instruction) → i.op ≡ op
            → self.new ≡ follows.after self.old i
            (map (λ (held : Held Self.Item). held.item) operands.now) };

    /// Follows a move, before which so many objects are in the memo.
    fn moved(&mut self, what: Move, kept: u64, inst: &Inst<'_>)
        ensures { self.new ≡ follows.after_move self.old what kept (instruction_of inst.now) };

    /// Follows STOP.
    fn stopped(&mut self)
        ensures { self.new ≡ follows.after_stop self.old };
}
