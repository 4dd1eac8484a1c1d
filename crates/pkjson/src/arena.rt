//! The stack, the memo and the objects of a plain run.

ghost use Rattle.std.specs.Prelude.{◌≡◌, length, drop, true, IfErr, OnOk, MatchOption};
ghost use Rattle.std.specs.Prelude.{Ok, None};
ghost use Rattle.pkops.specs.Inst.{instruction_of};
ghost use Rattle.pkstack.specs.Shape.{and_then, top};
ghost use Rattle.pkjson.specs.Private.Arena.{no_object, are_text_kinds};
ghost use Rattle.pkjson.specs.Private.PlainActions.{picked, found_above, made_of, filled_of, acted};
ghost use Rattle.pkjson.specs.Private.PlainActions.{keys_acted};
ghost use Rattle.pkjson.specs.Private.PlainActions.{fault_acted, IsLacking};
ghost use Rattle.pkjson.specs.Private.Halts.{IsWant, IsHalted};
ghost use Rattle.pkjson.specs.Plain.{every_other, taken};
ghost use Rattle.pkjson.specs.Private.Kinds.{kind_seen};
ghost use Rattle.pkjson.specs.Private.Mirrors.{EntriesBelow};
ghost use Rattle.pkjson.specs.Private.Held.{parts};

use crate::action::{Action, Filled, Made, Takes};
use crate::halt::Halt;
use crate::kinds::{Kind, kind_of};
use crate::moves::{MemoTable, apply};
use crate::objects::{Object, fill, make};
use crate::slots::{Slot, place_of, receiver_of, top};
use crate::texts::keys_are_texts;
use pkops::Inst;
use std::alloc::Global;

/// The stack and the memo, which refer to objects by number, and the objects.
pub struct Arena<'a> {
    pub stack: Vec<Slot>,
    pub memo: MemoTable,
    pub objects: Vec<Object<'a>>,
}

impl<'a> Drop for Arena<'a> {
    fn drop(self) {
        let Arena {
            stack: _stack,
            memo: _memo,
            objects: _objects,
        } = self;
    }
}

impl<'a> Arena<'a> {
    /// An empty arena.
    pub fn new(alloc: Global) -> Arena<'a>
        ensures { parts result ≡ no_object }
    {
        Arena {
            stack: Vec::new(alloc),
            memo: MemoTable::new(alloc, 0),
            objects: Vec::new(alloc),
        }
    }

    /// The objects, without the stack and the memo.
    pub fn into_objects(self) -> Vec<Object<'a>>
        ensures { result ≡ self.entry.objects }
    {
        let Arena {
            stack: _stack,
            memo: _memo,
            objects,
        } = self;
        objects
    }

    /// The number of the object on top of the stack; `None` if the top is a mark or missing.
    pub fn top(&self) -> Option<u32>
        ensures { MatchOption result (IsLacking (top (parts self.now).shape.entries))
            (λ n. top (parts self.now).shape.entries
            ≡ Ok (n, drop 1 (parts self.now).shape.entries)) }
    {
        top(&self.stack)
    }

    /// Whether the keys that an action sets are text.
    fn sets_texts(&self, action: Action) -> bool
        ensures { result ≡ are_text_kinds (parts self.now).kept
            (keys_acted action (parts self.now).shape.entries) }
    {
        match action {
            Action::Makes(takes, Made::Pairs) => self.texts_above(takes),
            Action::Fills(takes, Filled::Pairs) => self.texts_above(takes),
            _ => true,
        }
    }

    /// Whether the keys among the operands are text.
    fn texts_above(&self, takes: Takes) -> bool
        ensures { result ≡ are_text_kinds (parts self.now).kept
            (every_other true (taken (picked takes (parts self.now).shape.entries))) }
    {
        match place_of(&self.stack, takes) {
            Some(place) => keys_are_texts(&self.objects, &self.stack[place..]),
            None => true,
        }
    }

    /// Makes an object from the operands.
    fn make(&mut self, alloc: Global, takes: Takes, kind: Kind<'a>) -> Result<(), Halt>
        ensures ok { OnOk result (and_then (picked takes (parts self.old).shape.entries)
            (λ t. Ok (made_of (kind_seen kind.entry) t (parts self.old))) ≡ Ok (parts self.new)) }
        ensures err { IfErr result (IsWant (picked takes (parts self.old).shape.entries)) }
    {
        let Some(place) = place_of(&self.stack, takes) else {
            return Err(Halt::Lacks);
        };
        match make(alloc, &mut self.stack, &mut self.objects, place, kind) {
            Ok(()) => Ok(()),
            Err(_) => Err(Halt::OutOfMemory),
        }
    }

    /// Gives the operands to the object below them.
    fn fill(&mut self, alloc: Global, takes: Takes) -> Result<(), Halt>
        requires { EntriesBelow (length (parts self.old).kept) (parts self.old).shape.entries }
        ensures ok { OnOk result (and_then (found_above takes (parts self.old).shape.entries)
            (λ t. Ok (filled_of t (parts self.old))) ≡ Ok (parts self.new)) }
        ensures err { IfErr result (IsWant (found_above takes (parts self.old).shape.entries)) }
    {
        let Some((place, receiver)) = receiver_of(&self.stack, takes) else {
            return Err(Halt::Lacks);
        };
        match fill(alloc, &mut self.stack, &mut self.objects, place, receiver) {
            Ok(()) => Ok(()),
            Err(_) => Err(Halt::OutOfMemory),
        }
    }

    /// Applies a plain instruction other than STOP.
    pub fn act(&mut self, alloc: Global, action: Action, inst: &Inst<'a>) -> Result<(), Halt>
        requires { EntriesBelow (length (parts self.old).kept) (parts self.old).shape.entries }
        ensures ok { OnOk result
            ((fault_acted action (instruction_of inst.now) (parts self.old) ≡ None)
            × (acted action (instruction_of inst.now) (parts self.old) ≡ Ok (parts self.new))) }
        ensures err { IfErr result (IsHalted action (instruction_of inst.now) (parts self.old)) }
    {
        if !self.sets_texts(action) {
            return Err(Halt::OtherKey);
        }
        match action {
            Action::Makes(takes, made) => match kind_of(alloc, made, inst) {
                Ok(kind) => self.make(alloc, takes, kind),
                Err(halt) => Err(halt),
            },
            Action::Fills(takes, _) => self.fill(alloc, takes),
            Action::Moves(what) => {
                apply(
                    &mut self.stack,
                    &mut self.memo,
                    what,
                    inst.memo_number().unwrap_or(0),
                )
            }
            Action::Stops => Ok(()),
        }
    }
}
