//! Objects that are made of the bytes of an argument.

ghost use Rattle.std.specs.Prelude.{◌≡◌, ◌+◌, [], length, OnOk};
ghost use Rattle.pkload.specs.Heft.{heft_made};
ghost use Rattle.pkload.specs.Memory.{text_memory};
ghost use Rattle.pkload.specs.Private.Billing.{light, pushed, reading_memory, string_heft};

use super::Machine;
use crate::halt::{Halt, plus};
use crate::making::{made_long, made_text};
use crate::memory::{MOST, after_text, line_memory};
use crate::packed::PackedHeft;
use pkops::{Op, is_ascii};

/// A text of fewer bytes weighs one.
const LONG: u64 = 64;

impl Machine {
    /// Pushes a text of these bytes. Returns false, as do all here, since none counts a key. A
    /// short text in ASCII for which there is room, the most frequent case, calls nothing. Inlined
    /// it would cost every instruction more, because the loop has no register left.
    #[inline(never)]
    #[tactic(auto, using(crate::proofs::ShortTexts::short_text))]
    pub(super) fn read_text(&mut self, bytes: &[u8]) -> Result<bool, Halt>
        ensures { OnOk result (self.new ≡ pushed (string_heft (length bytes.now))
            (16 + text_memory bytes.now) self.old) }
    {
        let size = bytes.len() as u64;
        if size >= LONG || !is_ascii(bytes) {
            return self.read_any_text(bytes);
        }
        let memory = plus(self.memory, 80 + size)?;
        if !self.stack.push_within_capacity(made_text(size)) {
            return self.read_any_text(bytes);
        }
        self.memory = memory;
        Ok(false)
    }

    /// `read_text` of any text.
    #[inline(never)]
    fn read_any_text(&mut self, bytes: &[u8]) -> Result<bool, Halt>
        ensures { OnOk result (self.new ≡ pushed (string_heft (length bytes.now))
            (16 + text_memory bytes.now) self.old) }
    {
        self.memory = after_text(bytes, self.memory)?;
        self.stack.push(made_text(bytes.len() as u64))?;
        Ok(false)
    }

    /// Pushes bytes, or a string of Python 2.
    #[inline(always)]
    pub(super) fn hold(&mut self, size: u64) -> Result<bool, Halt>
        ensures { OnOk result (self.new ≡ pushed (string_heft size) (80 + size) self.old) }
    {
        if size > MOST {
            return Err(Halt::Lost);
        }
        self.make(made_text(size), 80 + size)
    }

    /// Pushes a bytearray.
    #[inline(always)]
    pub(super) fn hold_array(&mut self, size: u64) -> Result<bool, Halt>
        ensures { OnOk result (self.new ≡ pushed light (112 + size) self.old) }
    {
        if size > MOST {
            return Err(Halt::Lost);
        }
        self.make(PackedHeft::new(1, 0, false, false), 112 + size)
    }

    /// Pushes what is made of these bytes. What has an action of its own isn't read.
    pub(super) fn read(&mut self, op: Op, bytes: &[u8]) -> Result<bool, Halt>
        ensures { OnOk result (self.new ≡ pushed (heft_made op (length bytes.now) [])
            (reading_memory op bytes.now) self.old) }
    {
        let size = bytes.len() as u64;
        if size > MOST {
            return Err(Halt::Lost);
        }
        match op {
            Op::Long1 | Op::Long4 => self.make(made_long(size), 48 + size * 8 / 7),
            Op::Int | Op::Long => self.make(made_long(size), 48 + size / 2),
            Op::Float => self.make(PackedHeft::new(1, 0, false, false), 48),
            Op::String | Op::BinString | Op::ShortBinString => self.hold(size),
            Op::BinBytes | Op::ShortBinBytes | Op::BinBytes8 => self.hold(size),
            Op::ByteArray8 => self.hold_array(size),
            Op::Unicode => self.make(made_text(size), 16 + line_memory(bytes)),
            Op::Global => self.make(PackedHeft::new(1, 0, true, true), 16),
            Op::PersId | Op::NextBuffer => self.make(PackedHeft::new(1, 0, true, false), 16),
            _ => Err(Halt::Lost),
        }
    }
}
