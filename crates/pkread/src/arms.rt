//! One arm for each layout of an argument.

ghost use Rattle.std.specs.Prelude.{◌≡◌, ◌∷◌, ◌<◌, ◌≤◌, [], ℕ, length};
ghost use Rattle.pkops.specs.KnownLayout.{IsFixed, field_len};
ghost use Rattle.pkops.specs.Spelling.{layout_at, size_of};
ghost use Rattle.pkops.specs.Table.{code_of};
ghost use Rattle.pkops.specs.declared.Layout.TheVariants as layout;
ghost use Rattle.pkread.specs.Private.Arms.{TakesArgument, TakesCount, TakesSplit};
ghost use Rattle.pkread.specs.Private.Progress.{KeepsRest, intake};
ghost use Rattle.pkread.specs.Private.Reads.{TakesAll};

use crate::admission::{is_good, is_plain, judged};
use crate::gathering::Gathering;
use crate::source::Source;
use pkops::laws::growth;
use pkops::{Arg, Op, Reason, Width, count_behind, is_count, is_utf8};

/// How a count is spelled, and its limit.
#[derive(Clone, Copy, Debug)]
pub(crate) struct Count {
    pub(crate) width: Width,
    pub(crate) signed: bool,
    pub(crate) limit: u64,
}

impl Gathering {
    /// Takes an argument of one byte, and checks it unless the opcode accepts any.
    #[inline(always)]
    pub(crate) fn one_byte<R: Source>(&mut self, source: &mut R, op: Op) -> Result<(), Reason>
        requires code { self.old.buffer.bytes ≡ code_of op ∷ [] }
        requires lay { layout_at op ≡ layout.U1 }
        ensures keeps { KeepsRest self.old self.new }
        ensures takes { (limit : ℕ) → TakesArgument limit op result
            (intake R.left R.failures source.old self.old)
            (intake R.left R.failures source.new self.new) }
    {
        growth();
        self.take_byte(source)?;
        judged(op, 0, self.bytes())
    }

    /// Takes an argument of N bytes, and checks it unless the opcode accepts any.
    #[inline(always)]
    pub(crate) fn fixed<R: Source, const N: usize>(
        &mut self,
        source: &mut R,
        op: Op,
    ) -> Result<(), Reason>
        requires code { self.old.buffer.bytes ≡ code_of op ∷ [] }
        requires fixed { IsFixed (layout_at op) }
        requires width { N ≡ field_len (layout_at op) }
        requires some { 0 < N }
        requires few { N ≤ 8 }
        ensures keeps { KeepsRest self.old self.new }
        ensures takes { (limit : ℕ) → TakesArgument limit op result
            (intake R.left R.failures source.old self.old)
            (intake R.left R.failures source.new self.new) }
    {
        growth();
        self.take_field::<R, N>(source)?;
        judged(op, 0, self.bytes())
    }

    /// Takes the bytes of a count.
    #[inline(always)]
    fn take_width<R: Source>(&mut self, source: &mut R, width: Width) -> Result<(), Reason>
        ensures keeps { KeepsRest self.old self.new }
        ensures takes { TakesAll (size_of width) result
            (intake R.left R.failures source.old self.old)
            (intake R.left R.failures source.new self.new) }
    {
        match width {
            Width::One => {
                self.take_byte(source)?;
                Ok(())
            }
            Width::Four => self.take_field::<R, 4>(source),
            Width::Eight => self.take_field::<R, 8>(source),
        }
    }

    /// Takes the count after the code. Returns it if it is valid and within the limit.
    #[inline(always)]
    pub(crate) fn take_count<R: Source>(
        &mut self,
        source: &mut R,
        op: Op,
        count: Count,
    ) -> Result<usize, Reason>
        requires code { self.old.buffer.bytes ≡ code_of op ∷ [] }
        requires lay { layout_at op ≡ layout.Counted count.width count.signed }
        ensures keeps { KeepsRest self.old self.new }
        ensures few { length self.new.buffer.bytes ≤ 9 }
        ensures takes { TakesCount count result
            (intake R.left R.failures source.old self.old)
            (intake R.left R.failures source.new self.new) }
    {
        growth();
        self.take_width(source, count.width)?;
        let n = count_behind(count.width, self.bytes());
        if !is_count(count.width, count.signed, n) {
            return Err(Reason::BadArgument);
        }
        if n > count.limit {
            return Err(Reason::TooLarge);
        }
        Ok(n as usize)
    }

    /// Takes a count and its payload.
    pub(crate) fn counted<R: Source>(
        &mut self,
        source: &mut R,
        op: Op,
        count: Count,
    ) -> Result<(), Reason>
        requires code { self.old.buffer.bytes ≡ code_of op ∷ [] }
        requires lay { layout_at op ≡ layout.Counted count.width count.signed }
        ensures keeps { KeepsRest self.old self.new }
        ensures takes { TakesArgument count.limit op result
            (intake R.left R.failures source.old self.old)
            (intake R.left R.failures source.new self.new) }
    {
        growth();
        let length = self.take_count(source, op, count)?;
        let head = self.bytes().len();
        self.take_payload(source, length)?;
        if is_plain(op) {
            return Ok(());
        }
        if !is_utf8(&self.bytes()[head..]) {
            return Err(Reason::BadArgument);
        }
        Ok(())
    }

    /// Takes an argument of one line.
    pub(crate) fn one_line<R: Source>(
        &mut self,
        source: &mut R,
        op: Op,
        most: usize,
    ) -> Result<(), Reason>
        requires code { self.old.buffer.bytes ≡ code_of op ∷ [] }
        requires lay { layout_at op ≡ layout.Line most }
        ensures keeps { KeepsRest self.old self.new }
        ensures takes { (limit : ℕ) → TakesArgument limit op result
            (intake R.left R.failures source.old self.old)
            (intake R.left R.failures source.new self.new) }
    {
        growth();
        self.take_line(source, most)?;
        let bytes = self.bytes();
        if !is_good(op, Arg::Line(&bytes[1..bytes.len() - 1])) {
            return Err(Reason::BadArgument);
        }
        Ok(())
    }

    /// Takes an argument of two lines, and returns the length of the first.
    pub(crate) fn two_lines<R: Source>(
        &mut self,
        source: &mut R,
        op: Op,
        most: usize,
    ) -> Result<usize, Reason>
        requires code { self.old.buffer.bytes ≡ code_of op ∷ [] }
        requires lay { layout_at op ≡ layout.Pair most }
        ensures keeps { KeepsRest self.old self.new }
        ensures takes { (limit : ℕ) → TakesSplit limit op result
            (intake R.left R.failures source.old self.old)
            (intake R.left R.failures source.new self.new) }
    {
        growth();
        self.take_line(source, most)?;
        let split = self.bytes().len() - 2;
        self.take_line(source, most)?;
        judged(op, split, self.bytes())?;
        Ok(split)
    }
}
