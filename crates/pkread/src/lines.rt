//! Takes lines, byte by byte.

ghost use Rattle.pkread.specs.Private.Arms.{TakesLine};
ghost use Rattle.pkread.specs.Private.Progress.{KeepsRest, intake};

use crate::gathering::Gathering;
use crate::source::Source;
use pkops::Reason;

impl Gathering {
    /// Takes a line of at most `most` bytes and its newline. Refuses a longer line with `TooLarge`.
    pub(crate) fn take_line<R: Source>(&mut self, source: &mut R, most: usize) -> Result<(), Reason>
        ensures keeps { KeepsRest self.old self.new }
        ensures takes { TakesLine most result
            (intake R.left R.failures source.old self.old)
            (intake R.left R.failures source.new self.new) }
    {
        let mut left = most;
        'bytes: loop {
            let byte = self.take_byte(source)?;
            if byte == b'\n' {
                return Ok(());
            }
            if left == 0 {
                return Err(Reason::TooLarge);
            }
            left -= 1;
        }
    }
}
