//! What takes the bytes of a form.

ghost use Rattle.std.specs.Prelude.{◌≤◌, ◌++◌, ◌∷◌, [], List, OnOk, length, ℕ};
ghost use Rattle.pkopt.specs.Private.Produced.{between};

/// Takes the bytes of a form, one piece after another.
pub(crate) trait Sink {
    /// Why a piece is not taken.
    type Error;

    // The bytes that were taken between two states of the sink, in order.
    ghost takes: { Self → Self → List ℕ → Type 0 };

    /// Takes one more piece.
    ///
    /// # Errors
    ///
    /// An error ends the form. How much of the piece was taken is then unspecified.
    fn take(&mut self, piece: &[u8]) -> Result<(), Self::Error>
        ensures { OnOk result (takes self.old self.new piece.now) };

    /// Takes the bytes between two offsets as one more piece.
    ///
    /// # Errors
    ///
    /// Those of `take`.
    #[inline(always)]
    fn take_between(&mut self, bytes: &[u8], from: usize, here: usize) -> Result<(), Self::Error>
        requires order { from ≤ here }
        requires within { here ≤ length bytes.now }
        ensures { OnOk result (takes self.old self.new (between from here bytes.now)) }
    {
        self.take(&bytes[from..here])
    }

    /// Takes the bytes between two offsets and two more as one piece.
    ///
    /// # Errors
    ///
    /// Those of `take`.
    #[inline(always)]
    fn take_with_two(
        &mut self,
        bytes: &[u8],
        from: usize,
        here: usize,
        first: u8,
        second: u8,
    ) -> Result<(), Self::Error>
        requires order { from ≤ here }
        requires within { here ≤ length bytes.now }
        ensures { OnOk result (takes self.old self.new
            (between from here bytes.now ++ first ∷ second ∷ [])) }
    {
        self.take_between(bytes, from, here)?;
        self.take(&[first, second])
    }

    ghost takes_none: { (x : Self) → takes x x [] };

    ghost takes_more: { (x y z : Self) (a b : List ℕ)
        → takes x y a → takes y z b → takes x z (a ++ b) };
}
