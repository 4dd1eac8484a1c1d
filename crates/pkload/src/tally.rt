//! What the keys of a pickle cost together.

ghost use Rattle.std.specs.Prelude.{◌≡◌, IfErr, OnOk};
ghost use Rattle.pkload.specs.Private.Gathered.{with_lights};
ghost use Rattle.pkload.specs.Private.Lost.{HasTooGreat};
ghost use Rattle.pkload.specs.Tally.{building, no_tally, with_key};

use crate::halt::{Halt, plus};
use crate::packed::{LIGHT, PackedHeft};

/// What the keys of dicts and the items of sets cost, and whether BUILD takes an imported object.
#[derive(Clone, Copy, Debug, PartialEq, Eq)]
pub struct Tally {
    /// The depth of the deepest key.
    pub levels: u32,
    /// The weight of the heaviest key.
    pub weight: u32,
    /// The weights of all keys together.
    pub work: u64,
    /// The weights of all keys whose hash isn't salted.
    pub clash: u64,
    /// BUILD takes an object that an import answered.
    pub builds: bool,
}

impl Tally {
    /// Nothing was counted.
    pub fn new() -> Tally
        ensures { result ≡ no_tally }
    {
        Tally {
            levels: 0,
            weight: 0,
            work: 0,
            clash: 0,
            builds: false,
        }
    }

    /// The tally, where BUILD may have taken an imported object.
    pub(crate) fn building(self, builds: bool) -> Tally
        ensures { result ≡ building builds self }
    {
        Tally {
            builds: self.builds || builds,
            ..self
        }
    }

    /// Counts one more key.
    pub(crate) fn add(&mut self, key: PackedHeft) -> Result<(), Halt>
        ensures ok { OnOk result (self.new ≡ with_key self.old key) }
        ensures err { IfErr result (HasTooGreat (with_key self.old key)) }
    {
        if key.code() == LIGHT {
            return self.add_lights(1, 0);
        }
        let weight = key.weight();
        let clash = if key.is_salted() { 0 } else { weight };
        self.work = plus(self.work, u64::from(weight))?;
        self.clash = plus(self.clash, u64::from(clash))?;
        self.levels = self.levels.max(key.depth());
        self.weight = self.weight.max(weight);
        Ok(())
    }

    /// Counts keys that weigh one, so many with an unsalted hash and so many with a salted one.
    pub(crate) fn add_lights(&mut self, plain: u64, salted: u64) -> Result<(), Halt>
        ensures ok { OnOk result (self.new ≡ with_lights plain salted self.old) }
        ensures err { IfErr result (HasTooGreat (with_lights plain salted self.old)) }
    {
        let all = plus(plain, salted)?;
        self.work = plus(self.work, all)?;
        self.clash = plus(self.clash, plain)?;
        self.weight = self.weight.max(if all > 0 { 1 } else { 0 });
        Ok(())
    }
}
