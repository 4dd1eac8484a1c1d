//! A list as an array of pairs, which the caller owns.
//!
//! A hit by binary search is valid whatever the order. A miss falls back to a scan, at most once in
//! a check, since a miss ends it, and never if the caller vouches for the order.

ghost use Rattle.std.specs.Prelude.{◌≡◌};
ghost use Rattle.pklist.specs.Pairs.{found, have};

use std::cmp::Ordering;

/// A pair of a module and a name. Names that are not UTF-8 permit nothing.
#[repr(C)]
#[derive(Clone, Copy, Debug)]
pub struct Pair<'a> {
    /// The module.
    pub module_name: &'a [u8],
    /// The name in it.
    pub name: &'a [u8],
}

/// Whether one of the pairs has this module and this name, both compared byte for byte.
///
/// If the pairs are sorted by module and then by name, a listed pair is found in logarithmic time.
pub fn have(pairs: &[Pair<'_>], module_name: &[u8], name: &[u8]) -> bool
    ensures { result ≡ have pairs.now module_name.now name.now }
{
    found(pairs, module_name, name)
        || pairs.iter().any(|pair| pair.module_name == module_name && pair.name == name)
}

/// Whether a binary search finds the pair, as it does if the pairs are sorted.
pub fn found(pairs: &[Pair<'_>], module_name: &[u8], name: &[u8]) -> bool
    ensures { result ≡ found pairs.now module_name.now name.now }
{
    let mut low = 0;
    let mut high = pairs.len();
    'halves: while low < high {
        let middle = low + (high - low) / 2;
        let pair = &pairs[middle];
        match pair.module_name.cmp(module_name).then(pair.name.cmp(name)) {
            Ordering::Less => low = middle + 1,
            Ordering::Equal => return true,
            Ordering::Greater => high = middle,
        }
    }
    false
}
