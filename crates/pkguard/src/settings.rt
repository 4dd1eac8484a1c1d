//! The settings of a check.
ghost use Rattle.std.specs.Prelude.{◌≡◌, ◌==◌, Some};
ghost use Rattle.pkmachine.specs.Policies.{permit_of};
ghost use Rattle.pkguard.specs.Listed.{are_usual, settings_with};
ghost use Rattle.pkguard.specs.Settings.{is_served, limits_within, old_strings_in};
ghost use Rattle.pkguard.specs.Settings.{limits_by, listed_by, loading_by, old_strings_of};

use pkcheck::{Loading, Memo, OldStrings, Permit};
use pklist::Pair;
use pkops::Limits;
use std::cmp;

/// The settings of a check, for C. A limit above its greatest value means that value.
#[repr(C)]
#[derive(Clone, Copy, Debug)]
pub struct Settings {
    /// The size of the settings in bytes. Later versions add fields at the end.
    pub size: u64,
    /// The most bytes in the payload of a counted argument.
    pub counted: u64,
    /// The most stack entries, marks included.
    pub stack: u64,
    /// The most memo entries.
    pub memo: u64,
    /// The most bytes in a byte payload, which is skipped.
    pub passed: u64,
    /// The greatest memo number that an instruction may write to.
    pub numbers: u64,
    /// How Python 2 strings are decoded: 0 as anything, 1 as text if they are ASCII, 2 as bytes.
    pub old_strings: u32,
    /// Whether a row of pickles shares its memo: 0 if each pickle starts with an empty one, 1 if it
    /// is kept.
    pub row_memo: u32,
    /// Whether the limits may be those for large data: 1 if they may, otherwise 0.
    pub large: u32,
    /// Whether the caller vouches for the order of its pairs: 1 if it does, otherwise 0.
    pub sorted: u32,
}

/// The size of this version's settings in bytes.
const SETTINGS_SIZE: u64 = 64;

/// Whether the settings have the size of this version, and each flag is 0 or 1. The decoding of
/// Python 2 strings is checked separately.
fn is_served(settings: &Settings) -> bool
    ensures { result ≡ is_served settings.now }
{
    has_size(settings) && settings.row_memo <= 1 && settings.large <= 1 && settings.sorted <= 1
}

/// Whether the settings have the size of this version.
pub fn has_size(settings: &Settings) -> bool
    ensures { result ≡ (settings.now.size == 64) }
{
    settings.size == SETTINGS_SIZE
}

/// The settings with these limits, and defaults otherwise.
pub fn with_limits(limits: &Limits) -> Settings
    ensures { result ≡ settings_with limits.now }
{
    Settings {
        size: SETTINGS_SIZE,
        counted: limits.counted(),
        stack: limits.stack(),
        memo: limits.memo(),
        passed: limits.passed(),
        numbers: limits.numbers(),
        old_strings: 0,
        row_memo: 0,
        large: if are_usual(limits) { 0 } else { 1 },
        sorted: 0,
    }
}

/// Whether the limits are within the greatest ones without large data.
fn are_usual(limits: &Limits) -> bool
    ensures { result ≡ are_usual limits.now }
{
    limits.counted() <= Limits::GREATEST.counted()
        && limits.stack() <= Limits::GREATEST.stack()
        && limits.memo() <= Limits::GREATEST.memo()
}

/// How Python 2 strings are decoded; `None` if the settings are not supported.
pub fn old_strings_in(settings: &Settings) -> Option<OldStrings>
    ensures { result ≡ old_strings_in settings.now }
{
    if is_served(settings) {
        old_strings_of(settings.old_strings)
    } else {
        None
    }
}

/// How Python 2 strings are decoded, by a number that never changes.
fn old_strings_of(number: u32) -> Option<OldStrings>
    ensures { result ≡ old_strings_of number }
{
    match number {
        0 => Some(OldStrings::Unknown),
        1 => Some(OldStrings::Ascii),
        2 => Some(OldStrings::Bytes),
        _ => None,
    }
}

/// The permitted pairs.
pub fn permit_by<'a>(settings: &Settings, pairs: &'a [Pair<'a>]) -> Permit<'a>
    ensures { permit_of result ≡ Some (listed_by settings.now pairs.entry.now) }
{
    if settings.sorted == 1 {
        Permit::Sorted(pairs)
    } else {
        Permit::Pairs(pairs)
    }
}

/// How the pickles of a row are loaded, with Python 2 strings decoded as `old_strings` says.
pub fn loading_by(settings: &Settings, old_strings: OldStrings) -> Loading
    ensures { result ≡ loading_by settings.now old_strings }
{
    let memo = if settings.row_memo == 1 {
        Memo::Kept
    } else {
        Memo::Fresh
    };
    Loading { memo, old_strings }
}

/// The limits of a check under pairs.
pub fn limits_by(settings: &Settings) -> Limits
    ensures { result ≡ limits_by settings.now }
{
    if settings.large == 1 {
        limits_within(settings, &Limits::GREATEST_LARGE)
    } else {
        limits_within(settings, &Limits::GREATEST)
    }
}

/// The limits of a check with these settings, each at most that in `most`.
pub fn limits_within(settings: &Settings, most: &Limits) -> Limits
    ensures { result ≡ limits_within most.now settings.now }
{
    let limits = Limits::large(
        cmp::min(settings.counted, most.counted()),
        cmp::min(settings.stack, most.stack()),
        cmp::min(settings.memo, most.memo()),
        most.depth(),
        most.values(),
    );
    let Some(limits) = limits else {
        return *most;
    };
    let Some(limits) = limits.with_passed(cmp::min(settings.passed, most.passed())) else {
        return *most;
    };
    match limits.with_numbers(cmp::min(settings.numbers, most.numbers())) {
        Some(limits) => limits,
        None => *most,
    }
}
