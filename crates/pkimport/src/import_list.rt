//! Imports borrowed from their owner.

ghost use Rattle.std.specs.List.{slice_get};
ghost use Rattle.std.specs.Prelude.{◌≡◌, length, map, nat_eq, option_map};
ghost use Rattle.pkimport.specs.Import.{import_shown};
ghost use Rattle.pkimport.specs.Private.Entries.{entry_asked};

use crate::import::Import;
use crate::import_table::ListedImport;
use crate::texts::Texts;
use std::marker::Model;

/// Imports in the order in which a pickle makes them, borrowed from their owner. Reading them
/// allocates nothing.
#[derive(Debug, Drop)]
pub struct ImportList<'a> {
    texts: &'a Texts,
    written: &'a Texts,
    entries: &'a [ListedImport],
}

impl<'a> Model for ImportList<'a> {
    ghost use Rattle.std.specs.Prelude.{List, map};
    ghost use Rattle.pkimport.specs.Import.{Asked};
    ghost use Rattle.pkimport.specs.Private.Entries.{entry_asked};

    ghost Value = { List Asked };

    ghost view = { λ l. map (entry_asked l.texts.now l.written.now) l.entries.now };
}

impl<'a> ImportList<'a> {
    /// The imports of these entries, given the texts and the names that they refer to.
    pub(crate) fn new(
        texts: &'a Texts,
        written: &'a Texts,
        entries: &'a [ListedImport],
    ) -> ImportList<'a>
        ensures { result ≡ map (entry_asked texts.entry.now written.entry.now) entries.entry.now }
    {
        ImportList {
            texts,
            written,
            entries,
        }
    }

    /// An import by its number, counted from 0; `None` past the last.
    pub fn get(&self, number: usize) -> Option<Import<'a>>
        ensures { option_map import_shown result ≡ slice_get self.now number }
    {
        match self.entries.get(number) {
            None => None,
            Some(entry) => Some(shown(self.texts, self.written, *entry)),
        }
    }

    /// The number of imports.
    pub fn len(&self) -> usize
        ensures { result ≡ length self.now }
    {
        self.entries.len()
    }

    /// Whether there are none.
    pub fn is_empty(&self) -> bool
        ensures { result ≡ nat_eq (length self.now) 0 }
    {
        self.len() == 0
    }

    /// Iterates over the imports, in order.
    pub fn iter(&self) -> ImportIter<'a>
        ensures { result ≡ self.now }
    {
        ImportIter {
            texts: self.texts,
            written: self.written,
            rest: self.entries,
        }
    }
}

/// The remaining imports of a list. Made by `iter`.
#[derive(Debug, Drop)]
pub struct ImportIter<'a> {
    texts: &'a Texts,
    written: &'a Texts,
    rest: &'a [ListedImport],
}

impl<'a> Model for ImportIter<'a> {
    ghost use Rattle.std.specs.Prelude.{List, map};
    ghost use Rattle.pkimport.specs.Import.{Asked};
    ghost use Rattle.pkimport.specs.Private.Entries.{entry_asked};

    ghost Value = { List Asked };

    ghost view = { λ i. map (entry_asked i.texts.now i.written.now) i.rest.now };
}

impl<'a> Iterator for ImportIter<'a> {
    ghost use Rattle.std.specs.Iterator.{YieldsFirstBy, item_count};
    ghost use Rattle.pkimport.specs.Import.{import_shown};

    type Item = Import<'a>;

    ghost next_gives = { YieldsFirstBy import_shown (λ left. left) };

    ghost remaining = { item_count (λ left. left) };

    /// The next import, or `None` after the last.
    fn next(&mut self) -> Option<Import<'a>> {
        let (first, others) = self.rest.split_first()?;
        self.rest = others;
        Some(shown(self.texts, self.written, *first))
    }
}

/// The import of an entry.
fn shown<'a>(texts: &'a Texts, written: &'a Texts, entry: ListedImport) -> Import<'a>
    ensures { import_shown result ≡ entry_asked texts.now written.now entry }
{
    match entry {
        ListedImport::Unknown => Import::Unknown,
        ListedImport::Made(first, second) => Import::Pair {
            module: texts.get(first as usize),
            name: texts.get(second as usize),
        },
        ListedImport::Written(first, second) => Import::Pair {
            module: written.get(first as usize),
            name: written.get(second as usize),
        },
    }
}
