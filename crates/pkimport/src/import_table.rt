//! The texts that a pickle makes and the imports that it requests. Imports refer to texts by
//! number.
ghost use Rattle.std.specs.Prelude.{◌≡◌, ◌<◌, ℕ, List, ◌∷◌, ◌++◌, [], drop, length, take};
ghost use Rattle.std.specs.Prelude.{get_or, is_some, map, option_map, IfOk, IfErr, IsSome};
ghost use Rattle.std.specs.Prelude.{OnErr, OnOk, false, true};
ghost use Rattle.pkimport.specs.Import.{AskedPair, asks_more};
ghost use Rattle.pkimport.specs.Private.Entries.{AreCopies, AreEntries, IsEntry, KeepsCopies};
ghost use Rattle.pkimport.specs.Private.Entries.{entry_asked};
ghost use Rattle.pkimport.specs.Table.{IsNamed, IsNamedIf, HasMoreTexts, named_asked};
ghost use Rattle.std.specs.Str.{IsUtf8};

use crate::import::Named;
use crate::import_list::ImportList;
use crate::texts::Texts;
use pkops::Reason;
use std::alloc::{AllocError, Global};
use std::marker::Model;

/// A listed import.
#[derive(Clone, Copy, Debug)]
pub enum ListedImport {
    /// The pair is unknown.
    Unknown,
    /// The module and the name are the texts with these numbers.
    Made(u32, u32),
    /// The module and the name are the names in `written` with these numbers.
    Written(u32, u32),
}

/// The texts that a pickle makes and the imports that it requests. An import takes the memory of
/// one entry. If an instruction spells the pair, its names take memory too, as they do in the
/// pickle.
#[derive(Debug)]
pub struct ImportTable {
    texts: Texts,
    /// The names that are not in `texts`.
    written: Texts,
    entries: Vec<ListedImport>,
}

impl Drop for ImportTable {
    fn drop(self) {
        let ImportTable {
            texts: _texts,
            written: _written,
            entries: _entries,
        } = self;
    }
}

impl Model for ImportTable {
    ghost use Rattle.std.specs.Prelude.{length, map};
    ghost use Rattle.pkimport.specs.Private.Entries.{AreEntries, entry_asked};
    ghost use Rattle.pkimport.specs.Table.{Noted};

    ghost Value = { Noted };

    ghost view = { λ l. record {
      texts = l.texts;
      asked = map (entry_asked l.texts l.written) l.entries.items;
    } };

    ghost invariant = { λ l. AreEntries (length l.texts) (length l.written) l.entries.items };
}

impl ImportTable {
    /// No texts and no imports. Allocates nothing.
    pub fn new(alloc: Global) -> ImportTable
        ensures { result ≡ record { texts = []; asked = [] } }
    {
        ImportTable {
            texts: Texts::new(alloc),
            written: Texts::new(alloc),
            entries: Vec::new(alloc),
        }
    }

    /// Removes everything, and keeps the memory.
    pub fn clear(&mut self)
        ensures { self.new ≡ record { texts = []; asked = [] } }
    {
        self.texts.clear();
        self.written.clear();
        self.entries.clear();
    }

    /// The number of texts.
    pub fn texts(&self) -> usize
        ensures { result ≡ length self.now.texts }
    {
        self.texts.len()
    }

    /// The text with a number; empty past the last.
    pub fn text(&self, number: u32) -> &str
        ensures { result.now ≡ get_or self.now.texts number [] }
    {
        self.texts.get(number as usize)
    }

    /// Appends a text, given as UTF-8.
    ///
    /// # Errors
    ///
    /// An allocation was refused. The table is then as it was.
    #[inline(always)]
    pub fn add_text(&mut self, text: &[u8]) -> Result<(), AllocError>
        requires { IsUtf8 text.now }
        ensures ok { OnOk result (self.new ≡ record {
          texts = self.old.texts ++ text.now ∷ [];
          asked = self.old.asked;
        }) }
        ensures err { OnErr result (self.new ≡ self.old) }
    {
        self.texts.push(text)
    }

    /// Appends a short text, given as UTF-8, if there is room for it, and says whether it is
    /// appended.
    #[inline(always)]
    pub fn add_text_within_capacity(&mut self, text: &[u8]) -> bool
        requires { IsUtf8 text.now }
        ensures added { result ≡ true → self.new ≡ record {
          texts = self.old.texts ++ text.now ∷ [];
          asked = self.old.asked;
        } }
        ensures kept { result ≡ false → self.new ≡ self.old }
    {
        self.texts.push_within_capacity(text)
    }

    /// The number of listed imports.
    pub fn len(&self) -> usize
        ensures { result ≡ length self.now.asked }
    {
        self.entries.len()
    }

    /// The imports, borrowed.
    pub fn imports(&self) -> ImportList<'_>
        ensures { result ≡ self.now.asked }
    {
        ImportList::new(&self.texts, &self.written, &self.entries)
    }

    /// Lists an import, if there is one. Returns whether there was one. Texts that are named by
    /// their numbers must be in the table.
    ///
    /// # Errors
    ///
    /// `OutOfMemory` if an allocation was refused. The table is then as it was.
    pub fn list(&mut self, named: Option<Named<'_>>) -> Result<bool, Reason>
        requires { IsNamedIf (length self.old.texts) named }
        ensures ok { IfOk result (λ b. (self.new ≡ record {
          texts = self.old.texts;
          asked = asks_more (option_map (named_asked self.old.texts) named.entry) self.old.asked;
        }) × (b ≡ is_some named.entry)) }
        ensures err { IfErr result (λ r. (self.new ≡ self.old) × IsSome named.entry
            × (r ≡ Reason.OutOfMemory)) }
    {
        let Some(name) = named else {
            return Ok(false);
        };
        let entry = enter(&mut self.written, name)?;
        self.entries.push(entry)?;
        Ok(true)
    }

    /// Appends the imports of another table. Copies the texts that they refer to, each only once.
    ///
    /// # Errors
    ///
    /// An allocation was refused. The table then lists what it listed.
    pub fn append(&mut self, alloc: Global, other: &ImportTable) -> Result<(), AllocError>
        ensures ok { OnOk result (self.new ≡ record {
          texts = self.old.texts;
          asked = self.old.asked ++ other.now.asked;
        }) }
        ensures err { OnErr result (self.new ≡ self.old) }
    {
        let mut entries = copy_entries(
            alloc,
            &mut self.written,
            &other.texts,
            &other.written,
            &other.entries,
        )?;
        self.entries.append(&mut entries)?;
        Ok(())
    }

    /// Keeps the first `count` imports and removes the rest.
    pub fn keep(&mut self, count: usize)
        ensures { self.new ≡ record { texts = self.old.texts; asked = take count self.old.asked } }
    {
        self.entries.truncate(count);
    }

    /// Removes the first `count` imports and keeps the rest.
    pub fn skip(&mut self, count: usize)
        ensures { self.new ≡ record { texts = self.old.texts; asked = drop count self.old.asked } }
    {
        if count >= self.entries.len() {
            self.entries.clear();
            return;
        }
        let rest = self.entries.len() - count;
        self.entries.rotate_left(count);
        self.entries.truncate(rest);
    }
}

/// Makes the entry of an import. Names that are not in the table of texts are written to `written`.
fn enter(written: &mut Texts, named: Named<'_>) -> Result<ListedImport, Reason>
    ensures grows { HasMoreTexts written.old written.new }
    ensures ok { (ts : List (List ℕ)) → IfOk result (λ e. (entry_asked ts written.new e
        ≡ named_asked ts named.entry) × (IsNamed (length ts) named.entry
        → IsEntry (length ts) (length written.new) e)) }
    ensures err { IfErr result (λ r. r ≡ Reason.OutOfMemory) }
{
    match named {
        Named::Unknown => Ok(ListedImport::Unknown),
        Named::Made(first, second) => Ok(ListedImport::Made(first, second)),
        Named::Written(module_name, name) => Ok(write_pair(written, module_name, name)?),
    }
}

/// Appends two names and returns their entry.
fn write_pair(written: &mut Texts, module_name: &str, name: &str) -> Result<ListedImport, Reason>
    ensures grows { HasMoreTexts written.old written.new }
    ensures ok { (ts : List (List ℕ)) → IfOk result (λ e.
        IsEntry (length ts) (length written.new) e
        × (entry_asked ts written.new e ≡ AskedPair module_name.now name.now)) }
    ensures err { IfErr result (λ r. r ≡ Reason.OutOfMemory) }
{
    let first = write(written, module_name)?;
    let second = write(written, name)?;
    Ok(ListedImport::Written(first, second))
}

/// Appends a name and returns its number.
fn write(written: &mut Texts, name: &str) -> Result<u32, Reason>
    ensures ok { IfOk result (λ n. (n ≡ length written.old)
        × (written.new ≡ written.old ++ name.now ∷ [])) }
    ensures err { IfErr result (λ r. (written.new ≡ written.old) × (r ≡ Reason.OutOfMemory)) }
{
    let Ok(number) = u32::try_from(written.len()) else {
        return Err(Reason::OutOfMemory);
    };
    written.put(name)?;
    Ok(number)
}

/// Copies entries. The copies refer only to names in `written`.
fn copy_entries(
    alloc: Global,
    written: &mut Texts,
    texts: &Texts,
    names: &Texts,
    entries: &[ListedImport],
) -> Result<Vec<ListedImport>, AllocError>
    requires { AreEntries (length texts.now) (length names.now) entries.now }
    ensures grows { HasMoreTexts written.old written.new }
    ensures ok { IfOk result (λ es. AreEntries 0 (length written.new) es.items
        × (map (entry_asked [] written.new) es.items
        ≡ map (entry_asked texts.now names.now) entries.now)) }
{
    let mut copies = Vec::new(alloc);
    copies.resize(texts.len(), None)?;
    let mut copied = Vec::new(alloc);
    'entries: for entry in entries {
        let Ok(copy) = copy_entry(written, &mut copies, texts, names, *entry) else {
            return Err(AllocError);
        };
        copied.push(copy)?;
    }
    Ok(copied)
}

/// Copies an entry. The copy refers only to names in `written`.
fn copy_entry(
    written: &mut Texts,
    copies: &mut Vec<Option<u32>>,
    texts: &Texts,
    names: &Texts,
    entry: ListedImport,
) -> Result<ListedImport, Reason>
    requires copies { AreCopies copies.old.items texts.now written.old }
    requires entry { IsEntry (length copies.old.items) (length names.now) entry }
    ensures kept { KeepsCopies texts.now copies.old.items copies.new.items
        written.old written.new }
    ensures ok { IfOk result (λ e. IsEntry 0 (length written.new) e
        × (entry_asked [] written.new e ≡ entry_asked texts.now names.now entry)) }
{
    match entry {
        ListedImport::Unknown => Ok(ListedImport::Unknown),
        ListedImport::Made(first, second) => {
            let first = copy_text(written, copies, texts, first)?;
            let second = copy_text(written, copies, texts, second)?;
            Ok(ListedImport::Written(first, second))
        }
        ListedImport::Written(first, second) => write_pair(
            written,
            names.get(first as usize),
            names.get(second as usize),
        ),
    }
}

/// Copies a text to `written` unless `copies` shows that it is there already. Returns its number.
fn copy_text(
    written: &mut Texts,
    copies: &mut Vec<Option<u32>>,
    texts: &Texts,
    number: u32,
) -> Result<u32, Reason>
    requires copies { AreCopies copies.old.items texts.now written.old }
    requires number { number < length copies.old.items }
    ensures kept { KeepsCopies texts.now copies.old.items copies.new.items
        written.old written.new }
    ensures ok { IfOk result (λ n. (n < length written.new)
        × (get_or written.new n [] ≡ get_or texts.now number [])) }
{
    if let Some(copy) = copies[number as usize] {
        return Ok(copy);
    }
    let copy = write(written, texts.get(number as usize))?;
    copies[number as usize] = Some(copy);
    Ok(copy)
}
