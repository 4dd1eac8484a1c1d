//! The imports that an answer lists.
//!
//! An import is lent by its number. A slice of owned pairs could be inflated at will: six bytes
//! fetch two texts and import them.

ghost use Rattle.std.specs.List.{slice_get};
ghost use Rattle.std.specs.Prelude.{◌≡◌, ◌≢◌, drop, length, map, nat_eq, option_map, IfOk};
ghost use Rattle.std.specs.Prelude.{MatchBool};
ghost use Rattle.pkimport.specs.Import.{asked_shown, import_shown};

use crate::import::{Asked, Import};
use crate::import_list::ImportIter;
use crate::import_table::ImportTable;
use std::alloc::{AllocError, Global};
use std::marker::Model;

/// Imports in the order in which a pickle makes them. Each text of the pickle is kept once, and an
/// import refers to the texts of its module and its name. The imports of several pickles with fresh
/// memos keep only texts that an import refers to.
///
/// ```rust
/// use pkcheck::{Policy, check};
/// use pkimport::Import;
/// use pkops::Limits;
/// use pkread::Memory;
///
/// let mut source = Memory::new(b"cos\nsystem\n(Vecho gone\ntR.");
/// let yes = check(alloc, &mut source, &Policy::AnyImport, &Limits::STANDARD)?;
/// let mut names = Vec::new(alloc);
/// for import in yes.imports.iter() {
///     if let Import::Pair { name, .. } = import {
///         names.push(name)?;
///     }
/// }
/// assert_eq!(rt; names.as_slice(), ["system"].as_slice());
/// ```
#[derive(Debug, Drop)]
pub struct Imports {
    table: ImportTable,
}

impl Model for Imports {
    ghost use Rattle.std.specs.Prelude.{List};
    ghost use Rattle.pkimport.specs.Import.{Asked};

    ghost Value = { List Asked };

    ghost view = { λ i. i.table.asked };
}

impl Imports {
    /// The imports of a table. Allocates nothing.
    pub fn from_table(table: ImportTable) -> Imports
        ensures { result ≡ table.asked }
    {
        Imports { table }
    }

    /// Removes the first `count` imports.
    pub fn skip(&mut self, count: usize)
        ensures { self.new ≡ drop count self.old }
    {
        self.table.skip(count);
    }

    /// An import by its number, counted from 0; `None` past the last.
    pub fn get(&self, number: usize) -> Option<Import<'_>>
        ensures { option_map import_shown result ≡ slice_get self.now number }
    {
        self.table.imports().get(number)
    }

    /// The number of imports.
    pub fn len(&self) -> usize
        ensures { result ≡ length self.now }
    {
        self.table.len()
    }

    /// Whether there are none.
    pub fn is_empty(&self) -> bool
        ensures { result ≡ nat_eq (length self.now) 0 }
    {
        self.len() == 0
    }

    /// Iterates over the imports, in order.
    pub fn iter(&self) -> ImportIter<'_>
        ensures { result ≡ self.now }
    {
        self.table.imports().iter()
    }

    /// Copies of the imports, each with its own names. A pickle can repeat an import with long
    /// names in six bytes, and each copy allocates memory for them, so the result can be much
    /// larger than the pickle.
    ///
    /// # Errors
    ///
    /// An allocation was refused.
    pub fn to_vec(&self, alloc: Global) -> Result<Vec<Asked>, AllocError>
        ensures { IfOk result (λ copies. map asked_shown copies.items ≡ self.now) }
    {
        let mut copies = Vec::with_capacity(alloc, self.len())?;
        for import in self.iter() {
            copies.push(import.to_asked(alloc)?)?;
        }
        Ok(copies)
    }

    /// Whether both contain the same imports in the same order.
    fn same(&self, other: &Imports) -> bool
        ensures { MatchBool result (self.now ≡ other.now) (self.now ≢ other.now) }
    {
        let mut others = other.iter();
        for import in self.iter() {
            let Some(beside) = others.next() else {
                return false;
            };
            if !says_same(import, beside) {
                return false;
            }
        }
        others.next().is_none()
    }
}

/// Equal are the same imports in the same order.
impl PartialEq for Imports {
    ghost use Rattle.std.specs.Cmp.{partial_equiv_from_equiv};
    ghost use Rattle.pkimport.specs.Import.{same_imports};
    ghost use Rattle.pkimport.specs.Private.SameImports.{same_laws};

    ghost eq = { same_imports };

    ghost laws = { partial_equiv_from_equiv same_laws };

    fn eq(&self, other: &Imports) -> bool {
        self.same(other)
    }
}

impl Eq for Imports {
    ghost use Rattle.pkimport.specs.Private.SameImports.{same_laws};

    ghost laws = { same_laws };
}

/// Whether both are the same pair, or both unknown.
fn says_same(import: Import<'_>, beside: Import<'_>) -> bool
    ensures { MatchBool result (import_shown import.entry ≡ import_shown beside.entry)
        (import_shown import.entry ≢ import_shown beside.entry) }
{
    import == beside
}
