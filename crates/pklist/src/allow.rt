//! The allow list: permitted pairs of a module and a name, and limits, read from a TOML document.
//!
//! An index beside the `toml` crate's table lets `contains` allocate nothing. `Allow` has no model,
//! since a recursive type can't be a model's value; clauses use `document_of` and `lists`.
ghost use Rattle.std.specs.Prelude.{codes};
ghost use Rattle.std.specs.Prelude.{◌≡◌};
ghost use Rattle.toml.specs.Data.{get_member};
ghost use Rattle.toml.specs.View.{table_view};
ghost use Rattle.pklist.specs.ListFile.{limits_in};
ghost use Rattle.pklist.specs.Private.ListIndex.{Indexes};

mod costs;
mod error;
mod index;
mod limits;
mod rules;
mod substitutes;

pub use costs::CostLimits;
pub use error::{AllowError, Where};
use index::Index;
use pkops::Limits;
use std::alloc::Global;
use toml::{Table, Value};

/// The pairs of a module and a name that a pickle may import, and the limits for it.
#[derive(Debug, Drop)]
pub struct Allow {
    document: Table,
    /// The names of each module, for lookup in logarithmic time.
    index: Index,
    limits: Limits,
    ghost indexed: { Indexes index (get_member (codes "imports") (table_view document)) },
    ghost limited: { limits ≡ limits_in (get_member (codes "limits") (table_view document)) },
}

impl Allow {
    ghost use Rattle.std.specs.Prelude.{◌≡◌, ◌≢◌, Ok, Err, IfOk, IfErr, codes, option_map};
    ghost use Rattle.toml.specs.Data.{get_member};
    ghost use Rattle.toml.specs.View.{view};
    ghost use Rattle.toml.specs.Errors.{IsBlank};
    ghost use Rattle.pklist.specs.Allow.{cost_limits_of, document_of, has_limits, limits_of, lists};
    ghost use Rattle.pklist.specs.Allow.{says_numbers};
    ghost use Rattle.pklist.specs.ListFile.{list_of};

    /// Reads a list file, for example
    ///
    /// ```toml
    /// version = 2
    /// [imports]
    /// collections = ["OrderedDict", "deque"]
    /// "a.b" = ["c"]
    /// [limits]
    /// passed = 1_073_741_824
    /// ```
    ///
    /// which permits three pairs, and payloads of bytes up to one gibibyte. An empty table
    /// `imports` permits nothing. The table `limits` may have the keys `counted`, `stack`, `memo`,
    /// `depth`, `values`, `passed` and `numbers`, and `large = true` for large data. Missing limits
    /// have their defaults, and so do all limits in version 1, which has no such table. Its keys
    /// `levels`, `weight`, `work`, `clash` and `memory`, and `build` of a table `rules`, are those
    /// of [`CostLimits`]. A table `substitutes` permits nothing: it says what is loaded in place of
    /// a name.
    ///
    /// ```rust
    /// use pklist::{Allow, AllowError, Where};
    ///
    /// let list = "version = 2\n[imports]\n\"a.b\" = [\"c\"]\n[limits]\nstack = 100\n";
    /// let allow = Allow::from_toml(alloc, list)?;
    /// assert!(rt; allow.contains("a.b", "c"));
    /// assert_eq!(rt; allow.limits().stack(), 100);
    /// let Err(error) = Allow::from_toml(alloc, "version = 1\n") else {
    ///     panic!(rt; "a list without imports is accepted");
    /// };
    /// assert_eq!(rt; error, AllowError::Shape(Where::Imports));
    /// ```
    ///
    /// # Errors
    ///
    /// The first rule that the text breaks, in the order of [`AllowError`] and [`Where`].
    /// `OutOfMemory` is returned only if an allocation was refused: for the document, or, if the
    /// text breaks no rule, for the index.
    pub fn from_toml(alloc: Global, text: &str) -> Result<Allow, AllowError>
        ensures list { IfOk result (λ list. list_of text.now ≡ Ok (document_of list)) }
        ensures fault { IfErr result (λ error. error ≢ AllowError.OutOfMemory
            → list_of text.now ≡ Err error) }
        ensures memory { IfErr result (λ error. error ≡ AllowError.OutOfMemory
            → ¬ IsBlank text.now) }
    {
        let document = match toml::table_from_str(alloc, text) {
            Ok(document) => document,
            Err(error) => {
                return Err(if error.is_memory() {
                    AllowError::OutOfMemory
                } else {
                    AllowError::Syntax
                });
            }
        };
        match rules::document_fault(&document) {
            Some(fault) => Err(fault),
            None => match index::index_of(alloc, rules::value_at(&document, "imports")) {
                Ok(index) => {
                    let limits = limits::limits_in(rules::value_at(&document, "limits"));
                    Ok(Allow {
                        document,
                        index,
                        limits,
                    })
                }
                Err(_) => Err(AllowError::OutOfMemory),
            },
        }
    }

    /// Whether the list contains this module and name, both compared byte for byte. Allocates
    /// nothing.
    pub fn contains(&self, module_name: &str, name: &str) -> bool
        ensures { result ≡ lists self.now module_name.now name.now }
    {
        index::has_pair(&self.index, module_name, name)
    }

    /// The table `imports` of the list: each module, in byte order, with the array of its names.
    /// Allocates nothing.
    pub fn imports(&self) -> Option<&Value>
        ensures { option_map (λ v. view v.now) result
            ≡ get_member (codes "imports") (document_of self.now) }
    {
        rules::value_at(&self.document, "imports")
    }

    /// The table `substitutes` of the list: names, each with its substitute. Allocates nothing.
    pub fn substitutes(&self) -> Option<&Value>
        ensures { option_map (λ v. view v.now) result
            ≡ get_member (codes "substitutes") (document_of self.now) }
    {
        rules::value_at(&self.document, "substitutes")
    }

    /// Whether the list has a table `limits`. Allocates nothing.
    pub fn has_limits(&self) -> bool
        ensures { result ≡ has_limits self.now }
    {
        rules::value_at(&self.document, "limits").is_some()
    }

    /// Whether the table `limits` has `numbers`, whose default is the greatest. Allocates nothing.
    pub fn says_numbers(&self) -> bool
        ensures { result ≡ says_numbers self.now }
    {
        costs::value_in(rules::value_at(&self.document, "limits"), "numbers").is_some()
    }

    /// What the list says of the cost of loading. Allocates nothing.
    pub fn cost_limits(&self) -> CostLimits
        ensures { result ≡ cost_limits_of self.now }
    {
        let limits = rules::value_at(&self.document, "limits");
        costs::cost_limits_in(limits, rules::value_at(&self.document, "rules"))
    }

    /// The limits of the list. Allocates nothing.
    pub fn limits(&self) -> Limits
        ensures { result ≡ limits_of self.now }
    {
        self.limits
    }
}
