//! Imports: what a pickle requests by module and name.
ghost use Rattle.std.specs.Prelude.{◌≡◌, IfOk};
ghost use Rattle.pkimport.specs.Import.{AskedPair, asked_shown, import_shown};

use std::alloc::{AllocError, Global};

/// An import that owns its names.
#[derive(Debug, Drop, PartialEq, Eq)]
pub enum Asked {
    /// A pair, with the names that the pickle contains.
    Pair {
        /// The module.
        module: String,
        /// The name in it.
        name: String,
    },
    /// The pair is unknown, because an operation answered the module or the name.
    Unknown,
}

/// An import that borrows its names.
#[derive(Clone, Copy, Debug, PartialEq, Eq)]
pub enum Import<'a> {
    /// A pair, with the names that the pickle contains.
    Pair {
        /// The module.
        module: &'a str,
        /// The name in it.
        name: &'a str,
    },
    /// The pair is unknown, because an operation answered the module or the name.
    Unknown,
}

impl<'a> Import<'a> {
    /// Copies the names.
    ///
    /// # Errors
    ///
    /// An allocation was refused.
    pub fn to_asked(self, alloc: Global) -> Result<Asked, AllocError>
        ensures { IfOk result (λ asked. asked_shown asked ≡ import_shown self.entry) }
    {
        match self {
            Import::Pair { module, name } => pair_of(alloc, module, name),
            Import::Unknown => Ok(Asked::Unknown),
        }
    }
}

/// The names of an import, as a step finds them.
#[derive(Clone, Copy)]
pub enum Named<'a> {
    /// The pair is unknown.
    Unknown,
    /// The numbers of two texts: the module and the name.
    Made(u32, u32),
    /// The module and the name, from the instruction's argument.
    Written(&'a str, &'a str),
}

/// Copies a pair.
///
/// # Errors
///
/// An allocation was refused.
pub fn pair_of(alloc: Global, module_name: &str, name: &str) -> Result<Asked, AllocError>
    ensures { IfOk result (λ a. asked_shown a ≡ AskedPair module_name.now name.now) }
{
    let first = String::from_str(alloc, module_name)?;
    let second = String::from_str(alloc, name)?;
    Ok(Asked::Pair {
        module: first,
        name: second,
    })
}
