//! The files of a host, by their paths.
ghost use Rattle.std.specs.Prelude.{◌≡◌, IfOk, List, None, OnOk, Option, ℕ, ⊤};

use crate::optimizing::Place;
use crate::passing::PassOver;
use crate::replacing::put_form;
use pkopt::Form;
use std::alloc::Global;
use std::fs::File;
use std::rt::Files;
use std::{fs, io};

/// A host of files, which a command opens and replaces by their paths.
pub trait Host {
    /// A file that was opened.
    type Input: PassOver + Drop;

    // The bytes of the file at a path, if the host reveals them.
    ghost content: { Self → List ℕ → Option (List ℕ) } = { λ _ _. None };

    // The file at a path was made to hold these bytes, as far as the host reveals that.
    ghost puts: { Self → List ℕ → List ℕ → Type 0 } = { λ _ _ _. ⊤ };

    /// Opens the file at a path, to be read from its start.
    ///
    /// # Errors
    ///
    /// An error if it cannot be opened.
    fn open(&self, path: &str) -> io::Result<Self::Input>
        ensures { IfOk result (λ file. Self.Input.remaining file ≡ content self.now path.now) };

    /// Puts a form in the file at a path. It was made from this input.
    ///
    /// # Errors
    ///
    /// An error if the form cannot be written.
    fn put(&self, alloc: Global, path: &str, input: &Self::Input, form: &Form<'_>) -> io::Result<()>
        ensures { OnOk result (puts self.now path.now form.now.bytes) };
}

/// The files of the system, which reveal nothing to a contract.
impl<R: Files<File = File>> Host for R {
    type Input = File;

    fn open(&self, path: &str) -> io::Result<File> {
        fs::open(self, path)
    }

    fn put(&self, alloc: Global, path: &str, input: &File, form: &Form<'_>) -> io::Result<()> {
        put_form(self, alloc, path, input, form)
    }
}

/// The file at a path, as the place of a form that is made from an input.
#[derive(Drop)]
pub struct NewFile<'a, H: Host> {
    host: &'a H,
    alloc: Global,
    path: &'a str,
    input: &'a H::Input,
}

impl<'a, H: Host> NewFile<'a, H> {
    /// The file at this path. Nothing is created yet.
    pub fn new(host: &'a H, alloc: Global, path: &'a str, input: &'a H::Input) -> NewFile<'a, H>
        ensures host { result.host.now ≡ host.now }
        ensures path { result.path.now ≡ path.now }
    {
        NewFile {
            host,
            alloc,
            path,
            input,
        }
    }
}

impl<'a, H: Host> Place for NewFile<'a, H> {
    ghost puts = { λ old new. H.puts old.host.now old.path.now };

    fn put(&mut self, form: &Form<'_>) -> io::Result<()> {
        self.host.put(self.alloc, self.path, self.input, form)
    }
}
