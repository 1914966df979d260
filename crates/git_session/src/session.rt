//! The repository, and what is printed.

use crate::stop::Stop;
use gix_base::hash::ObjectId;
use gix_discover::Environment;
use gix_files::System;
use gix_repository::Repository;
use std::alloc::{AllocError, Global};
use std::io::Write;

/// Says who asks, and when.
#[derive(Clone, Copy)]
pub struct Asker {
    /// The current time, in seconds since 1970.
    pub now: i64,
    /// Tells whether git would write English.
    pub is_english: bool,
}

/// The repository that is asked about, and what the answer prints so far.
#[derive(Drop)]
pub struct Session<'s> {
    pub alloc: Global,
    /// Reads the file system, from the current folder.
    pub files: System<'s>,
    pub environment: Environment,
    pub repository: Repository<System<'s>>,
    pub asker: Asker,
    /// What goes to standard output once the answer is whole.
    pub output: Vec<u8>,
    /// What goes to standard error.
    messages: Vec<u8>,
    /// Counts the bytes of the repository's messages that are among these.
    taken: usize,
    /// The whole of standard input, if the question wants it.
    pub input: Option<Vec<u8>>,
}

impl<'s> Session<'s> {
    /// Prints nothing so far.
    pub fn new(
        alloc: Global,
        files: System<'s>,
        environment: Environment,
        repository: Repository<System<'s>>,
        asker: Asker,
    ) -> Session<'s> {
        Session {
            alloc,
            files,
            environment,
            repository,
            asker,
            output: Vec::new(alloc),
            messages: Vec::new(alloc),
            taken: 0,
            input: None,
        }
    }

    /// Prints bytes.
    pub fn print(&mut self, bytes: &[u8]) -> Result<(), AllocError> {
        self.output.extend_from_slice(bytes)?;
        Ok(())
    }

    /// Prints bytes, and ends the line.
    pub fn print_line(&mut self, bytes: &[u8]) -> Result<(), AllocError> {
        self.output.extend_from_slice(bytes)?;
        self.output.push(b'\n')?;
        Ok(())
    }

    /// Prints this many digits of an id.
    pub fn print_digits(&mut self, id: ObjectId, digits: usize) -> Result<(), AllocError> {
        let mut text = [0u8; 40];
        let written = id.write_hex(digits, &mut text);
        self.print(&text[..written])
    }

    /// Prints an id.
    pub fn print_id(&mut self, id: ObjectId) -> Result<(), AllocError> {
        self.print_digits(id, 40)
    }

    /// Prints an id on a line.
    pub fn print_id_line(&mut self, id: ObjectId) -> Result<(), AllocError> {
        self.print_digits(id, 40)?;
        self.output.push(b'\n')?;
        Ok(())
    }

    /// Prints a number.
    pub fn print_number(&mut self, number: usize) -> Result<(), Stop> {
        match write!(self.output, "{number}") {
            Ok(()) => Ok(()),
            Err(_) => Err(Stop::OutOfMemory),
        }
    }

    /// Takes over what the repository has said since the last time.
    fn take_messages(&mut self) -> Result<(), AllocError> {
        let said = self.repository.messages();
        let taken = said.len();
        self.messages
            .extend_from_slice(said.get(self.taken..).unwrap_or(&[]))?;
        self.taken = taken;
        Ok(())
    }

    /// Returns what goes to standard error so far.
    pub fn said(&mut self) -> Result<&[u8], AllocError> {
        self.take_messages()?;
        Ok(&self.messages)
    }

    /// Says a line of these parts on standard error.
    pub fn say(&mut self, parts: &[&[u8]]) -> Result<(), AllocError> {
        self.take_messages()?;
        for part in parts {
            self.messages.extend_from_slice(part)?;
        }
        self.messages.push(b'\n')?;
        Ok(())
    }

    /// Begins another question: what was printed is forgotten.
    pub fn refresh(&mut self) {
        self.output.clear();
        self.messages.clear();
        self.taken = 0;
        self.repository.refresh();
    }
}
