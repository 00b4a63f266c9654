//! The groups of lines of a message: recipients, header fields and the texts of a body.

ghost use Rattle.std.specs.Prelude.{◌≡◌, All, codes};
ghost use Rattle.std.specs.List.{concat};
ghost use Rattle.milter_wire.specs.declared.command.Command.TheVariants as commands;
ghost use Rattle.milter_wire.specs.Command.{Fits};
ghost use Rattle.milter_message.specs.LeadingSpace.{WholeFieldFits};
ghost use Rattle.milter_mail_file.specs.LineValues.{header_of, path_of, chunk_of};
ghost use Rattle.milter_mail_file.specs.Openings.{header_begins, path_begins, chunk_begins};

use crate::line_group::LineGroup;
use crate::line_values::{chunk_in, header_in, path_in};
use crate::session_fault::SessionFault;
use milter_text::FileLine;
use milter_wire::{Header, Path, Text};
use std::alloc::Global;

/// The recipients of a message.
#[derive(Drop)]
pub(crate) struct Recipients {
    pub(crate) paths: Vec<Path>,
}

/// The header fields of a message.
#[derive(Drop)]
pub(crate) struct HeaderFields {
    pub(crate) fields: Vec<Header>,
}

/// The body of a message: the texts of its lines, joined.
#[derive(Drop)]
pub(crate) struct Body {
    pub(crate) bytes: Vec<u8>,
}

impl LineGroup for Recipients {
    type Item = Path;

    ghost text = { codes "recipient" };

    ghost value_of = { path_of (codes "recipient") };

    ghost IsMadeOf = { λ group paths. (group.paths.items ≡ paths) × All (λ path. Fits (commands.Rcpt path)) paths };

    ghost CanBe = { λ paths. All (λ path. Fits (commands.Rcpt path)) paths };

    fn keyword() -> &'static [u8] {
        b"recipient"
    }

    fn empty(alloc: Global) -> Self {
        Recipients {
            paths: Vec::new(alloc),
        }
    }

    fn add(&mut self, alloc: Global, line: &FileLine) -> Result<(), SessionFault> {
        let path = path_in(alloc, b"recipient", line)?;
        self.paths.push(path)?;
        Ok(())
    }

    ghost opens = { path_begins (codes "recipient") };
}

impl LineGroup for HeaderFields {
    type Item = Header;

    ghost text = { codes "header" };

    ghost value_of = { header_of };

    ghost IsMadeOf = { λ group fields. (group.fields.items ≡ fields) × All WholeFieldFits fields };

    ghost CanBe = { λ fields. All WholeFieldFits fields };

    fn keyword() -> &'static [u8] {
        b"header"
    }

    fn empty(alloc: Global) -> Self {
        HeaderFields {
            fields: Vec::new(alloc),
        }
    }

    fn add(&mut self, alloc: Global, line: &FileLine) -> Result<(), SessionFault> {
        let field = header_in(alloc, line)?;
        self.fields.push(field)?;
        Ok(())
    }

    ghost opens = { header_begins };
}

impl LineGroup for Body {
    type Item = Text;

    ghost text = { codes "body" };

    ghost value_of = { chunk_of };

    ghost IsMadeOf = { λ group chunks. group.bytes.items ≡ concat chunks };

    ghost CanBe = { λ _. Unit {0} };

    fn keyword() -> &'static [u8] {
        b"body"
    }

    fn empty(alloc: Global) -> Self {
        Body {
            bytes: Vec::new(alloc),
        }
    }

    fn add(&mut self, _alloc: Global, line: &FileLine) -> Result<(), SessionFault> {
        self.bytes.extend_from_slice(chunk_in(line)?)?;
        Ok(())
    }

    ghost opens = { chunk_begins };
}
