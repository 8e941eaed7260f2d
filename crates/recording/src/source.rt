//! A recording that is read, piece by piece.
ghost use Rattle.std.specs.Prelude.{◌≡◌};

use crate::messages::Messages;
use crate::piece::Piece;
use crate::place::Place;
use std::alloc::Global;
use std::io::Read;

/// A recording that is read: its file, what of it was read and not yet taken, and who is told.
#[derive(Drop)]
pub struct Source<'m, I: Read + Drop, M: Messages> {
    /// The file.
    pub input: I,
    /// What was read of it and not yet taken.
    pub piece: Piece,
    /// Who is told what isn't printed.
    pub messages: &'m mut M,
}

impl<'m, I: Read + Drop, M: Messages> Source<'m, I, M> {
    /// A file of which nothing is read yet.
    pub fn new(alloc: Global, input: I, messages: &'m mut M) -> Source<'m, I, M>
        ensures { result.input ≡ input }
    {
        let place = Place { byte: 0, frame: 0 };
        Source {
            input,
            piece: Piece {
                bytes: Vec::new(alloc),
                place,
            },
            messages,
        }
    }
}
