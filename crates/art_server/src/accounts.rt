//! What proofs know of a reader: how the account of its reads begins and goes on, and which bytes they gave.
use crate::lines::{ROOM, Span};
use art_ghosts::{Change, Choice};
use std::collections::LinkedList;
use std::io;

/// No read was made.
pub(crate) struct NoReads;

impl Choice<LinkedList<Option<usize>>> for NoReads {
    ghost use Rattle.std.specs.Prelude.{[]};

    ghost value = { [] };
}

/// One read more was made, with this result.
pub(crate) struct OneMoreRead;

impl Change<io::Result<usize>, (), LinkedList<Option<usize>>> for OneMoreRead {
    ghost use Rattle.std.specs.Prelude.{◌≡◌, [], ◌∷◌, ◌++◌};
    ghost use Rattle.art_server.specs.Given.{given};

    ghost then = { λ result _ before after. after ≡ before ++ given result ∷ [] };
}

/// No byte was read.
pub(crate) struct NoBytes;

impl Choice<LinkedList<u8>> for NoBytes {
    ghost use Rattle.std.specs.Prelude.{[]};

    ghost value = { [] };
}

/// The bytes that stand there came behind those before.
pub(crate) struct MoreBytes;

impl Change<[u8; ROOM], Span, LinkedList<u8>> for MoreBytes {
    ghost use Rattle.std.specs.Prelude.{◌≡◌, ◌++◌, slice_range};

    ghost then = { λ bytes span before after. after ≡ before ++ slice_range bytes span.from span.to };
}
