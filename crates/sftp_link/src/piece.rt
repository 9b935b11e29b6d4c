//! The pieces that a link moves, and the items of a scripted link.
ghost use Rattle.std.specs.Prelude.{◌≡◌, ◌<◌, ◌∷◌, ◌++◌, [], vec_len, vec_capacity};
ghost use Rattle.sftp_link.specs.Same.{piece_decides, scripted_decides};

use sftp_values::{ByteText, Same};

/// The bytes that one call moved over a link.
///
/// Example: `crates/sftp_map_server/src/map_server.rt`.
#[derive(Debug, Drop, PartialEq, Eq)]
pub enum Piece {
    /// Bytes that were sent to the peer.
    Sent(ByteText),
    /// Bytes that came from the peer; none if its end was found.
    Got(ByteText),
}

/// The next item of a scripted link.
///
/// Example: `crates/test_link/src/link.rt`.
#[derive(Debug, Drop, PartialEq, Eq)]
pub enum Scripted {
    /// These bytes.
    Raw(ByteText),
    /// The frame of a kind and fields whose id is that of the sent frame with the number `request`, combined with
    /// `flip` by exclusive or.
    ///
    /// The frames sent are numbered from 0, which is the hello and has the id 0. The link ends here until that frame
    /// has come whole. It also ends here if that frame is too short for an id, or if the fields are more than
    /// 4294967290 bytes.
    To {
        request: u32,
        flip: u32,
        kind: u8,
        fields: ByteText,
    },
}

impl Same for Piece {
    ghost decides = { piece_decides };
}

impl Same for Scripted {
    ghost decides = { scripted_decides };
}

/// Adds a piece to a log that has room for it.
pub(crate) fn add_piece(log: &mut Vec<Piece>, piece: Piece)
    requires { vec_len log.old < vec_capacity log.old }
    ensures { log.new.items ≡ log.old.items ++ piece ∷ [] }
{
    log.push(piece).unwrap();
}
