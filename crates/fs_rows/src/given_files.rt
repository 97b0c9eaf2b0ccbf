//! Which files a piece of a map gives, asked many times.
ghost use Rattle.std.specs.Prelude.{◌≡◌};
ghost use Rattle.fs_map.specs.Map.{gives};

use fs_ident::FileId;
use fs_map::MapPiece;
use std::marker::Model;

/// The files that a piece gives. Whether the piece is in order is looked at once: then each file is found by a search,
/// and else by going over all of the piece.
#[derive(Drop)]
pub struct GivenFiles<'a> {
    piece: &'a MapPiece,
    in_order: bool,
}

impl<'a> Model for GivenFiles<'a> {
    ghost use Rattle.std.specs.Prelude.{◌≡◌, true, Bool, List, ℕ};
    ghost use Rattle.fs_ident.specs.Ordered.{Keyed, are_keys_in_order};

    ghost Value = { List ℕ × Keyed Bool };

    ghost view = { λ g. (g.piece.now.prefix, g.piece.now.given) };

    ghost invariant = { λ g. g.in_order ≡ true → are_keys_in_order g.piece.now.given ≡ true };
}

impl<'a> GivenFiles<'a> {
    /// The files that this piece gives.
    pub fn of(piece: &'a MapPiece) -> GivenFiles<'a>
        ensures { result ≡ (piece.now.prefix, piece.now.given) }
    {
        GivenFiles {
            piece,
            in_order: piece.is_in_order(),
        }
    }

    /// Whether the piece gives the file.
    pub fn has(&self, file: &FileId) -> bool
        ensures { result ≡ gives self.now.0 self.now.1 file.now }
    {
        if self.in_order {
            self.piece.finds(file)
        } else {
            self.piece.gives(file)
        }
    }
}
