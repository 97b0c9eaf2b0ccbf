//! Laws of maps.
ghost use Rattle.std.specs.Prelude.{◌≡◌, ◌≢◌, ◌⊎◌, ℕ, Bool, Some, true, false, List, []};
ghost use Rattle.fs_ident.specs.In.{In};
ghost use Rattle.fs_ident.specs.Ordered.{Keyed};
ghost use Rattle.fs_map.specs.Map.{IsLongest, IsMap, IsPiece, Owners, Tells, after_take, begins, gives, is_given, longest, server_of};
ghost use Rattle.fs_map.specs.Lists.{map_after_take, owns_given, piece_of, places_of};

/// Two maps that tell the same servers are one: a map is listed in one way alone.
pub fn maps_are_told_by_their_servers()
    ensures { (a b : Owners) → IsMap a → IsMap b →
        ((id : List ℕ) → server_of a id ≡ server_of b id) → a ≡ b }
{}

/// Two pieces of one prefix that give the same identifiers are one.
pub fn a_piece_is_told_by_what_it_gives()
    ensures { (prefix : List ℕ) (a b : Keyed Bool) → IsPiece prefix a → IsPiece prefix b →
        ((id : List ℕ) → gives prefix a id ≡ gives prefix b id) → a ≡ b }
{}

/// The list of a changed map, and that of a piece, are the ones that tell what they have to.
pub fn changed_maps_are_maps()
    ensures taken { (owners : Owners) (me : ℕ) (prefix : List ℕ) (given : Keyed Bool) →
        IsMap owners → IsPiece prefix given →
        IsMap (map_after_take owners me prefix given) ×
        Tells (map_after_take owners me prefix given) (after_take owners me prefix given) }
    ensures given { (owners : Owners) (me : ℕ) (prefix : List ℕ) → IsMap owners →
        server_of owners prefix ≡ me → IsPiece prefix (piece_of owners me prefix) ×
        ((id : List ℕ) →
        gives prefix (piece_of owners me prefix) id ≡ is_given owners me prefix id) }
{}

/// Where no listed place shows that an identifier which is given is the server's, none is.
pub fn places_show_what_is_owned()
    ensures { (owners : Owners) (me : ℕ) (prefix : List ℕ) (given : Keyed Bool) →
        IsMap owners → IsPiece prefix given → owns_given owners me prefix given ≡ false →
        (id : List ℕ) → gives prefix given id ≡ true → server_of owners id ≢ me }
{}

/// Each prefix that a changed map lists was listed before, or is listed by the piece.
pub fn changes_list_nothing_new()
    ensures taken { (owners : Owners) (me : ℕ) (prefix place : List ℕ) (given : Keyed Bool) →
        In place (places_of (map_after_take owners me prefix given)) →
        (place ≡ []) ⊎ (In place (places_of owners) ⊎ In place (places_of given)) }
    ensures given { (owners : Owners) (me : ℕ) (prefix place : List ℕ) →
        In place (places_of (piece_of owners me prefix)) →
        (place ≡ prefix) ⊎ In place (places_of owners) }
{}

/// What is found for an identifier is the longest listed prefix of it: of a map always, of a piece below its prefix.
pub fn the_longest_prefix_is_found()
    ensures map { (owners : Owners) (id : List ℕ) → IsMap owners → (e : List ℕ × ℕ) ×
        (longest owners id ≡ Some e) × IsLongest owners id e }
    ensures piece { (prefix id : List ℕ) (given : Keyed Bool) → IsPiece prefix given →
        begins prefix id ≡ true → (e : List ℕ × Bool) ×
        (longest given id ≡ Some e) × IsLongest given id e }
{}
