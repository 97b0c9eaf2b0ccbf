//! Laws of effects.
ghost use Rattle.std.specs.Prelude.{◌≡◌, ℕ, List, Option, Some, None, true, false, is_some};
ghost use Rattle.std.specs.List.{list_any};
ghost use Rattle.fs_ident.specs.declared.actor.Session.{Session};
ghost use Rattle.fs_field.specs.After.{touches, value_after, names_after};
ghost use Rattle.fs_ident.specs.In.{In};
ghost use Rattle.fs_field.specs.Conflict.{Selves, conflicts, mode_meets, NoConflict, NoPlainConflict};
ghost use Rattle.fs_field.specs.Field.{tells_no_mode};
ghost use Rattle.fs_field.specs.Table.{child_number};
ghost use Rattle.fs_field.specs.Value.{is_value_of};
ghost use Rattle.fs_ident.specs.Ident.{child, same};
ghost use Rattle.fs_field.specs.declared.row.Row.{Row};
ghost use Rattle.fs_field.specs.declared.effect.Effect.{Effect};
ghost use Rattle.fs_field.specs.declared.effect.Effect.TheVariants.{SetChild};
ghost use Rattle.fs_field.specs.declared.field.Field.{Field};
ghost use Rattle.fs_field.specs.declared.value.Value.{Value};

/// An effect that does not touch a field leaves its value.
pub fn untouched_stays()
    ensures { (s : Session) (field : Field) (v : Value) (e : Effect) → touches e field ≡ false →
        value_after s field v e ≡ v }
{}

/// After an effect a value is of the field exactly where it was before.
pub fn kind_of_value_stays()
    ensures { (s : Session) (field : Field) (v : Value) (e : Effect) →
        is_value_of field (value_after s field v e) ≡ is_value_of field v }
{}

/// After a name is given to a file, or to none, it is among the names exactly where it is given to a file, and
/// every other name is among them exactly where it was.
pub fn names_follow_children()
    ensures named { (d name : List ℕ) (names : List (List ℕ)) (to : Option (List ℕ)) →
        list_any (λ n. same n name) (names_after d names (SetChild d name to)) ≡ is_some to }
    ensures others { (d name other : List ℕ) (names : List (List ℕ)) (to : Option (List ℕ)) →
        same other name ≡ false →
        list_any (λ n. same n other) (names_after d names (SetChild d name to)) ≡
        list_any (λ n. same n other) names }
{}

/// Right below a directory stand the files that are its identifier with one number appended.
pub fn children_are_told()
    ensures told { (dir : List ℕ) (k : ℕ) → child_number dir (child dir k) ≡ Some k }
    ensures only { (dir file : List ℕ) (k : ℕ) → child_number dir file ≡ Some k →
        file ≡ child dir k }
{}

/// Conflicts are mutual.
pub fn conflicts_are_mutual()
    ensures { (selves : Selves) (rows : List Row) (a b : Row) →
        conflicts selves rows a b ≡ conflicts selves rows b a }
{}

/// Where no row is on what sessions tell of modes, no two rows conflict exactly where no two conflict plainly.
pub fn conflicts_off_modes_are_plain()
    ensures plain { (selves : Selves) (rows : List Row) →
        ((row : Row) → In row rows → tells_no_mode row.field ≡ true) → NoConflict selves rows →
        NoPlainConflict rows }
    ensures all { (selves : Selves) (rows : List Row) →
        ((row : Row) → In row rows → tells_no_mode row.field ≡ true) → NoPlainConflict rows →
        NoConflict selves rows }
{}

/// A row that keeps no promise of what others have conflicts as one that promises that no other has the mode.
pub fn no_promise_is_as_false()
    ensures { (selves : Selves) (rows : List Row) (x y : Session) (f g : Field) →
        mode_meets selves rows x f None y g ≡ mode_meets selves rows x f (Some false) y g }
{}
