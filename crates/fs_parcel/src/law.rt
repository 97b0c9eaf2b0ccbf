//! Laws of moves.
ghost use Rattle.std.specs.Prelude.{◌≡◌, ◌↔◌, ℕ, Bool, true, false, List, Some, None, if◌then◌else◌};
ghost use Rattle.std.specs.FinMap.{empty, get};
ghost use Rattle.fs_ident.specs.In.{In};
ghost use Rattle.fs_ident.specs.Ordered.{Keyed};
ghost use Rattle.fs_field.specs.Conflict.{NoConflict};
ghost use Rattle.fs_field.specs.Field.{file_of};
ghost use Rattle.fs_field.specs.declared.row.Row.{Row};
ghost use Rattle.fs_map.specs.Lists.{piece_of};
ghost use Rattle.fs_map.specs.Map.{IsMap, Owners, is_given, server_of};
ghost use Rattle.fs_record.specs.Moving.{records_left, with_records};
ghost use Rattle.fs_record.specs.Records.{AreRecords, RecordMap};
ghost use Rattle.fs_record.specs.ValueOf.{selves_in};
ghost use Rattle.fs_record.specs.declared.parcel.Parcel.{Parcel};
ghost use Rattle.fs_rows.specs.Granted.{with_rows};
ghost use Rattle.fs_rows.specs.Moving.{rows_left};
ghost use Rattle.fs_parcel.specs.Parcel.{fits, is_formed, is_of_given, parcel_of};
ghost use Rattle.fs_parcel.specs.Rows.{AreRows};

/// What goes is all that the server has below the prefix, and what is left is all else.
pub fn what_goes_is_below_the_prefix()
    ensures rows_go { (records : RecordMap) (rows : List Row) (map : Owners) (me : ℕ)
        (prefix : List ℕ) (row : Row) → IsMap map → server_of map prefix ≡ me →
        In row (parcel_of records rows map me prefix).rows ↔
        (In row rows × (is_given map me prefix (file_of row.field) ≡ true)) }
    ensures rows_stay { (rows : List Row) (map : Owners) (me : ℕ) (prefix : List ℕ) (row : Row) →
        IsMap map → server_of map prefix ≡ me →
        In row (rows_left prefix (piece_of map me prefix) rows) ↔
        (In row rows × (is_given map me prefix (file_of row.field) ≡ false)) }
    ensures records_go { (records : RecordMap) (rows : List Row) (map : Owners) (me : ℕ)
        (prefix file : List ℕ) → IsMap map → server_of map prefix ≡ me →
        get (with_records (parcel_of records rows map me prefix).records empty) file ≡
        (if is_given map me prefix file then get records file else None) }
    ensures records_stay { (records : RecordMap) (map : Owners) (me : ℕ) (prefix file : List ℕ) →
        IsMap map → server_of map prefix ≡ me →
        get (records_left prefix (piece_of map me prefix) records) file ≡
        (if is_given map me prefix file then None else get records file) }
{}

/// A parcel that is packed up has the form that is asked where it comes.
pub fn packed_parcels_are_formed()
    ensures { (records : RecordMap) (rows : List Row) (map : Owners) (me : ℕ) (prefix : List ℕ) →
        IsMap map → server_of map prefix ≡ me → AreRecords records →
        (is_formed (parcel_of records rows map me prefix) ≡ true) ×
        (is_of_given (parcel_of records rows map me prefix) ≡ true) }
{}

/// The rows of a server are in order, and no two of them conflict plainly, after a parcel that fits has come, and after
/// one has gone.
pub fn moved_rows_are_in_order()
    ensures came { (records : RecordMap) (rows : List Row) (map : Owners) (me : ℕ) (p : Parcel) →
        AreRows rows → fits records rows map me p ≡ true → AreRows (with_rows p.rows rows) }
    ensures gone { (rows : List Row) (prefix : List ℕ) (given : Keyed Bool) →
        AreRows rows → AreRows (rows_left prefix given rows) }
{}

/// Where no two rows of a server conflict, by the handles in its records, none do after a parcel that fits has come, and
/// none after one has gone.
pub fn moves_are_without_conflict()
    ensures came { (records : RecordMap) (rows : List Row) (map : Owners) (me : ℕ) (p : Parcel) →
        AreRows rows → fits records rows map me p ≡ true → NoConflict (selves_in records) rows →
        NoConflict (selves_in (with_records p.records records)) (with_rows p.rows rows) }
    ensures gone { (records : RecordMap) (rows : List Row) (prefix : List ℕ) (given : Keyed Bool) →
        AreRows rows → NoConflict (selves_in records) rows →
        NoConflict (selves_in (records_left prefix given records)) (rows_left prefix given rows) }
{}
