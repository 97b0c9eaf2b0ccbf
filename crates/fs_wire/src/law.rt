//! The laws of the spellings of values.
ghost use Rattle.fs_wire.specs.Laws.{IsReadBack, WasSpelled};
ghost use Rattle.fs_wire.specs.Places.{AreApart, StopsInPlace};
ghost use Rattle.fs_wire.specs.Ranges.{FitsField, FitsNext, FitsNode, FitsOp, FitsReply, FitsRow, FitsUse, FitsValue};
ghost use Rattle.fs_wire.specs.Ranges.{FitsEffect, FitsPart, FitsVote};
ghost use Rattle.fs_wire.specs.Reading.{field_at, lease_use_at, next_at, node_at, op_at, reply_at, row_at, value_at};
ghost use Rattle.fs_wire.specs.Reading.{effect_at, part_at, vote_at};
ghost use Rattle.fs_wire.specs.Spelling.{effect, eight, field, lease_use, node, op, part, reply, row, value, vote};
ghost use Rattle.fs_wire.specs.Tags.{lease_use_tags, one_tag, part_tags, plain, row_tags};

/// What is spelled is read, whatever follows.
pub fn what_is_spelled_is_read()
    ensures fields { IsReadBack field_at FitsField field }
    ensures values { IsReadBack value_at FitsValue value }
    ensures operations { IsReadBack op_at FitsOp op }
    ensures replies { IsReadBack reply_at FitsReply reply }
    ensures uses { IsReadBack lease_use_at FitsUse lease_use }
    ensures rows { IsReadBack row_at FitsRow row }
    ensures nodes { IsReadBack node_at FitsNode node }
    ensures nexts { IsReadBack next_at FitsNext eight }
    ensures effects { IsReadBack effect_at FitsEffect effect }
    ensures parts { IsReadBack part_at FitsPart part }
    ensures votes { IsReadBack vote_at FitsVote vote }
{}

/// What is read was spelled so.
pub fn what_is_read_was_spelled()
    ensures fields { WasSpelled field_at FitsField field }
    ensures values { WasSpelled value_at FitsValue value }
    ensures operations { WasSpelled op_at FitsOp op }
    ensures replies { WasSpelled reply_at FitsReply reply }
    ensures uses { WasSpelled lease_use_at FitsUse lease_use }
    ensures rows { WasSpelled row_at FitsRow row }
    ensures nodes { WasSpelled node_at FitsNode node }
    ensures nexts { WasSpelled next_at FitsNext eight }
    ensures effects { WasSpelled effect_at FitsEffect effect }
    ensures parts { WasSpelled part_at FitsPart part }
    ensures votes { WasSpelled vote_at FitsVote vote }
{}

/// No spelling is a proper prefix of another, and two values with the same bytes are one.
pub fn no_spelling_begins_another()
    ensures fields { AreApart FitsField field }
    ensures values { AreApart FitsValue value }
    ensures operations { AreApart FitsOp op }
    ensures replies { AreApart FitsReply reply }
    ensures uses { AreApart FitsUse lease_use }
    ensures rows { AreApart FitsRow row }
    ensures nodes { AreApart FitsNode node }
    ensures nexts { AreApart FitsNext eight }
    ensures effects { AreApart FitsEffect effect }
    ensures parts { AreApart FitsPart part }
    ensures votes { AreApart FitsVote vote }
{}

/// Where reading stops, the bytes before the place begin some spelling that goes on, no more of them do, and a tag stands at the
/// place exactly where the fault says so.
pub fn reading_stops_in_place()
    ensures fields { StopsInPlace field_at FitsField field (λ v. one_tag (field v)) }
    ensures values { StopsInPlace value_at FitsValue value (λ v. one_tag (value v)) }
    ensures operations { StopsInPlace op_at FitsOp op (λ v. one_tag (op v)) }
    ensures replies { StopsInPlace reply_at FitsReply reply (λ v. one_tag (reply v)) }
    ensures uses { StopsInPlace lease_use_at FitsUse lease_use lease_use_tags }
    ensures rows { StopsInPlace row_at FitsRow row row_tags }
    ensures nodes { StopsInPlace node_at FitsNode node (λ n. plain (node n)) }
    ensures nexts { StopsInPlace next_at FitsNext eight (λ n. plain (eight n)) }
    ensures effects { StopsInPlace effect_at FitsEffect effect (λ v. one_tag (effect v)) }
    ensures parts { StopsInPlace part_at FitsPart part part_tags }
    ensures votes { StopsInPlace vote_at FitsVote vote (λ v. one_tag (vote v)) }
{}
