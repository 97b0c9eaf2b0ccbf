//! What cutting and joining are for.
ghost use Rattle.std.specs.Prelude.{◌≡◌, ◌<◌, ◌^◌, ◌++◌, ◌∷◌, ℕ, [], length, flat_map, IsOk};
ghost use Rattle.std.specs.Prelude.{List as Seq};
ghost use Rattle.std.specs.List.{AllByRecursion};
ghost use Rattle.fs_ident.specs.In.{In};
ghost use Rattle.fs_frag.specs.Coming.{IsComing, HaveCome};
ghost use Rattle.fs_frag.specs.Cut.{cut_of};
ghost use Rattle.fs_frag.specs.Segment.{IsSegment};
ghost use Rattle.fs_frag.specs.Joined.{answers, answers_for, messages_of};

/// A message is cut into segments. A new joiner that is given the segments of messages, one message after another,
/// gives these messages in order, whole and once, each at its last segment.
pub fn joined_is_cut()
    ensures segments { (message segment : Seq ℕ) →
        In segment (cut_of message) → IsSegment segment }
    ensures whole_and_once { (messages : Seq (Seq ℕ)) →
        AllByRecursion (λ m. length m < 2 ^ 64) messages →
        messages_of (answers [] (flat_map cut_of messages)) ≡ messages }
    ensures at_the_last { (messages : Seq (Seq ℕ)) →
        AllByRecursion (λ m. length m < 2 ^ 64) messages →
        answers [] (flat_map cut_of messages) ≡ flat_map answers_for messages }
    // The segments that have come so far give the first of the messages.
    ensures so_far { (messages segments rest : Seq (Seq ℕ)) →
        AllByRecursion (λ m. length m < 2 ^ 64) messages →
        segments ++ rest ≡ flat_map cut_of messages →
        (others : Seq (Seq ℕ)) × (messages_of (answers [] segments) ++ others ≡ messages) }
    ensures never_over { (messages segments rest : Seq (Seq ℕ)) →
        AllByRecursion (λ m. length m < 2 ^ 64) messages →
        segments ++ rest ≡ flat_map cut_of messages → AllByRecursion IsOk (answers [] segments) }
{}

/// What is still to come at a joiner, event by event: at a new joiner nothing is; a message that is cut joins it at
/// its end; of segments that come now, the messages that they complete are its beginning, none of them is too much,
/// and the rest is still to come.
pub fn what_is_coming()
    ensures none { IsComing [] [] [] }
    ensures more { (held : Seq ℕ) (segments messages : Seq (Seq ℕ)) (message : Seq ℕ) →
        length message < 2 ^ 64 → IsComing held segments messages →
        IsComing held (segments ++ cut_of message) (messages ++ message ∷ []) }
    ensures now { (held : Seq ℕ) (now later messages : Seq (Seq ℕ)) →
        IsComing held (now ++ later) messages → HaveCome held now later messages }
{}
