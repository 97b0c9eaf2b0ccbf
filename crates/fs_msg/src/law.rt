//! The laws of the spellings.
ghost use Rattle.std.specs.Prelude.{◌≡◌, ◌++◌, [], List, ℕ};
ghost use Rattle.fs_wire.specs.Laws.{IsReadBack, WasSpelled};
ghost use Rattle.fs_wire.specs.Places.{AreApart, StopsInPlace};
ghost use Rattle.fs_wire.specs.Tags.{one_tag, plain};
ghost use Rattle.fs_msg.specs.declared.limits.TheConstants.{LONGEST, SERVERS};
ghost use Rattle.fs_msg.specs.declared.msg.Msg.{Msg};
ghost use Rattle.fs_msg.specs.Ranges.{FitsDecide, FitsDone, FitsLead, FitsLedEnd, FitsMessage, FitsPrepare, FitsVoted, FitsWhy};
ghost use Rattle.fs_msg.specs.Reading.{decide_at, done_at, lead_at, led_end_at, prepare_at, voted_at, why_at};
ghost use Rattle.fs_msg.specs.Spelling.{decide, done, lead, led_end, message, prepare, voted, why};
ghost use Rattle.fs_msg.specs.Tags.{decide_tags, lead_tags, led_end_tags, prepare_tags, voted_tags};

/// Messages are told apart by their bytes: no message is a proper prefix of another, and two messages with the
/// same bytes are one.
pub fn no_message_begins_another()
    ensures whole { (m n : Msg) (rest : List ℕ) → FitsMessage m → FitsMessage n →
        message n ≡ message m ++ rest → rest ≡ [] }
    ensures one { (m n : Msg) → FitsMessage m → FitsMessage n → message m ≡ message n → m ≡ n }
{}

/// What messages of led operations carry is read where it is spelled, whatever follows.
pub fn what_led_messages_carry_is_read_back()
    ensures whys { IsReadBack why_at FitsWhy why }
    ensures ends { IsReadBack led_end_at FitsLedEnd led_end }
    ensures leads { IsReadBack lead_at FitsLead lead }
    ensures prepares { IsReadBack prepare_at FitsPrepare prepare }
    ensures votes { IsReadBack voted_at FitsVoted voted }
    ensures decides { IsReadBack decide_at FitsDecide decide }
    ensures dones { IsReadBack done_at FitsDone done }
{}

/// What is read of messages of led operations was spelled so.
pub fn what_led_messages_carry_was_spelled()
    ensures whys { WasSpelled why_at FitsWhy why }
    ensures ends { WasSpelled led_end_at FitsLedEnd led_end }
    ensures leads { WasSpelled lead_at FitsLead lead }
    ensures prepares { WasSpelled prepare_at FitsPrepare prepare }
    ensures votes { WasSpelled voted_at FitsVoted voted }
    ensures decides { WasSpelled decide_at FitsDecide decide }
    ensures dones { WasSpelled done_at FitsDone done }
{}

/// Of what messages of led operations carry, no spelling is a proper prefix of another, and two values with the same bytes are one.
pub fn what_led_messages_carry_is_apart()
    ensures whys { AreApart FitsWhy why }
    ensures ends { AreApart FitsLedEnd led_end }
    ensures leads { AreApart FitsLead lead }
    ensures prepares { AreApart FitsPrepare prepare }
    ensures votes { AreApart FitsVoted voted }
    ensures decides { AreApart FitsDecide decide }
    ensures dones { AreApart FitsDone done }
{}

/// Where reading what messages of led operations carry stops, it says the place.
pub fn what_led_messages_carry_stops_in_place()
    ensures whys { StopsInPlace why_at FitsWhy why (λ w. one_tag (why w)) }
    ensures ends { StopsInPlace led_end_at FitsLedEnd led_end led_end_tags }
    ensures leads { StopsInPlace lead_at FitsLead lead lead_tags }
    ensures prepares { StopsInPlace prepare_at FitsPrepare prepare prepare_tags }
    ensures votes { StopsInPlace voted_at FitsVoted voted voted_tags }
    ensures decides { StopsInPlace decide_at FitsDecide decide decide_tags }
    ensures dones { StopsInPlace done_at FitsDone done (λ m. plain (done m)) }
{}

/// The limits of a service, each as a number: how many servers it has at most, and the greatest skew and term in milliseconds.
pub fn limits_of_a_service()
    ensures servers { SERVERS ≡ 15 }
    ensures longest { LONGEST ≡ 1000000000 }
{}
