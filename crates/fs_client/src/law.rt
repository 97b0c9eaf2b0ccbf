//! Laws of a client's steps, over the definitions alone.
ghost use Rattle.std.specs.Prelude.{◌≡◌, ◌↔◌, ℕ, true, [], Some, None};
ghost use Rattle.fs_client.specs.Acts.{act_plan};
ghost use Rattle.fs_client.specs.Answers.{answer_plan};
ghost use Rattle.fs_client.specs.Client.{begun, committed};
ghost use Rattle.fs_client.specs.Laws.{IsAnswered, led_told, next_told, over_told};
ghost use Rattle.fs_client.specs.Turns.{turn_plan};
ghost use Rattle.fs_client.specs.declared.led.Led.{Led};
ghost use Rattle.fs_client.specs.declared.state.Client.{Client};
ghost use Rattle.fs_model.specs.declared.op.Op.{Op};
ghost use Rattle.fs_msg.specs.declared.act.Act.TheVariants as act;
ghost use Rattle.fs_msg.specs.declared.answer.Answer.{Answer};
ghost use Rattle.fs_record.specs.Effects.{tells_its_effects};
ghost use Rattle.fs_view.specs.View.{missing_in};

/// A client says that it is over exactly where an entry was refused, and names that entry.
pub fn only_the_refused_are_over()
    ensures { (c : Client) (now n : ℕ) (o : Op) →
        ((act_plan c now o).out.note ≡ act.Over n) ↔ (c.over ≡ Some n) }
{}

/// An entry is refused exactly where an answer to a log says so: no operation and no turn changes whether one was, and
/// no other answer does.
pub fn only_answers_refuse()
    ensures acts { (c : Client) (now : ℕ) (o : Op) →
        (committed (act_plan c now o).ready c).over ≡ c.over }
    ensures turns { (c : Client) (now : ℕ) →
        (committed (turn_plan c now).ready c).over ≡ c.over }
    ensures answers { (c : Client) (now from : ℕ) (a : Answer) →
        (committed (answer_plan c now from a).ready c).over ≡
        over_told (answer_plan c now from a).out.note c.over }
{}

/// What a server leads for a client ends with the answers that tell of its end, and with nothing else: while it is led no
/// operation and no turn changes what is led or uses a number, and of all answers one alone does, which says that it is
/// done: it uses the number up that the operation had.
pub fn only_its_answers_end_what_is_led()
    ensures acts { (c : Client) (now : ℕ) (o : Op) (l : Led) → c.led ≡ Some l →
        ((committed (act_plan c now o).ready c).led ≡ c.led) ×
        ((committed (act_plan c now o).ready c).next ≡ c.next) }
    ensures turns { (c : Client) (now : ℕ) →
        ((committed (turn_plan c now).ready c).led ≡ c.led) ×
        ((committed (turn_plan c now).ready c).next ≡ c.next) }
    ensures answers { (c : Client) (now from : ℕ) (a : Answer) →
        ((committed (answer_plan c now from a).ready c).led ≡
        led_told (answer_plan c now from a).out.note c.led) ×
        ((committed (answer_plan c now from a).ready c).next ≡
        next_told (answer_plan c now from a).out.note c.next) }
{}

/// A plain operation of which nothing is missing, of a session that is not over and for which nothing is led, is answered in
/// its own event, and no message is made.
pub fn what_is_known_is_answered()
    ensures { (c : Client) (now : ℕ) (o : Op) → tells_its_effects o ≡ true → c.over ≡ None →
        c.led ≡ None → missing_in (begun now c).view (begun now c).last o ≡ [] →
        IsAnswered (begun now c) o (act_plan c now o) }
{}
