//! What deletes and renames do stands on what they need.
ghost use Rattle.std.specs.Prelude.{◌≡◌};
ghost use Rattle.fs_ident.specs.declared.actor.Session.{Session};
ghost use Rattle.fs_model.specs.Namespace.{NodeMap};
ghost use Rattle.fs_model.specs.Step.{step};
ghost use Rattle.fs_model.specs.declared.op.Op.{Op};
ghost use Rattle.fs_view.specs.Laws.{AgreeOn};
ghost use Rattle.fs_view.specs.LedEffects.{led_effects_in};
ghost use Rattle.fs_view.specs.Walk.{always, known_in, walk};

/// Two spaces that agree on the values of the needs of a delete or a rename, as one session sees them, and give it the same
/// reply, give it the same effects on the same file. Replies alone tell whether a directory would come into itself.
pub fn led_effects_stand_on_their_needs()
    ensures { (m n : NodeMap) (by : Session) (op : Op) →
        AgreeOn m n by (walk (known_in m by) always op).items →
        (step m by op).reply ≡ (step n by op).reply →
        led_effects_in m by op ≡ led_effects_in n by op }
{}
