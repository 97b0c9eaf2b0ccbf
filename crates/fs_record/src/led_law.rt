//! Laws of led operations.
ghost use Rattle.std.specs.Prelude.{◌≡◌, ℕ, List, Some, true};
ghost use Rattle.fs_ident.specs.declared.actor.Session.{Session};
ghost use Rattle.fs_model.specs.Namespace.{NodeMap};
ghost use Rattle.fs_model.specs.Step.{step};
ghost use Rattle.fs_model.specs.declared.op.Op.{Op};
ghost use Rattle.fs_model.specs.declared.reply.Reply.{Reply};
ghost use Rattle.fs_record.specs.Applied.{nodes_after_all};
ghost use Rattle.fs_record.specs.LedEffects.{led_effects, moves_or_removes, named_file};

/// The effects of a delete, and of a rename to another place, on the file that is named, lead to the space that the operation
/// leads to, by the reply that it gets there.
pub fn led_effects_are_the_step()
    ensures { (m : NodeMap) (by : Session) (op : Op) (file : List ℕ) (reply : Reply) →
        moves_or_removes op ≡ true → named_file m op ≡ Some file → (step m by op).reply ≡ reply →
        nodes_after_all m (led_effects op file reply) ≡ (step m by op).nodes }
{}
