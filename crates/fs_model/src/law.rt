//! Laws of the namespace, over its definitions alone.
ghost use Rattle.std.specs.Prelude.{◌≡◌, ◌≢◌, ℕ, List, true, false, Some, IfSome, IsTrue, AllPairs};
ghost use Rattle.std.specs.FinMap.{get};
ghost use Rattle.fs_ident.specs.declared.actor.Session.{Session};
ghost use Rattle.fs_modes.specs.declared.modes.Modes.{Modes};
ghost use Rattle.fs_modes.specs.Modes.{conflicts};
ghost use Rattle.fs_model.specs.Asking.{may_ask};
ghost use Rattle.fs_model.specs.Ancestors.{ancestors, ancestors_within, is_among};
ghost use Rattle.fs_model.specs.Namespace.{NodeMap, IsSpace, first_space};
ghost use Rattle.fs_model.specs.Sound.{IsSound, AsksAccess, AllAskAccess, AreApart, space_after, is_change, open_of};
ghost use Rattle.fs_model.specs.Step.{step};
ghost use Rattle.fs_model.specs.declared.op.Op.{Op};
ghost use Rattle.fs_model.specs.declared.op.Op.TheVariants.{Rename};

/// The root directory alone is a sound space.
pub fn first_space_is_sound()
    ensures { IsSound first_space }
{}

/// A step leads from a sound space to a sound one where an open asks for an access, and whatever a caller may ask does.
pub fn steps_stay_sound()
    ensures callers { (op : Op) → may_ask op ≡ true → AsksAccess op }
    ensures steps { (m : NodeMap) (by : Session) (op : Op) → IsSound m → AsksAccess op →
        IsSound (step m by op).nodes }
{}

/// Whatever a list of sessions does, one after the other, a sound space stays sound.
pub fn runs_stay_sound()
    ensures { (m : NodeMap) (ops : List (Session × Op)) → IsSound m → AllAskAccess ops →
        IsSound (space_after m ops) }
{}

/// Children stay in order of name and handles in order of session and number, and in a sound space they are.
pub fn steps_keep_order()
    ensures steps { (m : NodeMap) (by : Session) (op : Op) → IsSpace m →
        IsSpace (step m by op).nodes }
    ensures sound { (m : NodeMap) → IsSound m → IsSpace m }
{}

/// No file is among its own ancestors.
pub fn no_file_is_its_own_ancestor()
    ensures { (m : NodeMap) (file : List ℕ) → IsSound m → is_among file (ancestors m file) ≡ false }
{}

/// Following parents, however far, gives no file that is not among the ancestors.
pub fn every_ancestor_is_listed()
    ensures { (m : NodeMap) (file other : List ℕ) (k : ℕ) → IsSound m →
        IsTrue (is_among other (ancestors_within k m file)) →
        IsTrue (is_among other (ancestors m file)) }
{}

/// Two handles of one file are of two sessions or have two numbers, and neither's access is denied by the other.
pub fn no_two_handles_conflict()
    ensures listed { (m : NodeMap) (file : List ℕ) → IsSound m →
        IfSome (get m file) (λ n. AllPairs AreApart n.handles) }
    ensures numbered { (m : NodeMap) (file : List ℕ) (x y : Session × ℕ) (a b : Modes) → IsSound m →
        x ≢ y →
        open_of (get m file) x ≡ Some a → open_of (get m file) y ≡ Some b → conflicts a b ≡ false }
{}

/// Every reply but to a change leaves the space as it is, and so does a rename to the place that the file has.
pub fn reads_change_nothing()
    ensures reads { (m : NodeMap) (by : Session) (op : Op) →
        is_change (step m by op).reply ≡ false →
        (step m by op).nodes ≡ m }
    ensures same_place { (m : NodeMap) (by : Session) (dir name : List ℕ) →
        (step m by (Rename dir name dir name)).nodes ≡ m }
{}
