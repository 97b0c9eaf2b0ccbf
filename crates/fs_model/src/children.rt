//! The children of a directory, in order of name.
ghost use Rattle.std.specs.Prelude.{◌≡◌, IsTrue, IfOk, OnOk, OnErr};
ghost use Rattle.std.specs.Option.{option_copied};
ghost use Rattle.fs_ident.specs.Ordered.{are_keys_in_order};
ghost use Rattle.fs_model.specs.Children.{child_at, with_child, without_child, names_of};

use fs_ident::{FileId, List, Memory, Name, Twin, search_by_name};
use std::alloc::Global;

/// The child of that name.
pub fn find<'a>(children: &'a [(Name, FileId)], name: &Name) -> Option<&'a FileId>
    requires { IsTrue (are_keys_in_order children.now) }
    ensures { option_copied result ≡ child_at children.now name.now }
{
    match search_by_name(children, name) {
        Ok(at) => Some(&children[at].1),
        Err(_) => None,
    }
}

/// Lets the name stand for the file, whatever it stood for.
pub fn link(children: &mut List<(Name, FileId)>, name: Name, file: FileId) -> Result<(), Memory>
    requires { IsTrue (are_keys_in_order children.old) }
    ensures ok { OnOk result (children.new ≡ with_child children.old name file) }
    ensures err { OnErr result (children.new ≡ children.old) }
{
    match search_by_name(children.as_slice(), &name) {
        Ok(at) => {
            children.replace(at, (name, file));
            Ok(())
        }
        Err(at) => children.insert(at, (name, file)),
    }
}

/// Takes out the child of that name.
pub fn take(children: &mut List<(Name, FileId)>, name: &Name) -> Option<FileId>
    requires { IsTrue (are_keys_in_order children.old) }
    ensures taken { result ≡ child_at children.old name.now }
    ensures rest { children.new ≡ without_child children.old name.now }
{
    match search_by_name(children.as_slice(), name) {
        Ok(at) => Some(children.remove(at).1),
        Err(_) => None,
    }
}

/// The names, in order.
pub fn names(alloc: Global, children: &[(Name, FileId)]) -> Result<List<Name>, Memory>
    ensures { IfOk result (λ names. names ≡ names_of children.now) }
{
    let mut names = List::from_vec(Vec::with_capacity(alloc, children.len())?);
    for child in children {
        names.push(child.0.copy(alloc)?)?;
    }
    Ok(names)
}
