//! Whether the lists of a record are in order.
ghost use Rattle.std.specs.Prelude.{◌≡◌, ◌&&◌};
ghost use Rattle.std.specs.Cmp.Lexicographic.{slice_cmp};
ghost use Rattle.std.specs.FinMap.Entries.{below_all};
ghost use Rattle.std.specs.Ordering.{nat_cmp};
ghost use Rattle.fs_ident.specs.Ordered.{are_keys_in_order};
ghost use Rattle.fs_model.specs.Handles.{handles_are_in_order, is_before_all};

use fs_ident::{FileId, Name};
use fs_model::{Handle, Node, handles};
use std::cmp::Ordering;

/// Whether the children rise strictly by name, and the handles by session and number.
pub fn is_in_order(node: &Node) -> bool
    ensures { result ≡
        (are_keys_in_order node.now.children && handles_are_in_order node.now.handles) }
{
    names_rise(node.children.as_slice()) && handles_rise(node.handles.as_slice())
}

/// Whether the names rise strictly.
fn names_rise(children: &[(Name, FileId)]) -> bool
    ensures { result ≡ are_keys_in_order children.now }
{
    match children.split_first() {
        None => true,
        Some((first, rest)) => names_rise_from(&first.0, rest),
    }
}

/// Whether they rise strictly from the name on.
fn names_rise_from(first: &Name, rest: &[(Name, FileId)]) -> bool
    ensures { result ≡
        (below_all (slice_cmp nat_cmp) first.now rest.now && are_keys_in_order rest.now) }
{
    let mut last = first;
    for (name, _) in rest {
        match last.cmp(name) {
            Ordering::Less => last = name,
            _ => return false,
        }
    }
    true
}

/// Whether the handles rise strictly, by session and then by number.
fn handles_rise(handles: &[Handle]) -> bool
    ensures { result ≡ handles_are_in_order handles.now }
{
    match handles.split_first() {
        None => true,
        Some((first, rest)) => handles_rise_from(*first, rest),
    }
}

/// Whether they rise strictly from the handle on.
fn handles_rise_from(first: Handle, rest: &[Handle]) -> bool
    ensures { result ≡ (is_before_all first rest.now && handles_are_in_order rest.now) }
{
    let mut last = first;
    for x in rest {
        if !handles::comes_before(last, *x) {
            return false;
        }
        last = *x;
    }
    true
}
