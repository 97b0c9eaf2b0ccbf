//! The numbers of the leases on each field.
ghost use Rattle.std.specs.Prelude.{◌≡◌, ◌∷◌, [], true, Some, IfOk, OnOk};
ghost use Rattle.std.specs.BTreeMap.{Updates};
ghost use Rattle.fs_field.specs.declared.field.Field.{Field as TheField};
ghost use Rattle.fs_view.specs.Index.{ChangesAt, IsNoted, and_number, but_number, field_cmp, numbers_at};

use fs_field::Field;
use fs_ident::{LeaseNo, List, Memory, Twin};
use std::alloc::Global;
use std::collections::BTreeMap;

/// The numbers of the leases on each field, in order of grant. A field that no lease is on is no key.
#[derive(Debug, Drop)]
pub(crate) struct FieldIndex {
    fields: BTreeMap<Field, List<LeaseNo>>,
    /// Whether it has them all. It has not any more once memory was wanting.
    whole: bool,
}

impl FieldIndex {
    /// That of no lease, which takes no memory.
    pub(crate) fn new(alloc: Global) -> FieldIndex
        ensures { (field : TheField) → numbers_at result.fields field ≡ [] }
    {
        FieldIndex {
            fields: BTreeMap::new(alloc),
            whole: true,
        }
    }

    /// Whether it has the numbers of all leases.
    pub(crate) fn is_whole(&self) -> bool
        ensures { result ≡ self.now.whole }
    {
        self.whole
    }

    /// The numbers on the field.
    pub(crate) fn on(&self, field: &Field) -> &[LeaseNo]
        ensures { result.now ≡ numbers_at self.now.fields field.now }
    {
        match self.fields.get(field) {
            Some(numbers) => numbers.as_slice(),
            None => &[],
        }
    }

    /// Adds the number on the field. It is not whole any more when out of memory.
    pub(crate) fn add(&mut self, alloc: Global, field: &Field, no: LeaseNo)
        ensures { IsNoted no field.now self.old self.new }
    {
        match add_number(alloc, &mut self.fields, field, no) {
            Ok(()) => {}
            Err(_) => self.whole = false,
        }
    }

    /// Takes the number off the field, which takes no memory.
    pub(crate) fn forget(&mut self, field: &Field, no: LeaseNo)
        ensures whole { self.new.whole ≡ self.old.whole }
        ensures changed { ChangesAt (but_number no) field.now self.old.fields self.new.fields }
    {
        if thin(&mut self.fields, field, no) {
            self.fields.remove(field);
        }
    }
}

fn add_number(
    alloc: Global,
    fields: &mut BTreeMap<Field, List<LeaseNo>>,
    field: &Field,
    no: LeaseNo,
) -> Result<(), Memory>
    ensures { OnOk result (ChangesAt (and_number no) field.now fields.old fields.new) }
{
    match fields.get_mut(field) {
        Some(numbers) => numbers.push(no),
        None => {
            let first = first_number(alloc, no)?;
            put(fields, field.copy(alloc)?, first)
        }
    }
}

fn first_number(alloc: Global, no: LeaseNo) -> Result<List<LeaseNo>, Memory>
    ensures { IfOk result (λ numbers. numbers ≡ no ∷ []) }
{
    let mut numbers = List::new(alloc);
    numbers.push(no)?;
    Ok(numbers)
}

fn put(
    fields: &mut BTreeMap<Field, List<LeaseNo>>,
    field: Field,
    numbers: List<LeaseNo>,
) -> Result<(), Memory>
    ensures { OnOk result (Updates field_cmp fields.old fields.new field (Some numbers)) }
{
    fields.insert(field, numbers)?;
    Ok(())
}

/// Takes the number off those of the field, and tells whether none is left.
fn thin(fields: &mut BTreeMap<Field, List<LeaseNo>>, field: &Field, no: LeaseNo) -> bool
    ensures changed { ChangesAt (but_number no) field.now fields.old fields.new }
    ensures empty { result ≡ true → numbers_at fields.new field.now ≡ [] }
{
    match fields.get_mut(field) {
        Some(numbers) => {
            take_out(numbers.items_mut(), no);
            numbers.is_empty()
        }
        None => false,
    }
}

/// Takes the number out.
fn take_out(numbers: &mut Vec<LeaseNo>, no: LeaseNo)
    ensures { numbers.new.items ≡ but_number no numbers.old.items }
{
    numbers.retain(|n| *n != no);
}
