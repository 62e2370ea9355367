//! Every fault of binding, found by binding each item alone: `bind` itself stops at the first.
ghost use Rattle.std.specs.Prelude.{◌≡◌, ◌≢◌, ◌∷◌, ◌++◌, [], List, IfOk, OnOk, is_some, length, Some, Err};
ghost use Rattle.hcl_tree.specs.declared.tree.Item.{Item};
ghost use Rattle.hcl_binding.specs.declared.fault.BindFault.{BindFault};
ghost use Rattle.hcl_types.specs.declared.table.Row.{Row};
ghost use Rattle.hcl_binding.specs.Binding.{bound, definition, fault, item_fault, row_named};
ghost use Rattle.hcl_types.specs.Tables.{IsSound};
ghost use Rattle.hcl_binding.specs.declared.fault.BindWhy.TheVariants.{Memory as OutOfMemory, Twice as Again};
ghost use Rattle.hcl_faults.specs.BindFaults as spec;

use hcl_binding::{BindFault, BindWhy, bind};
use hcl_tree::{File, Item, Text};
use hcl_types::{Row, Table, is_defined};
use std::alloc::Global;
use y86_base::{Items, Memory, push};

/// The fault of an item; items are counted from 0.
#[derive(Debug, PartialEq, Drop)]
pub struct ItemFault {
    pub item: usize,
    pub fault: BindFault,
}

/// Whether an item of the list defines a name.
pub fn is_defined_by(items: &[Item], name: &Text) -> bool
    ensures { result ≡ is_some (definition items.now name.now) }
{
    for item in items {
        if let Item::Def {
            kind: _,
            name: other,
            body: _,
        } = item
        {
            if *name == *other {
                return true;
            }
        }
    }
    false
}

/// Whether a file must define a name.
fn must_define(rows: &[Row], name: &Text) -> bool
    ensures { result ≡ spec.must_define (row_named rows.now name.now) }
{
    for row in rows {
        if *name == row.name {
            return is_defined(&row.role);
        }
    }
    false
}

/// The names that a file must define and doesn't, in table order.
pub fn missing_names(alloc: Global, rows: &[Row], items: &[Item]) -> Result<Vec<Text>, Memory>
    ensures { IfOk result (λ names. names.items ≡ spec.missing_names rows.now items.now) }
{
    let mut names = Vec::new(alloc);
    for row in rows {
        if is_defined(&row.role) && !is_defined_by(items, &row.name) {
            match row.name.copy(alloc) {
                Err(memory) => return Err(memory),
                Ok(name) => match push(&mut names, name) {
                    Ok(()) => {}
                    Err(memory) => return Err(memory),
                },
            }
        }
    }
    Ok(names)
}

/// The fault of an item alone, from the fault of a file with no other item: there a missing signal isn't the item's
/// fault.
fn own_fault(fault: BindFault) -> Result<Option<BindFault>, Memory>
    ensures { IfOk result (λ own. (fault.why ≢ OutOfMemory) × (own ≡ spec.own_fault fault.why fault)) }
{
    match fault.why {
        BindWhy::Memory => Err(Memory),
        BindWhy::Missing => Ok(None),
        _ => Ok(Some(fault)),
    }
}

/// The fault of the one item of a file.
fn only_fault(alloc: Global, file: &File, table: &Table) -> Result<Option<BindFault>, Memory>
    requires { IsSound table.now.rows }
    ensures { (i : Item) → file.now.items ≡ i ∷ [] → IfOk result (λ own. own ≡ item_fault table.now.rows [] i) }
{
    match bind(alloc, file, table) {
        Ok(_) => Ok(None),
        Err(fault) => own_fault(fault),
    }
}

/// The fault of an item if nothing is defined before it, and the item, handed back.
fn fault_alone(
    alloc: Global,
    table: &Table,
    item: Item,
) -> Result<(Option<BindFault>, Item), Memory>
    requires { IsSound table.now.rows }
    ensures { IfOk result (λ r. (r.0 ≡ item_fault table.now.rows [] item) × (r.1 ≡ item)) }
{
    let mut one = Vec::new(alloc);
    match push(&mut one, item) {
        Err(memory) => return Err(memory),
        Ok(()) => {}
    }
    let items = Items::of(one);
    let file = File { items };
    match only_fault(alloc, &file, table) {
        Err(memory) => Err(memory),
        Ok(fault) => match file.items.into_vec().pop() {
            None => Err(Memory),
            Some(item) => Ok((fault, item)),
        },
    }
}

/// Whether an item defines again a name that the file must define.
fn is_twice(rows: &[Row], before: &[Item], item: &Item) -> bool
    ensures { result ≡ spec.is_twice rows.now before.now item.now }
{
    match item {
        Item::Quote(_) => false,
        Item::Decl {
            kind: _,
            name: _,
            text: _,
        } => false,
        Item::Def {
            kind: _,
            name,
            body: _,
        } => must_define(rows, name) && is_defined_by(before, name),
    }
}

/// The fault of an item whose name was defined before.
fn twice(alloc: Global, item: &Item) -> Result<BindFault, Memory>
    ensures { IfOk result (λ e. e ≡ fault Again (spec.defined_name item.now)) }
{
    match item {
        Item::Quote(_) => Err(Memory),
        Item::Decl {
            kind: _,
            name: _,
            text: _,
        } => Err(Memory),
        Item::Def {
            kind: _,
            name,
            body: _,
        } => match name.copy(alloc) {
            Err(memory) => Err(memory),
            Ok(name) => {
                let why = BindWhy::Twice;
                Ok(BindFault { why, name })
            }
        },
    }
}

/// The fault of an item after some others, and the item, handed back.
#[tactic(auto, using(crate::proofs::ItemLemmas::fault_twice, crate::proofs::ItemLemmas::fault_once))]
fn fault_behind(
    alloc: Global,
    table: &Table,
    before: &[Item],
    item: Item,
) -> Result<(Option<BindFault>, Item), Memory>
    requires { IsSound table.now.rows }
    ensures fault { IfOk result (λ r. r.0 ≡ item_fault table.now.rows before.now item) }
    ensures item { IfOk result (λ r. r.1 ≡ item) }
{
    if is_twice(table.rows.items(), before, &item) {
        match twice(alloc, &item) {
            Err(memory) => Err(memory),
            Ok(fault) => Ok((Some(fault), item)),
        }
    } else {
        fault_alone(alloc, table, item)
    }
}

/// Appends the fault of an item, if it has one.
fn put_fault(list: &mut Vec<ItemFault>, item: usize, fault: Option<BindFault>) -> Result<(), Memory>
    ensures { OnOk result (list.new.items ≡ list.old.items ++ spec.with_fault item fault []) }
{
    match fault {
        None => Ok(()),
        Some(fault) => push(list, ItemFault { item, fault }),
    }
}

/// Adds an item after others, and its fault.
fn add_item(
    alloc: Global,
    table: &Table,
    list: &mut Vec<ItemFault>,
    done: &mut Vec<Item>,
    item: Item,
) -> Result<(), Memory>
    requires { IsSound table.now.rows }
    ensures list { OnOk result (list.new.items ≡ list.old.items ++ spec.with_fault (length done.old.items) (item_fault table.now.rows done.old.items item) []) }
    ensures done { OnOk result (done.new.items ≡ done.old.items ++ item ∷ []) }
{
    let index = done.len();
    match fault_behind(alloc, table, done.as_slice(), item) {
        Err(memory) => Err(memory),
        Ok((fault, item)) => match put_fault(list, index, fault) {
            Err(memory) => Err(memory),
            Ok(()) => push(done, item),
        },
    }
}

/// The faults of a file's items in text order, at most one for each item, and the items, handed back. The first fault
/// is the one that `bind` reports (`law_of_first_faults`).
pub fn item_faults(
    alloc: Global,
    file: File,
    table: &Table,
) -> Result<(Vec<ItemFault>, Vec<Item>), Memory>
    requires { IsSound table.now.rows }
    ensures faults { IfOk result (λ r. r.0.items ≡ spec.item_faults table.now.rows [] file.items) }
    ensures items { IfOk result (λ r. r.1.items ≡ file.items) }
{
    let mut list = Vec::new(alloc);
    let mut done = Vec::new(alloc);
    let mut left = file.items.into_vec().into_iter();
    'items: loop {
        match left.next() {
            None => return Ok((list, done)),
            Some(item) => match add_item(alloc, table, &mut list, &mut done, item) {
                Err(memory) => return Err(memory),
                Ok(()) => {}
            },
        }
    }
}

/// `bind` reports the first of the items' faults. If there is none, it reports the first missing signal, and a file
/// without either is a design.
#[tactic(auto, using(crate::proofs::ItemLemmas::first_is_told, crate::proofs::ItemLemmas::missing_is_told))]
pub fn law_of_first_faults()
    ensures first { (rows : List Row) (items : List Item) (e : BindFault) → spec.first_of (spec.item_faults rows [] items) ≡ Some e → bound rows items ≡ Err e }
    ensures else_missing { (rows : List Row) (items : List Item) → IsSound rows → spec.item_faults rows [] items ≡ [] → spec.TellsMissing (bound rows items) (spec.missing_names rows items) }
{}
