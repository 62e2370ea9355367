//! A theorem about binding: a function that does nothing; its contract is the theorem.
ghost use Rattle.std.specs.Prelude.{◌≡◌, List, Err};
ghost use Rattle.hcl_types.specs.declared.table.Row.{Row};
ghost use Rattle.hcl_binding.specs.declared.fault.BindFault.{BindFault};
ghost use Rattle.hcl_tree.specs.declared.tree.Item.{Item};
ghost use Rattle.hcl_binding.specs.Binding.{bound};
ghost use Rattle.hcl_binding.specs.Faults.{IsBindFault};
ghost use Rattle.hcl_types.specs.Tables.{IsSound};

/// What a fault of binding implies about the file and the table:
///
/// - `Unknown`: the name is no row, and some item mentions it.
/// - `Twice`: the name is defined after a first definition.
/// - `Missing`: a file has to define the row of this name, and has no definition of it.
/// - `Redefines`: a file may not define the row of this name.
/// - `KindMismatch`: some item declares or defines the name with another kind than its row's, or defines it by a body
///   of the other kind.
pub fn law_of_faults()
    ensures { (rows : List Row) (items : List Item) (e : BindFault) → IsSound rows → bound rows items ≡ Err e → IsBindFault rows items e.why e.name }
{}
