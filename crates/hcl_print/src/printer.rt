//! Prints a file in a form that reads back as the same file.
ghost use Rattle.std.specs.Prelude.{◌≡◌, ◌++◌, OnOk, IfOk, map, ℕ, codes};
ghost use Rattle.hcl_print.specs.Print.{branch_text, branches, further, item_text, joined, kind_word, operator, printed, shown, signal_word, within};

use hcl_tree::{Branch, CmpOp, Expr, File, Item, Kind};
use std::alloc::Global;
use y86_base::{Memory, put, put_signed};

/// The text of a comparison operator, with its blanks.
fn operator_text(op: CmpOp) -> &'static [u8]
    ensures { result.now ≡ operator op }
{
    match op {
        CmpOp::Eq => b" == ",
        CmpOp::Ne => b" != ",
        CmpOp::Lt => b" < ",
        CmpOp::Le => b" <= ",
        CmpOp::Gt => b" > ",
        CmpOp::Ge => b" >= ",
    }
}

/// How tightly the operator of an expression binds, from 0 for an `||` list to 4.
fn rank(e: &Expr) -> u8
    ensures { result ≡ (shown e.now).rank }
{
    match e {
        Expr::Or(_) => 0,
        Expr::And(_) => 1,
        Expr::Not(_) => 2,
        Expr::Cmp(_, _, _) => 3,
        Expr::In(_, _) => 3,
        Expr::Num(_) => 4,
        Expr::Name(_) => 4,
        Expr::Case(_) => 4,
    }
}

/// Appends an expression in a place in which at least the rank `least` needs no parentheses.
#[cycle(printing)]
#[tactic(auto, unfolding(crate::specs::Print::within))]
fn put_within(out: &mut Vec<u8>, least: u8, e: &Expr) -> Result<(), Memory>
    ensures { OnOk result (out.new.items ≡ out.old.items ++ within least (shown e.now)) }
{
    if rank(e) < least {
        put(out, b"(")?;
        put_expr(out, e)?;
        put(out, b")")
    } else {
        put_expr(out, e)
    }
}

/// Appends the members of a list with a separator between them.
#[cycle(printing)]
#[tactic(auto, unfolding(crate::specs::Print::joined, crate::specs::Print::further))]
fn put_joined(out: &mut Vec<u8>, separator: &[u8], least: u8, es: &[Expr]) -> Result<(), Memory>
    ensures { OnOk result (out.new.items ≡ out.old.items ++ joined separator.now least (map shown es.now)) }
{
    let mut first = true;
    for e in es {
        if !first {
            put(out, separator)?;
        }
        first = false;
        put_within(out, least, e)?;
    }
    Ok(())
}

/// Appends the branches of a case list.
#[cycle(printing)]
#[tactic(auto, unfolding(crate::specs::Print::branches))]
fn put_branches(out: &mut Vec<u8>, bs: &[Branch]) -> Result<(), Memory>
    ensures { OnOk result (out.new.items ≡ out.old.items ++ branches (map branch_text bs.now)) }
{
    for b in bs {
        put_expr(out, &b.guard)?;
        put(out, b" : ")?;
        put_expr(out, &b.value)?;
        put(out, b"; ")?;
    }
    Ok(())
}

/// Appends an expression without parentheses around it.
#[cycle(printing)]
fn put_expr(out: &mut Vec<u8>, e: &Expr) -> Result<(), Memory>
    ensures { OnOk result (out.new.items ≡ out.old.items ++ (shown e.now).text) }
{
    match e {
        Expr::Num(n) => put_signed(out, *n),
        Expr::Name(name) => put(out, name.bytes()),
        Expr::Not(inner) => {
            put(out, b"!")?;
            put_within(out, 2, inner.get())
        }
        Expr::And(es) => put_joined(out, b" && ", 2, es.items()),
        Expr::Or(es) => put_joined(out, b" || ", 1, es.items()),
        Expr::Cmp(op, left, right) => {
            put_within(out, 4, left.get())?;
            put(out, operator_text(*op))?;
            put_within(out, 4, right.get())
        }
        Expr::In(left, es) => {
            put_within(out, 4, left.get())?;
            put(out, b" in { ")?;
            put_joined(out, b", ", 0, es.items())?;
            put(out, b" }")
        }
        Expr::Case(bs) => {
            put(out, b"[ ")?;
            put_branches(out, bs.items())?;
            put(out, b"]")
        }
    }
}

fn signal_text(kind: Kind) -> &'static [u8]
    ensures { result.now ≡ signal_word kind }
{
    match kind {
        Kind::Word => b"wordsig ",
        Kind::Bool => b"boolsig ",
    }
}

fn kind_text(kind: Kind) -> &'static [u8]
    ensures { result.now ≡ kind_word kind }
{
    match kind {
        Kind::Word => b"word ",
        Kind::Bool => b"bool ",
    }
}

/// Appends the line of an item.
#[tactic(auto, unfolding(crate::specs::Print::item_text))]
fn put_item(out: &mut Vec<u8>, item: &Item) -> Result<(), Memory>
    ensures { OnOk result (out.new.items ≡ out.old.items ++ item_text item.now) }
{
    match item {
        Item::Quote(text) => {
            put(out, b"quote '")?;
            put(out, text.bytes())?;
            put(out, b"'\n")
        }
        Item::Decl { kind, name, text } => {
            put(out, signal_text(*kind))?;
            put(out, name.bytes())?;
            put(out, b" '")?;
            put(out, text.bytes())?;
            put(out, b"'\n")
        }
        Item::Def { kind, name, body } => {
            put(out, kind_text(*kind))?;
            put(out, name.bytes())?;
            put(out, b" = ")?;
            put_expr(out, body)?;
            put(out, b";\n")
        }
    }
}

/// The printed form of a file: one item a line, parentheses only where the grammar needs them, numbers in signed
/// decimal. If a file is read, printed and read again, the result is the same file.
#[tactic(auto, unfolding(crate::specs::Print::printed))]
pub fn print(alloc: Global, f: &File) -> Result<Vec<u8>, Memory>
    ensures { IfOk result (λ out. out.items ≡ printed f.now.items) }
{
    let mut out = Vec::new(alloc);
    for item in f.items.items() {
        put_item(&mut out, item)?;
    }
    Ok(out)
}
