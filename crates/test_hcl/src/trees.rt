//! Tests of the tree of each form of item and expression.
use hcl_print::print;
use hcl_read::read;
use hcl_tree::{Branch, CmpOp, Expr, File, Item, Kind, Text};
use std::test::Fail;
use y86_base::{Boxed, Items};

fn var(rt: &HostRuntime, bytes: &[u8]) -> Result<Expr, Fail> {
    Ok(Expr::Name(Text::of(rt.alloc(), bytes)?))
}

fn boxed(rt: &HostRuntime, e: Expr) -> Result<Boxed<Expr>, Fail> {
    Ok(Boxed::of(rt.alloc(), e)?)
}

fn two(rt: &HostRuntime, first: Expr, second: Expr) -> Result<Items<Expr>, Fail> {
    Ok(Items::of(vec![in rt.alloc(); first, second]?))
}

/// Each form of item and expression.
static FORMS: &[u8] =
    b"quote 'it # is'\nintsig x '' boolsig b 'q'# one\nint w=[b&&!c||d:-8;1:(x);];\nbool t = (a || (b || c)) && a in { 0, x >= 9223372036854775807 };\nbool u = !!a <= -0;";

/// The same in the form that is printed.
static PRINTED: &[u8] =
    b"quote 'it # is'\nwordsig x ''\nboolsig b 'q'\nword w = [ b && !c || d : -8; 1 : x; ];\nbool t = (a || (b || c)) && a in { 0, x >= 9223372036854775807 };\nbool u = !!a <= 0;\n";

/// `[ b && !c || d : -8; 1 : x; ]`
fn cases(rt: &HostRuntime) -> Result<Expr, Fail> {
    let c = Expr::Not(boxed(rt, var(rt, b"c")?)?);
    let both = Expr::And(two(rt, var(rt, b"b")?, c)?);
    let guard = Expr::Or(two(rt, both, var(rt, b"d")?)?);
    let value = Expr::Num(0xffff_ffff_ffff_fff8);
    let first = Branch { guard, value };
    let guard = Expr::Num(1);
    let value = var(rt, b"x")?;
    let last = Branch { guard, value };
    Ok(Expr::Case(Items::of(vec![in rt.alloc(); first, last]?)))
}

/// `(a || (b || c)) && a in { 0, x >= 9223372036854775807 }`
fn connectives(rt: &HostRuntime) -> Result<Expr, Fail> {
    let inner = Expr::Or(two(rt, var(rt, b"b")?, var(rt, b"c")?)?);
    let outer = Expr::Or(two(rt, var(rt, b"a")?, inner)?);
    let most = boxed(rt, Expr::Num(0x7fff_ffff_ffff_ffff))?;
    let least = Expr::Cmp(CmpOp::Ge, boxed(rt, var(rt, b"x")?)?, most);
    let members = two(rt, Expr::Num(0), least)?;
    let set = Expr::In(boxed(rt, var(rt, b"a")?)?, members);
    Ok(Expr::And(two(rt, outer, set)?))
}

/// `!!a <= 0`
fn negated(rt: &HostRuntime) -> Result<Expr, Fail> {
    let left = boxed(rt, var(rt, b"a")?)?;
    let compared = Expr::Cmp(CmpOp::Le, left, boxed(rt, Expr::Num(0))?);
    Ok(Expr::Not(boxed(rt, Expr::Not(boxed(rt, compared)?))?))
}

fn definition(rt: &HostRuntime, kind: Kind, name: &[u8], body: Expr) -> Result<Item, Fail> {
    let name = Text::of(rt.alloc(), name)?;
    Ok(Item::Def { kind, name, body })
}

fn declaration(rt: &HostRuntime, kind: Kind, name: &[u8], text: &[u8]) -> Result<Item, Fail> {
    let name = Text::of(rt.alloc(), name)?;
    let text = Text::of(rt.alloc(), text)?;
    Ok(Item::Decl { kind, name, text })
}

/// The tree of each form, and its printed text.
#[test]
fn forms_have_their_trees(rt: HostRuntime) -> Result<(), Fail> {
    let mut items = Vec::new(rt.alloc());
    items.push(Item::Quote(Text::of(rt.alloc(), b"it # is")?))?;
    items.push(declaration(&rt, Kind::Word, b"x", b"")?)?;
    items.push(declaration(&rt, Kind::Bool, b"b", b"q")?)?;
    items.push(definition(&rt, Kind::Word, b"w", cases(&rt)?)?)?;
    items.push(definition(&rt, Kind::Bool, b"t", connectives(&rt)?)?)?;
    items.push(definition(&rt, Kind::Bool, b"u", negated(&rt)?)?)?;
    let wanted = File {
        items: Items::of(items),
    };
    let file = read(rt.alloc(), FORMS)?;
    assert!(rt; file == wanted);
    let text = print(rt.alloc(), &file)?;
    assert_eq!(rt; text.as_slice(), PRINTED);
    Ok(())
}
