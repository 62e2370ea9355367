//! Writes a certificate of the demands.
ghost use Rattle.std.specs.Prelude.{◌≡◌, ◌++◌, ◌<◌, true, false, length, get_or, MatchOption, IfOk, IfSome, OnOk, None};
ghost use Rattle.cert_checker.specs.Certificates.{AreSeven, CertOk, head_text};
ghost use Rattle.bdd_core.specs.Meaning.{Always, IsDia, IsLeastFalsifying};
ghost use Rattle.cert_writer.specs.Nodes.{IsDrawn, IsVariableOrder, no_dia};
ghost use Rattle.cert_writer.specs.Writing.{AreGateTerms, AreInside, AreDemandsTrue, HasFalseDemand};

use crate::claims::ClaimWriter;
use crate::drawing::{DrawnNet, draw};
use crate::order::order_of;
use crate::terms::TermWriter;
use crate::text::{put_gates, put_steps, put_terms};
use cert_checker::Demands;
use nets::Valuation;
use pipe_motion::Settings;
use pipe_orders::Weave;
use std::alloc::Global;
use verdict_text::pipe_acceptance;
use y86_base::{Memory, put};

/// A valuation of the diagrams' variables at which a demanded gate is false, if there is one.
fn counter(g: &Demands, drawn: &DrawnNet, k: usize) -> Result<Option<Valuation>, Memory>
    requires inside { get_or g.now.want k 0 < length drawn.now.dias.items }
    requires want { k < length g.now.want }
    requires dia { IsDia drawn.now.store (get_or drawn.now.dias.items (get_or g.now.want k 0) no_dia) }
    ensures { IfOk result (λ o. MatchOption o (Always drawn.now.store (get_or drawn.now.dias.items (get_or g.now.want k 0) no_dia) true)
        (λ v. IsLeastFalsifying drawn.now.store (get_or drawn.now.dias.items (get_or g.now.want k 0) no_dia) v.bits)) }
{
    let dias = drawn.dias.as_slice();
    let want = g.want.items();
    drawn.store.least_false(dias[want[k] as usize])
}

/// Whether a demanded gate is false at some pattern of bits.
#[tactic(auto, using(crate::proofs::Demanded::open_at, crate::proofs::Demanded::true_none, crate::proofs::Demanded::true_more, crate::proofs::Demanded::true_all, crate::proofs::Demanded::want_inside))]
fn is_open(g: &Demands, order: &[u32], ranks: &[u32], drawn: &DrawnNet) -> Result<bool, Memory>
    requires inside { AreInside g.now }
    requires vars { length order.now ≡ g.now.net.vars }
    requires order { IsVariableOrder order.now ranks.now }
    requires drawn { IsDrawn g.now.net order.now drawn.now.store drawn.now.dias.items }
    ensures open { IfOk result (λ b. b ≡ true → HasFalseDemand g.now) }
    ensures shut { IfOk result (λ b. b ≡ false → AreDemandsTrue g.now) }
{
    let _ = order.len(); // its length is a u64
    let _ = ranks.len(); // its length is a u64
    for k in 0..g.want.items().len() {
        match counter(g, drawn, k)? {
            Some(_) => return Ok(true),
            None => {}
        }
    }
    Ok(false)
}

/// Puts the first two lines.
#[tactic(auto, using(crate::proofs::Demanded::head_put))]
fn put_head(alloc: Global, out: &mut Vec<u8>, settings: Settings) -> Result<(), Memory>
    ensures put { OnOk result (out.new.items ≡ out.old.items ++ head_text settings) }
    ensures seven { AreSeven settings }
{
    let yes = pipe_acceptance(alloc, &settings)?;
    put(out, b"y86cert 1\n")?;
    put(out, yes.as_slice())
}

/// How large a certificate may become in one order of variables.
#[derive(Clone, Copy)]
struct Limits {
    /// Operations on diagrams.
    steps: u64,
    terms: u64,
    claims: usize,
    bytes: usize,
}

/// Most designs stay within these limits if the registers follow one another.
const FEW: Limits = Limits {
    steps: 700_000,
    terms: 300_000,
    claims: 700_000,
    bytes: SHORT_BYTES,
};

/// Most designs stay within these limits if eight registers are interleaved.
const SOME: Limits = Limits {
    steps: 1_200_000,
    terms: 500_000,
    claims: 1_000_000,
    bytes: SHORT_BYTES,
};

/// Limits of a short certificate.
const SHORT: Limits = Limits {
    steps: 3_000_000,
    terms: 900_000,
    claims: 1_400_000,
    bytes: SHORT_BYTES,
};

/// Limits of a certificate that `recheck` can read.
const READABLE: Limits = Limits {
    steps: 30_000_000,
    terms: 4_000_000,
    claims: 9_000_000,
    bytes: 536_870_912,
};

const NO_LIMITS: Limits = Limits {
    steps: u64::MAX,
    terms: u64::MAX,
    claims: usize::MAX,
    bytes: usize::MAX,
};

/// The most bytes of a short certificate.
const SHORT_BYTES: usize = 60_000_000;

/// The orders that are tried and their limits, from the fastest attempt to the slowest.
const ATTEMPTS: [(Weave, Limits); 12] = [
    (Weave::Apart, FEW),
    (Weave::Fours, FEW),
    (Weave::Eights, SOME),
    (Weave::Fours, SHORT),
    (Weave::Apart, SHORT),
    (Weave::Whole, SHORT),
    (Weave::Eights, SHORT),
    (Weave::Apart, READABLE),
    (Weave::Fours, READABLE),
    (Weave::Eights, READABLE),
    (Weave::Whole, READABLE),
    (Weave::Fours, NO_LIMITS),
];

/// The text of a certificate, from the terms of the gates.
///
/// Errors: `Memory`, also if there are more claims or bytes than the limits allow.
fn text_of(
    alloc: Global,
    g: &Demands,
    terms: &TermWriter,
    ts: &[u32],
    limits: Limits,
) -> Result<Vec<u8>, Memory>
    requires inside { AreInside g.now }
    requires vars { length terms.now.order ≡ g.now.net.vars }
    requires shut { AreDemandsTrue g.now }
    requires terms { AreGateTerms g.now.net (length terms.now.order) terms.now.terms ts.now (length g.now.net.gates) }
    ensures { IfOk result (λ text. CertOk g.now text.items) }
{
    let mut claims = ClaimWriter::new(alloc, terms.made(), terms.ranks(), limits.claims)?;
    let by = claims.gate_claims(alloc, &g.net, ts)?;
    let mut out = Vec::new(alloc);
    put_head(alloc, &mut out, g.settings)?;
    put_terms(&mut out, g, terms.made())?;
    put_steps(&mut out, g, &claims)?;
    put_gates(&mut out, g, &claims, ts, by.as_slice())?;
    put(&mut out, b"end\n")?;
    if out.len() > limits.bytes {
        return Err(Memory);
    }
    Ok(out)
}

/// A certificate in one order of variables; `None` if a demanded gate is false at some pattern of bits.
///
/// Errors: `Memory`, also if it would be larger than the limits allow.
fn write_in(
    alloc: Global,
    g: &Demands,
    weave: Weave,
    limits: Limits,
) -> Result<Option<Vec<u8>>, Memory>
    requires inside { AreInside g.now }
    ensures some { IfOk result (λ o. IfSome o (λ text. CertOk g.now text.items)) }
    ensures none { IfOk result (λ o. o ≡ None → HasFalseDemand g.now) }
{
    let orders = order_of(alloc, g.net.vars(), weave)?;
    let order = orders.order.as_slice();
    let ranks = orders.ranks.as_slice();
    let drawn = draw(alloc, &g.net, order, ranks, limits.steps, limits.terms)?;
    if is_open(g, order, ranks, &drawn)? {
        return Ok(None);
    }
    let mut terms = TermWriter::new(alloc, &drawn.store, order, ranks, drawn.dias.as_slice())?;
    let ts = terms.gate_terms(alloc, &g.net, drawn.dias.as_slice())?;
    let text = text_of(alloc, g, &terms, ts.as_slice(), limits)?;
    Ok(Some(text))
}

/// A certificate of the demands; `None` if a demanded gate is false at some pattern of bits.
///
/// Which order of variables makes it short depends on the registers that the file compares, so several are tried.
pub fn write(alloc: Global, g: &Demands) -> Result<Option<Vec<u8>>, Memory>
    requires inside { AreInside g.now }
    ensures some { IfOk result (λ o. IfSome o (λ text. CertOk g.now text.items)) }
    ensures none { IfOk result (λ o. o ≡ None → HasFalseDemand g.now) }
{
    let attempts = ATTEMPTS;
    for attempt in attempts.as_slice() {
        match write_in(alloc, g, attempt.0, attempt.1) {
            Ok(text) => return Ok(text),
            Err(Memory) => {}
        }
    }
    Err(Memory)
}
