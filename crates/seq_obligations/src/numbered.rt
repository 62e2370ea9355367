//! The rules of a sequential datapath in their order, from the demand of each.
ghost use Rattle.std.specs.Prelude.{◌≡◌, ◌≤◌, ◌||◌, not, ℕ, List, Bool, length, IfOk};
ghost use Rattle.nets.specs.Nets.{ExtendsNet};
ghost use Rattle.ctl_atoms.specs.declared.leaf.Leaf.{Leaf};
ghost use Rattle.ctl_atoms.specs.Leaves.{Assignment};
ghost use Rattle.ctl_picks.specs.declared.controls.Entry.{Entry};
ghost use Rattle.ctl_picks.specs.Picks.{Covers, IsInside};
ghost use Rattle.ctl_given.specs.Places.{HavePlaces, Spells};
ghost use Rattle.ctl_given.specs.declared.places.Place.{Place as FieldPlace};
ghost use Rattle.hcl_types.specs.Tables.{IsSound};
ghost use Rattle.hcl_types.specs.declared.table.Row.{Row};
ghost use Rattle.ctl_rules.specs.ControlGates.{IsControlGate};
ghost use Rattle.seq_obligations.specs.Obligations.{rule_count};
ghost use Rattle.seq_obligations.specs.Rules.{AreNumbered};

use ctl_given::Place;
use ctl_picks::Controls;
use ctl_rules::Rule;
use hcl_types::Table;
use nets::NetBuilder;
use std::alloc::Global;
use y86_base::{Memory, push};

/// The number of rules of a sequential datapath.
pub const RULE_COUNT: u32 = 16;

/// The demands of a datapath's rules, by their numbers, and the valuations to which they apply, over its table and the
/// fields of a valuation.
pub trait RuleFamily {
    /// The valuations to which the rules apply.
    ghost may: { Self → List Bool → Assignment → (ℕ → Leaf) → Bool };

    /// The demand of the rule with this number.
    ghost asks: { Self → ℕ → List Bool → Assignment → (ℕ → Leaf) → Bool };

    /// In a net with this number of variables, the fields are among them, and the signals have control values.
    ghost knows: { Self → ℕ → List Entry → Type 0 };

    /// The table of signals, the places of the signals that are fields, and the number of bits of all fields together.
    ghost rows: { List Row };

    ghost places: { List FieldPlace };

    ghost bits: { ℕ };

    /// The number that bits give a signal that is a field.
    ghost field: { List Bool → ℕ → ℕ };

    /// The table of signals.
    fn table(&self, alloc: Global) -> Result<Table, Memory>
        ensures { IfOk result (λ table. table.rows ≡ rows) };

    /// The places of the signals that are fields.
    fn field_places(&self) -> &'static [Place]
        ensures { result.now ≡ places };

    /// The number of bits of all fields together.
    fn bit_count(&self) -> u32
        ensures size { result ≡ bits }
        ensures few { result ≤ 64 };

    /// A gate that is true for the valuations to which the rules apply.
    fn fits(&self, b: &mut NetBuilder, ctl: &Controls) -> Result<u64, Memory>
        requires inside { IsInside b.old ctl.now }
        requires known { knows self.now b.old.vars ctl.now }
        ensures extends { ExtendsNet b.old b.new }
        ensures has_truth { IfOk result (λ g. IsControlGate b.new ctl.now g (may self.now)) };

    /// A gate of the demand of the rule with this number.
    fn demand(&self, b: &mut NetBuilder, ctl: &Controls, number: u32) -> Result<u64, Memory>
        requires inside { IsInside b.old ctl.now }
        requires known { knows self.now b.old.vars ctl.now }
        ensures extends { ExtendsNet b.old b.new }
        ensures has_truth { IfOk result (λ g. IsControlGate b.new ctl.now g (asks self.now number)) };

    ghost sound: { IsSound rows };

    ghost ready: { (it : Self) (vars : ℕ) (ctl : List Entry) → bits ≤ vars → Covers rows ctl → knows it vars ctl };

    ghost placed: { (vars : ℕ) → bits ≤ vars → HavePlaces rows places vars };

    ghost spelt: { (w : List Bool) → Spells places w (field w) };
}

/// The gate of the rule with this number: true if its demand is met, and at any valuation to which the rules don't
/// apply.
fn rule_told<N: RuleFamily>(
    b: &mut NetBuilder,
    ctl: &Controls,
    rules: &N,
    fits: u64,
    number: u32,
) -> Result<u64, Memory>
    requires inside { IsInside b.old ctl.now }
    requires known { N.knows rules.now b.old.vars ctl.now }
    requires fits { IsControlGate b.old ctl.now fits (N.may rules.now) }
    ensures extends { ExtendsNet b.old b.new }
    ensures has_truth { IfOk result (λ g. IsControlGate b.new ctl.now g (λ w α cv. not (N.may rules.now w α cv) || N.asks rules.now number w α cv)) }
{
    let asked = rules.demand(b, ctl, number)?;
    let outside = b.not(fits)?;
    b.or(outside, asked)
}

/// The rules in their order.
pub(crate) fn numbered_rules<N: RuleFamily>(
    alloc: Global,
    b: &mut NetBuilder,
    ctl: &Controls,
    rules: &N,
) -> Result<Vec<Rule>, Memory>
    requires inside { IsInside b.old ctl.now }
    requires known { N.knows rules.now b.old.vars ctl.now }
    ensures extends { ExtendsNet b.old b.new }
    ensures count { IfOk result (λ list. length list.items ≡ rule_count) }
    ensures rules { IfOk result (λ list. AreNumbered b.new ctl.now (λ i w α cv. not (N.may rules.now w α cv) || N.asks rules.now i w α cv) list.items) }
{
    let fits = rules.fits(b, ctl)?;
    let mut list = Vec::new(alloc);
    for i in 0..RULE_COUNT {
        let number = i + 1;
        let gate = rule_told(b, ctl, rules, fits, number)?;
        push(&mut list, Rule { number, gate })?;
    }
    Ok(list)
}
