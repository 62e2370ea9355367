//! Theorems about legal flows and the obligations. Each is a function that does nothing and whose contract is the theorem.
ghost use Rattle.std.specs.Prelude.{◌≡◌, ℕ, Bool, List, false, true};
ghost use Rattle.y86_base.specs.declared.parts.Variant.{Variant};
ghost use Rattle.ctl_atoms.specs.declared.leaf.Leaf.{Leaf};
ghost use Rattle.ctl_atoms.specs.declared.leaf.Atom.{Atom};
ghost use Rattle.ctl_atoms.specs.Leaves.{Assignment};
ghost use Rattle.pipe_fields.specs.Laws.{of_bubbles};
ghost use Rattle.pipe_fields.specs.Layout.{FetchLine, Fields};
ghost use Rattle.pipe_motion.specs.Flow.{Flow, empty_flow, flow_legal, path};
ghost use Rattle.pipe_motion.specs.declared.settings.Settings.{Settings};
ghost use Rattle.pipe_obligations.specs.Rules.{is_demanded, obligation};
ghost use Rattle.pipe_obligations.specs.FlowLaws.{OlderGoesOn, OlderIsResolved};
ghost use Rattle.pipe_obligations.specs.StageFlows.{back_matches_in_f, is_stopping, legal};

/// An obligation holds at each valuation at which it isn't demanded.
pub fn law_of_undemanded()
    ensures { (v : Variant) (s : Settings) (atoms : List Atom) (i : ℕ) (c : Fields) (α : Assignment) (cv : ℕ → Leaf) → is_demanded v s atoms i c α ≡ false → obligation v s atoms i c α cv ≡ true }
{}

/// In a legal flow, only the youngest good instruction stops or is a missed jump in E or a ret in E or M, and no good
/// instruction follows a wrong one.
#[tactic(auto, using(crate::proofs::Older::older_goes_on, crate::proofs::Older::older_has_turned, crate::proofs::Older::none_behind_wrong))]
pub fn law_of_legal_flows()
    ensures stops { (je rm : Bool) (v : Flow) → flow_legal je rm v ≡ true → OlderGoesOn v }
    ensures turns { (je rm : Bool) (v : Flow) → flow_legal je rm v ≡ true → OlderIsResolved v }
    ensures wrong { (je rm : Bool) (v : Flow) → flow_legal je rm v ≡ true → v.e.wrong ≡ true → v.d.good ≡ false }
{}

/// A pipeline of bubbles alone, as at the start, is legal at all settings if the comparison of valC and valP agrees
/// with the fetched jump; and its cycle doesn't stop. The flow of such a pipeline is legal and on its path.
#[tactic(auto, using(crate::proofs::Start::start_is_legal, crate::proofs::Older::empty_is_lawful, crate::proofs::Older::empty_on_path))]
pub fn law_of_the_start()
    ensures legal { (v : Variant) (s : Settings) (atoms : List Atom) (f : FetchLine) (α : Assignment) → back_matches_in_f v atoms (of_bubbles f) α ≡ true → legal v s atoms (of_bubbles f) α ≡ true }
    ensures lawful { (je rm : Bool) → flow_legal je rm empty_flow ≡ true }
    ensures path { path empty_flow ≡ true }
    ensures goes_on { (f : FetchLine) → is_stopping (of_bubbles f) ≡ false }
{}
