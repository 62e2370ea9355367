//! Theorems about the form of texts, about the values of their outputs, and about reading what was written.
ghost use Rattle.std.specs.Prelude.{◌≡◌, ◌⊎◌, ◌+◌, ◌<◌, ◌≤◌, ℕ, Bool, List, get_or, length, not};
ghost use Rattle.nets.specs.Nets.{Gates, truth};
ghost use Rattle.aiger_out.specs.declared.fault.AagFault.{AagFault};
ghost use Rattle.aiger_out.specs.declared.fault.AagWhy.{AagWhy};
ghost use Rattle.aiger_out.specs.declared.form.Header.{Header};
ghost use Rattle.aiger_out.specs.Form.{IsAag, IsFault, line_at};
ghost use Rattle.aiger_out.specs.Lines.{ended};
ghost use Rattle.aiger_out.specs.Values.{HaveOneSolution, IsNetOfText};
ghost use Rattle.aiger_out.specs.Written.{IsAagOf};

/// A text either has the form or has a fault. It has at most one fault: the first line with a fault, and the first of
/// that line's errors.
pub fn law_of_form()
    ensures some { (limit : ℕ) (text : List ℕ) → ((h : Header) × IsAag limit text h) ⊎ ((line : ℕ) × (why : AagWhy) × IsFault limit text line why) }
    ensures not_both { (limit : ℕ) (text : List ℕ) (h : Header) (line : ℕ) (why : AagWhy) → IsAag limit text h → IsFault limit text line why → ⊥ }
    ensures one_fault { (limit : ℕ) (text : List ℕ) (line other : ℕ) (why because : AagWhy) →
        IsFault limit text line why → IsFault limit text other because → (line ≡ other) × (why ≡ because) }
{}

/// If a text has the form, its equations have one solution at all bits of its inputs.
pub fn law_of_values()
    ensures { (limit : ℕ) (text : List ℕ) (h : Header) (bits : List Bool) → IsAag limit text h → HaveOneSolution h (line_at h (ended text)) bits }
{}

/// Written text has the form, without a fault, if the net has at most a million variables and gates together, and
/// there are at most a million rules. The net that is read from it has the written truths: each output is 1 exactly
/// if its gate is false.
pub fn law_of_reading_back()
    ensures form { (net : Gates) (gates numbers text : List ℕ) (h : Header) → IsAagOf net gates numbers text h →
        net.vars + length net.gates ≤ 1000000 → length gates ≤ 1000000 → IsAag 1000000 text h }
    ensures no_fault { (net : Gates) (gates numbers text : List ℕ) (h : Header) (f : AagFault) → IsAagOf net gates numbers text h →
        net.vars + length net.gates ≤ 1000000 → length gates ≤ 1000000 → IsFault 1000000 text f.line f.why → ⊥ }
    ensures truths { (net : Gates) (gates numbers text : List ℕ) (h k : Header) (back : Gates) (outs : List ℕ) (i : ℕ) (bits : List Bool) →
        IsAagOf net gates numbers text h → IsNetOfText 1000000 text back outs k → i < length gates →
        truth back (get_or outs i 0) bits ≡ not (truth net (get_or gates i 0) bits) }
{}
