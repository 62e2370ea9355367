//! Theorems about the definitions of HCL text. Each is a function that does nothing; its contract is the theorem.
ghost use Rattle.std.specs.Prelude.{◌≡◌, ◌++◌, ◌⊎◌, ℕ, false, List, [], ◌∷◌};
ghost use Rattle.hcl_read.specs.Fault.{Accepts, FaultAt};
ghost use Rattle.hcl_read.specs.Read.{IsFault, ReadsAs};
ghost use Rattle.hcl_read.specs.Tokens as tokens;
ghost use Rattle.hcl_read.specs.declared.fault.HclFault.{HclFault};
ghost use Rattle.hcl_read.specs.declared.fault.HclWhy.{HclWhy};
ghost use Rattle.hcl_read.specs.declared.tokens.Token.{Token};
ghost use Rattle.hcl_tree.specs.declared.tree.File.{File};

/// A text of blanks, line feeds and comments has no tokens. Any other has the token that begins after them, and
/// then the tokens of the text after that token.
#[tactic(auto, using(crate::proofs::Items::items_ended, crate::proofs::Items::items_first))]
pub fn law_of_tokens()
    ensures ended { (text : List ℕ) → tokens.skipped false text ≡ [] → tokens.items text ≡ [] }
    ensures first { (text : List ℕ) (byte : ℕ) (bytes : List ℕ) → tokens.skipped false text ≡ byte ∷ bytes →
        tokens.items text ≡ ((tokens.token byte bytes).0, byte ∷ bytes) ∷ tokens.items (tokens.token byte bytes).1 }
{}

/// A text is at most one file.
#[tactic(auto, using(crate::proofs::LawLemmas::at_most_one_file))]
pub fn law_of_files()
    ensures { (text : List ℕ) (f g : File) → ReadsAs text f → ReadsAs text g → f ≡ g }
{}

/// The tokens of a text are a file or have a fault. A text with a fault is no file, and has only one fault.
#[tactic(auto, using(crate::proofs::OneFault::file_has_no_fault, crate::proofs::OneFault::one_fault))]
pub fn law_of_faults()
    ensures either { (ts : List Token) → ((f : File) × Accepts ts f)
        ⊎ ((front : List Token) × (rest : List Token) × (why : HclWhy) × (ts ≡ front ++ rest) × FaultAt front rest why) }
    ensures not_both { (text : List ℕ) (f : File) (fault : HclFault) → ReadsAs text f → IsFault text fault → ⊥ }
    ensures one { (text : List ℕ) (a b : HclFault) → IsFault text a → IsFault text b → a ≡ b }
{}
