//! Theorems about the command line. Each is a function that does nothing and whose contract is the theorem.
ghost use Rattle.std.specs.Prelude.{◌≡◌, ◌∷◌, ◌++◌, List, [], ℕ, Some, codes};
ghost use Rattle.y86_base.specs.declared.parts.Variant.TheVariants.{Base};
ghost use Rattle.y86_words.specs.Forms.{Command, form_of, yas, yis};
ghost use Rattle.y86_words.specs.Wording.{AreArguments, AreOptions, HasForm, IsFileName, IsInRange, words_of};

/// Which words form a command. Words form only legal commands, each legal command can be written as words, and words
/// that form a command have the name, the places and the options of its row, each option at most once. Options may
/// occur anywhere after the name. A missing option has its default.
pub fn law_of_words()
    ensures legal { (words : List (List ℕ)) (command : Command) → form_of words ≡ Some command → IsInRange command }
    ensures written { (command : Command) → IsInRange command → form_of (words_of command) ≡ Some command }
    ensures of_a_row { (name : List ℕ) (rest : List (List ℕ)) (command : Command) → form_of (name ∷ rest) ≡ Some command → HasForm name rest command }
    ensures order { (name : List ℕ) (options other back : List (List ℕ)) → AreOptions options → AreArguments other →
        form_of (name ∷ (options ++ (other ++ back))) ≡ form_of (name ∷ (other ++ (options ++ back))) }
    ensures defaults { (file : List ℕ) → IsFileName file →
        (form_of (codes "yas" ∷ file ∷ []) ≡ Some (yas file 8192 Base))
        × (form_of (codes "yis" ∷ file ∷ []) ≡ Some (yis file 8192 10000 Base)) }
{}
