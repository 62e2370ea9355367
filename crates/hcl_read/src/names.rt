//! The different names of a text, to enforce the limit on them.
ghost use Rattle.std.specs.Prelude.{◌≡◌, ◌≤◌, ◌∷◌, ◌++◌, [], nat_eq, nat_le, true, false, length, IfOk, OnOk};
ghost use Rattle.std.specs.Cmp.Lexicographic.{pointwise};
ghost use Rattle.std.specs.List.{list_any};
ghost use Rattle.hcl_read.specs.declared.tokens.Token.TheVariants.{Ident};
ghost use Rattle.hcl_read.specs.Fault.{noted};

use crate::tokens::Token;
use indexmap::IndexSet;
use std::alloc::Global;
use std::marker::Model;
use y86_base::Memory;

/// How many different names a text may have.
pub const MOST_NAMES: usize = 256;

/// The different names of a text, at most 256, seen as their list in the order of their first uses.
#[derive(Drop)]
pub struct Names {
    set: IndexSet<Vec<u8>>,
}

impl Model for Names {
    ghost use Rattle.std.specs.Prelude.{List, ℕ, map};

    ghost Value = { List (List ℕ) };

    ghost view = { λ names. map (λ name. name.items) names.set.keys };
}

impl Names {
    /// No names.
    pub fn new(alloc: Global) -> Names
        ensures { result ≡ [] }
    {
        Names {
            set: IndexSet::new(alloc),
        }
    }

    /// How many names there are.
    #[tactic(auto, using(std::proofs::lemmas::Grind::common_steps))]
    fn len(&self) -> usize
        ensures { result ≡ length self.now }
    {
        self.set.len()
    }

    /// Whether a name is there.
    #[tactic(auto, using(crate::proofs::NameSets::among))]
    fn contains(&self, name: &[u8]) -> bool
        ensures { result ≡ list_any (pointwise nat_eq name.now) self.now }
    {
        self.set.contains(name)
    }

    /// Adds a name that is not there.
    #[tactic(auto, using(crate::proofs::NameSets::inserted))]
    fn insert(&mut self, name: Vec<u8>) -> Result<(), Memory>
        requires { list_any (pointwise nat_eq name.items) self.old ≡ false }
        ensures { OnOk result (self.new ≡ self.old ++ name.items ∷ []) }
    {
        let Ok(_) = self.set.insert(name) else {
            return Err(Memory);
        };
        Ok(())
    }

    /// Adds a name unless it is there, and returns whether the names are still at most 256; if not, they don't change.
    #[tactic(auto, unfolding(crate::specs::Fault::noted))]
    fn note_name(&mut self, alloc: Global, name: &[u8]) -> Result<bool, Memory>
        requires { length self.old ≤ 256 }
        ensures fits { IfOk result (λ fits. fits ≡ nat_le (length (noted self.old (Ident name.now))) 256) }
        ensures names { IfOk result (λ fits. fits ≡ true → self.new ≡ noted self.old (Ident name.now)) }
    {
        if self.contains(name) {
            return Ok(true);
        }
        if self.len() >= MOST_NAMES {
            return Ok(false);
        }
        let Ok(copy) = Vec::from_slice(alloc, name) else {
            return Err(Memory);
        };
        self.insert(copy)?;
        Ok(true)
    }

    /// Adds a token's name, if it has one, and returns whether the names are still at most 256; if not, they don't
    /// change.
    #[tactic(auto, unfolding(crate::specs::Fault::noted))]
    pub fn note(&mut self, alloc: Global, token: &Token) -> Result<bool, Memory>
        requires { length self.old ≤ 256 }
        ensures fits { IfOk result (λ fits. fits ≡ nat_le (length (noted self.old token.now)) 256) }
        ensures names { IfOk result (λ fits. fits ≡ true → self.new ≡ noted self.old token.now) }
    {
        match token {
            Token::Ident(name) => self.note_name(alloc, name.bytes()),
            _ => Ok(true),
        }
    }
}
