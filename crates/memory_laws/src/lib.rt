//! What doesn't read memory is the same over any memory.
#![tactic(auto)]

ghost use Rattle.std.specs.Prelude.{◌≡◌, ℕ, true, List};
ghost use Rattle.std.specs.Option.{option_map};
ghost use Rattle.flat_state.specs.declared.events.Decl.{Decl};
ghost use Rattle.flat_state.specs.State.{FlatState};
ghost use Rattle.flat_state.specs.Declaration.{broken_rule, declared};
ghost use Rattle.flat_state.specs.Call.{after_completion};
ghost use Rattle.memory_laws.specs.Apart.{is_apart, over};

/// The rules of a declaration don't read memory. Nor does what declarations add, but the machine's and a word's, nor what a
/// completed call does; and they leave memory.
pub fn what_leaves_memory_apart()
    ensures rules { (s : FlatState) (memory : List ℕ) (d : Decl) → broken_rule (over s memory) d ≡ broken_rule s d }
    ensures declarations { (s : FlatState) (memory : List ℕ) (d : Decl) → is_apart d ≡ true → declared (over s memory) d ≡ over (declared s d) memory }
    ensures calls { (s : FlatState) (memory : List ℕ) (n : ℕ) → after_completion (over s memory) n ≡ option_map (λ u. over u memory) (after_completion s n) }
{}
