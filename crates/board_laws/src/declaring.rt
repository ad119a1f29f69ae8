//! Declarations.

ghost use Rattle.std.specs.Prelude.{◌≡◌, ℕ, ◌+◌, ◌*◌, ◌∷◌, ◌++◌, [], false, Bool, List, None, Option, Some, replicate};
ghost use Rattle.cache_ident.specs.declared.names.Frame.{Frame};
ghost use Rattle.cache_ident.specs.declared.names.KernelNo.{KernelNo};
ghost use Rattle.phys_groups.specs.Memory.{word_bytes, written};
ghost use Rattle.quantum.specs.flat_state.specs.declared.events.Decl.{Decl};
ghost use Rattle.quantum.specs.flat_state.specs.declared.events.Decl.TheVariants as decls;
ghost use Rattle.quantum.specs.flat_state.specs.declared.events.Machine.{Machine};
ghost use Rattle.quantum.specs.flat_state.specs.Declaration.{broken_rule, declared};
ghost use Rattle.quantum.specs.flat_state.specs.State.{nothing_declared};
ghost use Rattle.desc_tables.specs.run_journal.specs.declared.entries.Entry.{Entry};
ghost use Rattle.desc_tables.specs.run_journal.specs.declared.entries.Entry.TheVariants.{Declared};
ghost use Rattle.desc_tables.specs.desc_stores.specs.declared.items.Item.{Item};
ghost use Rattle.desc_tables.specs.desc_stores.specs.Changes.{IsNothing};
ghost use Rattle.desc_tables.specs.desc_stores.specs.Contents.{Contents};
ghost use Rattle.desc_tables.specs.shown_state.specs.Edits.{with_new};
ghost use Rattle.desc_tables.specs.shown_state.specs.Shown.{shown};
ghost use Rattle.board_laws.specs.Moves.{Declares, KeepsLoaded};
ghost use Rattle.board_laws.specs.Telling.{AreAsTold};

/// A journal begins with the machine, beside tables in which nothing stands. Before the seal each declaration that breaks no rule is
/// one entry: of a descriptor that was put on its owner's shelf, of rights that were set, of a word of memory.
pub fn a_declaration_is_told()
    ensures machine { (m : Machine) (c : Contents) → broken_rule nothing_declared (decls.Machine m) ≡ None → IsNothing m.caps c
        → AreAsTold m (replicate (524288 * m.groups) 0) c false (Declared (decls.Machine m) ∷ []) }
    ensures descriptor { (m : Machine) (memory : List ℕ) (old new : Contents) (j : List Entry) (d : Decl) (item : Item)
        → AreAsTold m memory old false j → broken_rule (shown (Some m) memory old) d ≡ None → Declares d item → KeepsLoaded old new
        → ((machine : Option Machine) (bytes : List ℕ) → shown machine bytes new ≡ with_new (shown machine bytes old) item)
        → AreAsTold m memory new false (j ++ Declared d ∷ []) }
    ensures rights { (m : Machine) (memory : List ℕ) (old new : Contents) (j : List Entry) (kernel : KernelNo) (group : ℕ) (read write : Bool)
        → AreAsTold m memory old false j → broken_rule (shown (Some m) memory old) (decls.Right kernel group read write) ≡ None → KeepsLoaded old new
        → ((machine : Option Machine) (bytes : List ℕ) → shown machine bytes new ≡ declared (shown machine bytes old) (decls.Right kernel group read write))
        → AreAsTold m memory new false (j ++ Declared (decls.Right kernel group read write) ∷ []) }
    ensures word { (m : Machine) (memory : List ℕ) (c : Contents) (j : List Entry) (frame : Frame) (offset value : ℕ)
        → AreAsTold m memory c false j → broken_rule (shown (Some m) memory c) (decls.Word frame offset value) ≡ None
        → AreAsTold m (written memory (4096 * frame.0 + offset) (word_bytes value)) c false (j ++ Declared (decls.Word frame offset value) ∷ []) }
{}
