//! What may be asked of the tables before the seal, and at it.

ghost use Rattle.std.specs.Prelude.{◌≡◌, ℕ, [], false, List, None, Some, IsSome};
ghost use Rattle.cache_ident.specs.Names.{first_name};
ghost use Rattle.cache_ident.specs.declared.idents.Ident.{Ident};
ghost use Rattle.cache_ident.specs.declared.names.Caps.{Caps};
ghost use Rattle.quantum.specs.depend_lists.specs.declared.nodes.Node.{Node};
ghost use Rattle.quantum.specs.flat_state.specs.declared.events.Decl.{Decl};
ghost use Rattle.quantum.specs.flat_state.specs.declared.events.Machine.{Machine};
ghost use Rattle.quantum.specs.flat_state.specs.Declaration.{broken_rule};
ghost use Rattle.desc_tables.specs.run_journal.specs.Legal.{first_ident};
ghost use Rattle.desc_tables.specs.run_journal.specs.declared.entries.Entry.{Entry};
ghost use Rattle.desc_tables.specs.desc_stores.specs.declared.items.Item.{Item};
ghost use Rattle.desc_tables.specs.desc_stores.specs.Contents.{content_of, Contents};
ghost use Rattle.desc_tables.specs.shown_state.specs.Shown.{shown};
ghost use Rattle.desc_tables.specs.desc_groups.specs.declared.departures.Gone.{Gone};
ghost use Rattle.desc_tables.specs.desc_groups.specs.Moves.{MayBeLocked};
ghost use Rattle.desc_tables.specs.desc_groups.specs.Whole.{AreWhole};
ghost use Rattle.desc_tables.specs.May.{MayBeDeclared, MayBeLoaded};
ghost use Rattle.desc_tables.specs.Calls.{HasPlacesFor};
ghost use Rattle.board_laws.specs.Moves.{Declares, IsLoad};
ghost use Rattle.board_laws.specs.Telling.{AreAsTold};

/// Before the seal a descriptor whose declaration breaks no rule may be put on its owner's shelf.
pub fn what_breaks_no_rule_may_be_declared()
    ensures { (m : Machine) (memory : List ℕ) (caps : Caps) (c : Contents) (pairs : List (Ident × Node)) (j : List Entry) (d : Decl) (item : Item)
        → AreAsTold m memory c false j → AreWhole caps c pairs → caps ≡ m.caps
        → broken_rule (shown (Some m) memory c) d ≡ None → Declares d item
        → MayBeDeclared caps c item }
{}

/// At the seal the first kernel, where there is one, may be loaded, and then locked.
pub fn the_first_kernel_may_come()
    ensures loaded { (m : Machine) (memory : List ℕ) (caps : Caps) (c : Contents) (pairs : List (Ident × Node)) (j : List Entry) (at : ℕ)
        → AreAsTold m memory c false j → AreWhole caps c pairs → caps ≡ m.caps → IsSome (content_of c first_name)
        → MayBeLoaded c first_name [] × HasPlacesFor c first_name [] at }
    ensures locked { (m : Machine) (memory : List ℕ) (caps : Caps) (c mid : Contents) (before after : List (Ident × Node)) (j : List Entry) (keep : List Ident) (at : ℕ) (gone : List Gone)
        → AreAsTold m memory c false j → AreWhole caps c before → AreWhole caps mid after → IsSome (content_of c first_name)
        → IsLoad caps c mid first_name keep at gone first_ident
        → MayBeLocked mid first_ident }
{}
