//! What keeps the pairs of what is resident, and why there is room for one more.

ghost use Rattle.std.specs.Prelude.{◌≡◌, Bool, List, Contains};
ghost use Rattle.cache_ident.specs.Residents.{Resident, with_loaded, with_lock};
ghost use Rattle.cache_ident.specs.declared.idents.Ident.{Ident};
ghost use Rattle.cache_ident.specs.declared.names.Caps.{Caps};
ghost use Rattle.cache_ident.specs.declared.names.Name.{Name};
ghost use Rattle.depend_lists.specs.declared.nodes.Node.{Node};
ghost use Rattle.depend_lists.specs.Pairs.{IsChild};
ghost use Rattle.journal_laws.specs.flat_state.specs.State.{FlatState};
ghost use Rattle.journal_laws.specs.flat_state.specs.Dependence.{parents};
ghost use Rattle.journal_laws.specs.flat_state.specs.Names.{class_of};
ghost use Rattle.journal_laws.specs.run_journal.specs.Groups.{ArePairsOf};
ghost use Rattle.resident_pairs.specs.Among.{AreFew, HasRoomFor, HasNoIdent};

/// What is resident keeps its pairs where each depends on what it depended on, and has the class that it had.
pub fn the_same_dependence_keeps_the_pairs()
    ensures { (s t : FlatState) (rs : List Resident) (pairs : List (Ident × Node)) → ((r : Resident) → Contains rs r → (parents t r.name ≡ parents s r.name) × (class_of t r.name ≡ class_of s r.name)) → ArePairsOf s rs pairs → ArePairsOf t rs pairs }
{}

/// A lock, and its end, keep the pairs.
pub fn a_lock_keeps_the_pairs()
    ensures { (s : FlatState) (rs : List Resident) (pairs : List (Ident × Node)) (ident : Ident) (locked : Bool) → ArePairsOf s rs pairs → ArePairsOf s (with_lock ident locked rs) pairs }
{}

/// What isn't resident is no child of a pair; and where with it there are no more of each kind than the capacities allow,
/// there is room for its pairs.
pub fn what_is_resident_has_room()
    ensures new { (s : FlatState) (rs : List Resident) (pairs : List (Ident × Node)) (ident : Ident) → ArePairsOf s rs pairs → HasNoIdent rs ident → IsChild pairs ident → ⊥ }
    ensures room { (s : FlatState) (rs : List Resident) (pairs : List (Ident × Node)) (caps : Caps) (child : Node) (name : Name) → ArePairsOf s rs pairs → AreFew caps (with_loaded child.ident name rs) → HasRoomFor caps pairs child }
{}
