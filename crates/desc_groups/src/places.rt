//! Where the departures of a group stand in a journal.

ghost use Rattle.std.specs.Prelude.{◌+◌, ◌≤◌, ◌^◌, ℕ, length, List};
ghost use Rattle.cache_ident.specs.declared.idents.Ident.{Ident};
ghost use Rattle.cache_ident.specs.declared.names.Caps.{Caps};
ghost use Rattle.depend_lists.specs.declared.nodes.Node.{Node};
ghost use Rattle.desc_parents.specs.desc_stores.specs.Contents.{residents_of, Contents};
ghost use Rattle.desc_groups.specs.Moves.{HasPlaces};
ghost use Rattle.desc_groups.specs.Whole.{AreWhole};

/// No group is larger than all that is resident. So where there are places for that, there are places for each group.
pub fn there_are_places()
    ensures { (caps : Caps) (c : Contents) (pairs : List (Ident × Node)) → AreWhole caps c pairs → (root : Ident) (at : ℕ) → at + length (residents_of c) ≤ 2 ^ 64 → HasPlaces c root at }
{}
