//! How a group leaves.

ghost use Rattle.std.specs.Prelude.{◌≡◌, ◌≢◌, ◌↔◌, [], ◌∷◌, ◌++◌, List, AllPairs, Contains, map};
ghost use Rattle.cache_ident.specs.Residents.{Resident, without};
ghost use Rattle.cache_ident.specs.declared.idents.Ident.{Ident};
ghost use Rattle.journal_laws.specs.depend_lists.specs.declared.nodes.Node.{Node};
ghost use Rattle.phys_groups.specs.Rows.{HasOneRowAPage};
ghost use Rattle.journal_laws.specs.writeback_order.specs.Order.{IsOrder};
ghost use Rattle.journal_laws.specs.flat_state.specs.State.{FlatState};
ghost use Rattle.journal_laws.specs.run_journal.specs.Groups.{ArePairsOf, NothingDependsOn, node_of};
ghost use Rattle.journal_laws.specs.run_journal.specs.Legal.{AreGood};
ghost use Rattle.journal_laws.specs.Leaving.{HaveOneEach};
ghost use Rattle.group_laws.specs.Leaving.{AreAgreed, without_all};

/// Where a root leaves with all that depends on it, in the order of leaving, each one that is next is still resident, and
/// nothing resident depends on it by then; what is resident stays whole all the while; and no identifier stands in the order
/// twice. Of the rows it asks that their flags agree with their receivers, and that no page has two of them.
pub fn a_group_leaves_from_below()
    ensures next { (s : FlatState) (rs : List Resident) (pairs : List (Ident × Node)) (root : Resident) (nodes done todo : List Node) (n : Node) → AreAgreed s → HasOneRowAPage s.rows → HaveOneEach rs → ArePairsOf s rs pairs → Contains rs root → IsOrder pairs (node_of s root) nodes
        → nodes ≡ done ++ n ∷ todo → (r : Resident) × Contains (without_all (map (λ m. m.ident) done) rs) r × (n ≡ node_of s r) × NothingDependsOn s (without_all (map (λ m. m.ident) done) rs) r.name }
    ensures good { (s : FlatState) (rs : List Resident) (pairs : List (Ident × Node)) (root : Resident) (nodes done todo : List Node) → AreAgreed s → HasOneRowAPage s.rows → HaveOneEach rs → ArePairsOf s rs pairs → Contains rs root → IsOrder pairs (node_of s root) nodes
        → nodes ≡ done ++ todo → AreGood s rs → AreGood s (without_all (map (λ m. m.ident) done) rs) }
    ensures apart { (s : FlatState) (rs : List Resident) (pairs : List (Ident × Node)) (root : Resident) (nodes : List Node) → HaveOneEach rs → ArePairsOf s rs pairs → IsOrder pairs (node_of s root) nodes → AllPairs (λ a b. a.ident ≢ b.ident) nodes }
{}

/// What has left isn't resident, and all others are. One more that leaves, leaves what the others left.
pub fn what_left_is_not_resident()
    ensures others { (rs : List Resident) (idents : List Ident) (r : Resident) → Contains (without_all idents rs) r ↔ (Contains rs r × (Contains idents r.ident → ⊥)) }
    ensures one_more { (rs : List Resident) (idents : List Ident) (ident : Ident) → without_all (idents ++ ident ∷ []) rs ≡ without ident (without_all idents rs) }
{}
