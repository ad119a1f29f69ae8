//! When what left is a group.

ghost use Rattle.std.specs.Prelude.{◌↔◌, [], ◌∷◌, ◌++◌, List, Contains, map};
ghost use Rattle.cache_ident.specs.Residents.{Resident};
ghost use Rattle.sorted_list.specs.Sorted.{IsRising};
ghost use Rattle.run_journal.specs.writeback_order.specs.Order.{leaving_cmp};
ghost use Rattle.run_journal.specs.flat_state.specs.declared.events.Event.{Event};
ghost use Rattle.run_journal.specs.flat_state.specs.Events.{flat};
ghost use Rattle.run_journal.specs.Groups.{IsGroup, node_of};
ghost use Rattle.run_journal.specs.Legal.{AreGood};
ghost use Rattle.journal_laws.specs.Leaving.{HaveLeft, LacksParent};

/// Where residents are whole before some of them leave and after a root has left behind these, what left is the group of
/// the root exactly where it left in the order of leaving and each one now lacks something that it depends on. So no closure
/// has to be gathered to know it. This holds of every state that events can reach.
pub fn a_group_is_what_lacks_a_parent()
    ensures { (es : List Event) (before after gone : List Resident) (root : Resident) → HaveLeft before after gone root → AreGood (flat es) before → AreGood (flat es) after
        → (IsGroup (flat es) before root (map (λ r. r.ident) gone ++ root.ident ∷ [])
        ↔ (IsRising leaving_cmp (map (node_of (flat es)) gone) × ((g : Resident) → Contains gone g → LacksParent (flat es) after g.name))) }
{}
