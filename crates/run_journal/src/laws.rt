//! Laws of journals, each as the contract of a call that does nothing.

ghost use Rattle.std.specs.Prelude.{◌≡◌, ◌≢◌, ℕ, ◌+◌, ◌<◌, ◌∷◌, ◌++◌, [], Bool, List, true, false, None, Some, Contains, count_by, length};
ghost use Rattle.std.specs.List.{list_any};
ghost use Rattle.cache_ident.specs.declared.idents.Cause.TheVariants as causes;
ghost use Rattle.cache_ident.specs.declared.idents.Ident.{Ident};
ghost use Rattle.cache_ident.specs.declared.names.Name.{Name};
ghost use Rattle.cache_ident.specs.declared.names.ThreadNo.{ThreadNo};
ghost use Rattle.cache_ident.specs.Names.{first_name, kind_of};
ghost use Rattle.flat_laws.specs.depend_lists.specs.declared.nodes.Node.{Node};
ghost use Rattle.flat_laws.specs.writeback_order.specs.Order.{IsOrder};
ghost use Rattle.flat_state.specs.declared.events.Decl.{Decl};
ghost use Rattle.flat_state.specs.declared.records.NextStep.{NextStep};
ghost use Rattle.flat_state.specs.Declaration.{broken_rule};
ghost use Rattle.flat_state.specs.Events.{after_events, flat};
ghost use Rattle.flat_state.specs.NextSteps.{next_step};
ghost use Rattle.flat_state.specs.State.{FlatState};
ghost use Rattle.cache_ident.specs.Residents.{Resident};
ghost use Rattle.run_journal.specs.declared.entries.Entry.{Entry};
ghost use Rattle.run_journal.specs.declared.entries.Entry.TheVariants as entries;
ghost use Rattle.run_journal.specs.Entries.{erase, steps_in};
ghost use Rattle.run_journal.specs.Told.{residents, residents_from, is_load, is_seal, Anything, told, told_from};
ghost use Rattle.run_journal.specs.Standing.{StandsAs, standing_of, standing_from};
ghost use Rattle.run_journal.specs.Groups.{node_of, ArePairsOf, departures};
ghost use Rattle.run_journal.specs.Legal.{first_ident, AreLegal, IsFullBefore, IsLegal, IsRowResident, StaysGood, TakesStep, MayComplete, MayEnd, MayLoad, MayLock, MayRun, MayStep, MayUnlock};
ghost use Rattle.run_journal.specs.Points.{KeepsAll, opening};

/// What a longer journal tells is what the entries behind tell beyond the shorter one.
pub fn a_longer_journal_tells_more()
    ensures events { (j es : List Entry) → erase (j ++ es) ≡ erase j ++ erase es }
    ensures state { (j es : List Entry) → flat (erase (j ++ es)) ≡ after_events (flat (erase j)) (erase es) }
    ensures steps { (j es : List Entry) → steps_in (j ++ es) ≡ steps_in j + steps_in es }
    ensures residents { (j es : List Entry) → residents (j ++ es) ≡ residents_from (residents j) es }
    ensures standing { (j es : List Entry) (ident : Ident) → standing_of (j ++ es) ident ≡ standing_from (length j) ident (standing_of j ident) es }
    ensures told { (j es : List Entry) → told (j ++ es) ≡ told_from (told j) es }
{}

/// What a journal tells, entry by entry, is what is said of it as a list.
pub fn what_is_told_is_so()
    ensures state { (j : List Entry) → (told j).state ≡ flat (erase j) }
    ensures residents { (j : List Entry) → (told j).residents ≡ residents j }
    ensures loads { (j : List Entry) → (told j).loads ≡ count_by is_load j }
    ensures sealed { (j : List Entry) → (told j).sealed ≡ list_any is_seal j }
    ensures standing { (j : List Entry) (ident : Ident) → StandsAs j ident (standing_of j ident) }
{}

/// A step that a thread may take over what is resident is its next step in the machine with unlimited tables, and faults as
/// that does. And that step may be taken where the rows that it goes through are resident.
pub fn a_step_that_may_be_taken_fits()
    ensures fits { (s : FlatState) (rs : List Resident) (thread : ThreadNo) (faults : Bool) → MayStep s rs thread faults → TakesStep s thread faults }
    ensures may { (s : FlatState) (rs : List Resident) (thread : ThreadNo) (faults : Bool) (next : NextStep) → TakesStep s thread faults → next_step s thread.0 ≡ Some next
        → IsRowResident rs next.fetch_row → (faults ≡ false → IsRowResident rs next.data_row) → MayStep s rs thread faults }
{}

/// A legal journal stays legal by what may come next, where nothing more has to come behind it. And what begins a legal
/// journal is by the rules.
pub fn a_journal_grows_by_what_may_come()
    ensures grows { (j es : List Entry) → IsLegal j → AreLegal (told j) es → (told_from (told j) es).due ≡ Anything → IsLegal (j ++ es) }
    ensures begins { (j es : List Entry) → IsLegal (j ++ es) → AreLegal (told []) j }
    ensures goes_on { (j es : List Entry) → IsLegal (j ++ es) → AreLegal (told j) es }
{}

/// Before the seal a legal journal grows by declarations that fit, and by the seal with the load and the lock of the
/// first kernel.
pub fn a_journal_grows_until_its_seal()
    ensures declared { (j : List Entry) (d : Decl) → IsLegal j → (told j).sealed ≡ false → broken_rule (told j).state d ≡ None → IsLegal (j ++ entries.Declared d ∷ []) }
    ensures sealed { (j : List Entry) → IsLegal j → (told j).sealed ≡ false
        → MayLoad (told (j ++ entries.Sealed ∷ [])) first_ident first_name
        → MayLock (told (j ++ entries.Sealed ∷ entries.Loaded first_ident first_name 0 ∷ [])) first_ident
        → IsLegal (j ++ entries.Sealed ∷ entries.Loaded first_ident first_name 0 ∷ entries.Locked first_ident 0 ∷ []) }
{}

/// Behind the seal it grows by what one of eight processors does.
pub fn a_journal_grows_behind_its_seal()
    ensures loaded { (j : List Entry) (ident : Ident) (name : Name) (cpu : ℕ) → IsLegal j → (told j).sealed ≡ true → 0 < (told j).loads → cpu < 8 → MayLoad (told j) ident name → IsLegal (j ++ entries.Loaded ident name cpu ∷ []) }
    ensures locked { (j : List Entry) (ident : Ident) (cpu : ℕ) → IsLegal j → (told j).sealed ≡ true → cpu < 8 → MayLock (told j) ident → IsLegal (j ++ entries.Locked ident cpu ∷ []) }
    ensures unlocked { (j : List Entry) (ident : Ident) (cpu : ℕ) → IsLegal j → (told j).sealed ≡ true → cpu < 8 → MayUnlock (told j) ident → IsLegal (j ++ entries.Unlocked ident cpu ∷ []) }
    ensures ran { (j : List Entry) (thread : ThreadNo) (steps cpu : ℕ) → IsLegal j → (told j).sealed ≡ true → cpu < 8 → MayRun (told j) thread steps → IsLegal (j ++ entries.Ran thread steps cpu ∷ []) }
    ensures ended { (j : List Entry) (thread : ThreadNo) (cpu : ℕ) → IsLegal j → (told j).sealed ≡ true → cpu < 8 → MayEnd (told j) thread → IsLegal (j ++ entries.Ended thread cpu ∷ []) }
    ensures completed { (j : List Entry) (thread : ThreadNo) (cpu : ℕ) → IsLegal j → (told j).sealed ≡ true → cpu < 8 → MayComplete (told j) thread → IsLegal (j ++ entries.Completed thread cpu ∷ []) }
{}

/// A group leaves a legal journal legal where it is the closure of its last one in its order: by an unload, or by a
/// displacement with the load that follows it.
pub fn a_group_leaves_in_its_order()
    ensures unloaded { (j : List Entry) (root : Resident) (pairs : List (Ident × Node)) (nodes : List Node) (cpu : ℕ)
        → IsLegal j → (told j).sealed ≡ true → cpu < 8 → Contains (told j).residents root → root.ident ≢ first_ident
        → ArePairsOf (told j).state (told j).residents pairs
        → (order : IsOrder pairs (node_of (told j).state root) nodes)
        → IsLegal (j ++ departures cpu order.dependents root.ident causes.Unloaded) }
    ensures displaced { (j : List Entry) (root : Resident) (pairs : List (Ident × Node)) (nodes : List Node) (ident : Ident) (name : Name) (cpu : ℕ)
        → IsLegal j → (told j).sealed ≡ true → 0 < (told j).loads → cpu < 8 → Contains (told j).residents root → root.ident ≢ first_ident
        → ArePairsOf (told j).state (told j).residents pairs
        → (order : IsOrder pairs (node_of (told j).state root) nodes)
        → root.locked ≡ false → IsFullBefore (told j) root.ident.kind → ident.kind ≡ root.ident.kind
        → MayLoad (told (j ++ departures cpu order.dependents root.ident causes.Displaced)) ident name
        → IsLegal (j ++ (departures cpu order.dependents root.ident causes.Displaced ++ entries.Loaded ident name cpu ∷ [])) }
{}

/// What is resident in a legal journal: its serial was given out by a load, its kind is its name's, each has an identifier,
/// a name and a slot of its own, stands in the machine, and is fit; and all that it depends on is resident too.
pub fn what_is_resident_is_whole()
    ensures issued { (j : List Entry) (r : Resident) → IsLegal j → Contains (residents j) r → r.ident.serial < count_by is_load j }
    ensures kind { (j : List Entry) (r : Resident) → IsLegal j → Contains (residents j) r → r.ident.kind ≡ kind_of r.name }
    ensures idents { (j : List Entry) (a b : Resident) → IsLegal j → Contains (residents j) a → Contains (residents j) b → a.ident ≡ b.ident → a ≡ b }
    ensures names { (j : List Entry) (a b : Resident) → IsLegal j → Contains (residents j) a → Contains (residents j) b → a.name ≡ b.name → a ≡ b }
    ensures slots { (j : List Entry) (a b : Resident) → IsLegal j → Contains (residents j) a → Contains (residents j) b → a.ident.kind ≡ b.ident.kind → a.ident.slot ≡ b.ident.slot → a ≡ b }
    ensures good { (j : List Entry) (r : Resident) → IsLegal j → Contains (residents j) r → StaysGood (flat (erase j)) (residents j) r }
{}

/// A journal is legal, and begins with the declarations and the seal, exactly where each place keeps each rule by its
/// number.
pub fn rules_hold_at_each_place()
    ensures legal { (ds : List Decl) (j : List Entry) → KeepsAll ds j → IsLegal j }
    ensures begins { (ds : List Decl) (j : List Entry) → KeepsAll ds j → (rest : List Entry) × (j ≡ opening ds ++ rest) }
    ensures keeps { (ds : List Decl) (j rest : List Entry) → IsLegal j → j ≡ opening ds ++ rest → KeepsAll ds j }
{}
