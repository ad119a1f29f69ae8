//! What stays of residents that are whole before and after an event.

ghost use Rattle.std.specs.Prelude.{◌≡◌, ◌↔◌, List, Contains, true};
ghost use Rattle.cache_ident.specs.declared.names.Name.{Name};
ghost use Rattle.cache_ident.specs.Residents.{Resident};
ghost use Rattle.run_journal.specs.flat_state.specs.declared.events.Event.{Event};
ghost use Rattle.run_journal.specs.flat_state.specs.Dependence.{Depends, owner};
ghost use Rattle.run_journal.specs.flat_state.specs.Events.{applied, flat};
ghost use Rattle.run_journal.specs.flat_state.specs.Names.{class_of, stands};
ghost use Rattle.run_journal.specs.Legal.{AreGood};
ghost use Rattle.journal_laws.specs.Touching.{frame_of};

/// Where residents are whole before and after an event, each depends on what it depended on. So nothing that is kept of
/// who depends on whom has to change while steps are taken and calls completed. A descriptor that stands before and after
/// an event has the owner and the class that it had, and if it is a row its frame. This holds of every state that events
/// can reach.
pub fn what_stays_good_depends_on_the_same()
    ensures depends { (es : List Event) (e : Event) (rs : List Resident) → AreGood (flat es) rs → AreGood (applied (flat es) e) rs → (r : Resident) → Contains rs r → (parent : Name) → Depends (applied (flat es) e) r.name parent ↔ Depends (flat es) r.name parent }
    ensures owner { (es : List Event) (e : Event) (name : Name) → stands (flat es) name ≡ true → stands (applied (flat es) e) name ≡ true → owner (applied (flat es) e) name ≡ owner (flat es) name }
    ensures frame { (es : List Event) (e : Event) (name : Name) → stands (flat es) name ≡ true → stands (applied (flat es) e) name ≡ true → frame_of (applied (flat es) e) name ≡ frame_of (flat es) name }
    ensures class { (es : List Event) (e : Event) (name : Name) → stands (flat es) name ≡ true → stands (applied (flat es) e) name ≡ true → class_of (applied (flat es) e) name ≡ class_of (flat es) name }
{}
