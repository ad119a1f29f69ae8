//! Spaces and receivers that owners learn.

ghost use Rattle.std.specs.Prelude.{◌≡◌, IfSome, Option, Some};
ghost use Rattle.cache_ident.specs.declared.idents.Ident.{Ident};
ghost use Rattle.cache_ident.specs.declared.names.Name.{Name};
ghost use Rattle.cache_ident.specs.declared.names.Name.TheVariants as name;
ghost use Rattle.cache_ident.specs.declared.names.SpaceNo.{SpaceNo};
ghost use Rattle.cache_ident.specs.declared.names.ThreadNo.{ThreadNo};
ghost use Rattle.cache_ident.specs.declared.names.Vpn.{Vpn};
ghost use Rattle.legal_laws.specs.flat_state.specs.Events.{flat};
ghost use Rattle.legal_laws.specs.run_journal.specs.Entries.{erase};
ghost use Rattle.answer_laws.specs.board_ops.specs.declared.refusals.Refused.TheVariants as why;
ghost use Rattle.answer_laws.specs.board_core.specs.Core.{contents_of, IsSound, Recorded};
ghost use Rattle.answer_laws.specs.board_checks.specs.Refusals.{refusal_of_load_mapping, refusal_of_load_thread};
ghost use Rattle.owners.specs.Known.{ident_of, Known};
ghost use Rattle.owners.specs.Owning.{AreOwnersOf, IsThreadOf};
ghost use Rattle.owner_laws.specs.Passing.{thread_named, Passes};

/// A thread that is loaded, or refused as loaded already, by the identifier noted for a space is one of that space.
pub fn a_space_that_a_load_passes_may_be_learnt()
    ensures { (b : Recorded) (o : Known) (caller parent : Ident) (space : SpaceNo) (thread : ThreadNo) → IsSound b → AreOwnersOf b.journal.entries o → ident_of o (name.Space space) ≡ Some parent
        → Passes (refusal_of_load_thread (contents_of b) caller parent thread) → IsThreadOf (flat (erase b.journal.entries)) space thread }
{}

/// The receiver that is told of a row, by the identifier noted for its space, is a thread of that space, if there is one.
pub fn a_receiver_that_is_told_may_be_learnt()
    ensures { (b : Recorded) (o : Known) (caller parent : Ident) (space : SpaceNo) (vpn : Vpn) (receiver : Option Ident) (given declared : Option Name) → IsSound b → AreOwnersOf b.journal.entries o → ident_of o (name.Space space) ≡ Some parent
        → refusal_of_load_mapping (contents_of b) caller parent vpn receiver ≡ Some (why.WrongParent given declared) → IfSome (thread_named declared) (IsThreadOf (flat (erase b.journal.entries)) space) }
{}
