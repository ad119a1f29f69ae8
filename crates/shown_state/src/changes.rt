//! What is shown once a content changed, came or went.

ghost use Rattle.std.specs.Prelude.{◌≡◌, ℕ, Bool, List, Option, Some, None};
ghost use Rattle.cache_ident.specs.declared.idents.Ident.{Ident};
ghost use Rattle.cache_ident.specs.declared.names.Caps.{Caps};
ghost use Rattle.cache_ident.specs.declared.names.KernelNo.{KernelNo};
ghost use Rattle.cache_ident.specs.declared.names.Name.TheVariants as name;
ghost use Rattle.cache_ident.specs.declared.names.SpaceNo.{SpaceNo};
ghost use Rattle.cache_ident.specs.declared.names.Vpn.{Vpn};
ghost use Rattle.flat_state.specs.declared.events.Machine.{Machine};
ghost use Rattle.flat_state.specs.State.{nothing_declared};
ghost use Rattle.desc_stores.specs.declared.items.Item.{Item};
ghost use Rattle.desc_stores.specs.Items.{name_of, Agrees};
ghost use Rattle.desc_stores.specs.Changes.{with_item, HasContent, IsDeclaring, IsNext, IsNothing};
ghost use Rattle.desc_stores.specs.Contents.{content_of, item_as, Contents};
ghost use Rattle.desc_stores.specs.Sound.{IsExactlyOne};
ghost use Rattle.shown_state.specs.Shown.{shown};
ghost use Rattle.shown_state.specs.Edits.{with_changed, with_mark, with_new, without_row, IsChange, IsMark, IsRetraction};

/// Where one name has another content than before, and the same names stand, what is shown has what that content shows in
/// the place of what has its name. Where the marks of a row changed, its row is marked. To mark the row of a page that has
/// none changes nothing.
pub fn a_change_shows_in_its_place()
    ensures shown { (machine : Option Machine) (memory : List ℕ) (old new : Contents) (content : Item) → IsExactlyOne old → IsChange old new content → shown machine memory new ≡ with_changed (shown machine memory old) content }
    ensures marked { (machine : Option Machine) (memory : List ℕ) (old new : Contents) (space : SpaceNo) (vpn : Vpn) (written : Bool) → IsMark old new space vpn written → shown machine memory new ≡ with_mark (shown machine memory old) space vpn written }
    ensures unmarked { (machine : Option Machine) (memory : List ℕ) (c : Contents) (space : SpaceNo) (vpn : Vpn) (written : Bool) → content_of c (name.Mapping space vpn) ≡ None → with_mark (shown machine memory c) space vpn written ≡ shown machine memory c }
{}

/// What is loaded with an identifier is the content of its name. So where a content that may stand in its place came there,
/// that is a change.
pub fn what_changes_is_the_content_of_its_name()
    ensures loaded { (c : Contents) (ident : Ident) (content : Item) → IsExactlyOne c → item_as c ident ≡ Some content → content_of c (name_of content) ≡ Some content }
    ensures change { (old new : Contents) (ident : Ident) (was content : Item) → IsExactlyOne old → item_as old ident ≡ Some was → Agrees was content → HasContent old new content → new ≡ with_item old ident content → IsChange old new content }
{}

/// A descriptor that was declared is shown behind the others of its kind.
pub fn a_declaration_shows_as_the_last()
    ensures { (machine : Option Machine) (memory : List ℕ) (old new : Contents) (owner : KernelNo) (content : Item) → IsExactlyOne old → IsDeclaring old new owner content → IsNext old content → content_of old (name_of content) ≡ None → HasContent old new content → shown machine memory new ≡ with_new (shown machine memory old) content }
{}

/// A row that was retracted is shown no more. To take out the row of a page that has none changes nothing.
pub fn what_is_retracted_is_shown_no_more()
    ensures retracted { (machine : Option Machine) (memory : List ℕ) (old new : Contents) (space : SpaceNo) (vpn : Vpn) → IsRetraction old new space vpn → shown machine memory new ≡ without_row (shown machine memory old) space vpn }
    ensures absent { (machine : Option Machine) (memory : List ℕ) (c : Contents) (space : SpaceNo) (vpn : Vpn) → content_of c (name.Mapping space vpn) ≡ None → without_row (shown machine memory c) space vpn ≡ shown machine memory c }
{}

/// Stores of which nothing was declared show a machine of which nothing was.
pub fn nothing_shows_nothing()
    ensures { (machine : Option Machine) (memory : List ℕ) (caps : Caps) (c : Contents) → IsNothing caps c → shown machine memory c ≡ record nothing_declared { machine = machine; memory = memory } }
{}
