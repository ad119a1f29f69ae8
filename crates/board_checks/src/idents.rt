//! What an identifier stands for.

ghost use Rattle.std.specs.Prelude.{◌≡◌, Some, IfOk};
ghost use Rattle.std.specs.Result.{result_err};
ghost use Rattle.cache_ident.specs.declared.idents.Kind.TheVariants as kind;
ghost use Rattle.cache_ident.specs.declared.idents.Standing.TheVariants.{Live};
ghost use Rattle.cache_ident.specs.Rolls.{standing_in};
ghost use Rattle.desc_tables.specs.desc_stores.specs.Contents.{item_as};
ghost use Rattle.desc_tables.specs.desc_stores.specs.Items.{shown};
ghost use Rattle.desc_tables.specs.desc_stores.specs.declared.items.Item.{Item};
ghost use Rattle.board_checks.specs.Identifiers.{not_a, not_a_receiver, not_live, receiver_as as receiver_named};

use board_ops::Refused;
use cache_ident::{Ident, Name, Standing};
use desc_tables::{ItemRef, Tables};
use kernel_cache::KernelRec;
use space_cache::SpaceRec;
use thread_cache::ThreadRec;

/// What is loaded with an identifier. Refused is one that was never issued (`Unknown`), and one whose descriptor has left
/// its cache (`Stale`).
pub fn live(tables: &Tables, ident: Ident) -> Result<ItemRef<'_>, Refused>
    ensures exact { result_err result ≡ not_live tables.now.contents ident }
    ensures found { IfOk result (λ item. item_as tables.now.contents ident ≡ Some (shown item)) }
{
    match tables.standing(ident) {
        Standing::Never => Err(Refused::Unknown { ident }),
        Standing::Left(at) => Err(Refused::Stale { ident, at }),
        Standing::Live => Ok(loaded_as(tables, ident)),
    }
}

/// The kernel that is loaded with an identifier. Refused as by `live`, and where it is that of another kind (`WrongKind`).
pub fn kernel_as(tables: &Tables, ident: Ident) -> Result<&KernelRec, Refused>
    ensures exact { result_err result ≡ not_a kind.Kernel tables.now.contents ident }
    ensures found { IfOk result (λ kernel. item_as tables.now.contents ident ≡ Some (Item.Kernel kernel.now)) }
{
    match live(tables, ident)? {
        ItemRef::Kernel(kernel) => Ok(kernel),
        _ => Err(Refused::WrongKind { ident }),
    }
}

/// The space that is loaded with an identifier. Refused as by `live`, and where it is that of another kind (`WrongKind`).
pub fn space_as(tables: &Tables, ident: Ident) -> Result<&SpaceRec, Refused>
    ensures exact { result_err result ≡ not_a kind.Space tables.now.contents ident }
    ensures found { IfOk result (λ space. item_as tables.now.contents ident ≡ Some (Item.Space space.now)) }
{
    match live(tables, ident)? {
        ItemRef::Space(space) => Ok(space),
        _ => Err(Refused::WrongKind { ident }),
    }
}

/// The thread that is loaded with an identifier. Refused as by `live`, and where it is that of another kind (`WrongKind`).
pub fn thread_as(tables: &Tables, ident: Ident) -> Result<&ThreadRec, Refused>
    ensures exact { result_err result ≡ not_a kind.Thread tables.now.contents ident }
    ensures found { IfOk result (λ thread. item_as tables.now.contents ident ≡ Some (Item.Thread thread.now)) }
{
    match live(tables, ident)? {
        ItemRef::Thread(thread) => Ok(thread),
        _ => Err(Refused::WrongKind { ident }),
    }
}

/// The name of a receiver, if one is given. Refused as by `thread_as`.
pub fn receiver_as(tables: &Tables, receiver: Option<Ident>) -> Result<Option<Name>, Refused>
    ensures exact { result_err result ≡ not_a_receiver tables.now.contents receiver }
    ensures named { IfOk result (λ name. receiver_named tables.now.contents receiver ≡ name) }
{
    match receiver {
        None => Ok(None),
        Some(ident) => Ok(Some(Name::Thread(thread_as(tables, ident)?.no))),
    }
}

// What is loaded with a live identifier.
fn loaded_as(tables: &Tables, ident: Ident) -> ItemRef<'_>
    requires live { standing_in tables.now.contents.issued ident ≡ Live }
    ensures { item_as tables.now.contents ident ≡ Some (shown result) }
{
    tables.are_sound();
    let Some(item) = tables.get(ident) else {
        unreachable!()
    };
    item
}
