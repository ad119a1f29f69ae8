//! What memory has of an executable, once what it declares has been declared. Each law is the contract of a function
//! that does nothing.
#![tactic(auto)]

ghost use Rattle.std.specs.Prelude.{◌≡◌, ◌<◌, ◌++◌, ℕ, List, Some, slice_get};
ghost use Rattle.cache_ident.specs.declared.names.SpaceNo.{SpaceNo};
ghost use Rattle.cache_ident.specs.declared.names.ThreadNo.{ThreadNo};
ghost use Rattle.image_decls.specs.flat_state.specs.declared.events.Decl.{Decl};
ghost use Rattle.image_decls.specs.flat_state.specs.State.{FlatState, nothing_declared};
ghost use Rattle.image_decls.specs.flat_state.specs.WellFormed.{IsWellFormed};
ghost use Rattle.image_decls.specs.flat_state.specs.Events.{AllFit, after_declarations};
ghost use Rattle.image_decls.specs.elf_image.specs.declared.images.Part.{Part};
ghost use Rattle.image_decls.specs.elf_image.specs.Elf.{Executable};
ghost use Rattle.image_decls.specs.Declarations.{declarations};
ghost use Rattle.image_memory.specs.Loaded.{IsBytes, IsLoaded};

/// If all that an executable declares fits, one declaration after another, then afterwards each address of each part
/// reads through the row of its page: the part's own byte from the file, and 0 behind those, whatever memory had there.
pub fn an_executable_stands_in_memory()
    // The declarations come in any well-formed state.
    ensures anywhere { (bytes : List ℕ) (space : SpaceNo) (frame : ℕ) (thread : ThreadNo) (image : Executable) (s : FlatState) → IsBytes bytes → IsWellFormed s → AllFit s (declarations bytes space frame thread image) → (i : ℕ) (part : Part) (k : ℕ) → slice_get image.parts i ≡ Some part → k < part.size → IsLoaded bytes space (after_declarations s (declarations bytes space frame thread image)) part k }
    // They come behind others in a scenario.
    ensures in_scenario { (bytes : List ℕ) (space : SpaceNo) (frame : ℕ) (thread : ThreadNo) (image : Executable) (before : List Decl) → IsBytes bytes → AllFit nothing_declared (before ++ declarations bytes space frame thread image) → (i : ℕ) (part : Part) (k : ℕ) → slice_get image.parts i ≡ Some part → k < part.size → IsLoaded bytes space (after_declarations nothing_declared (before ++ declarations bytes space frame thread image)) part k }
{}
