//! Why what is written is well-formed, as the contract of a call that does nothing.

ghost use Rattle.std.specs.Prelude.{List};
ghost use Rattle.page_markup.specs.declared.elements.Element.{Element};
ghost use Rattle.page_markup.specs.declared.elements.Group.{Group};
ghost use Rattle.page_markup.specs.Elements.{elements_text, group_text};
ghost use Rattle.page_markup.specs.Markup.{IsContent};

/// The text of elements and of groups is well-formed, whatever their titles, texts and values say.
pub fn what_is_written_is_well_formed()
    ensures elements { (es : List Element) → IsContent (elements_text es) }
    ensures groups { (g : Group) → IsContent (group_text g) }
{}
