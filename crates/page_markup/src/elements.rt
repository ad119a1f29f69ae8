//! The elements of a page.

ghost use Rattle.std.specs.Prelude.{◌≡◌, ◌++◌, OnOk};
ghost use Rattle.page_markup.specs.Elements.{element_text, elements_text, group_text, title_text};

use crate::attributes::{Attribute, AttributeName, Tag, put_closing, put_escaped, put_opening};
use std::alloc::{AllocError, Global};

/// An element without elements in it, but for its title.
#[derive(Drop)]
pub struct Element {
    pub tag: Tag,
    pub attributes: Vec<Attribute>,
    /// What it is, in words; nothing where it has no title.
    pub title: Vec<u8>,
    pub text: Vec<u8>,
}

impl Element {
    /// An element of a class, without a title and a text.
    pub fn new(alloc: Global, tag: Tag, class: &str) -> Result<Element, AllocError> {
        let element = Element {
            tag,
            attributes: Vec::new(alloc),
            title: Vec::new(alloc),
            text: Vec::new(alloc),
        };
        element.with(AttributeName::Class, class)
    }

    /// The element with an attribute more.
    pub fn with(mut self, name: AttributeName, value: &str) -> Result<Element, AllocError> {
        let value = Vec::from_slice(*self.attributes.allocator(), value.as_bytes())?;
        self.attributes.push(Attribute { name, value })?;
        Ok(self)
    }

    /// The element with a number as an attribute more.
    pub fn at(self, name: AttributeName, value: u64) -> Result<Element, AllocError> {
        let text = format!(in *self.attributes.allocator(); "{value}")?;
        self.with(name, text.as_str())
    }

    /// The element with that title.
    pub fn titled(mut self, title: &str) -> Result<Element, AllocError> {
        self.title.extend_from_slice(title.as_bytes())?;
        Ok(self)
    }

    /// The element with that text.
    pub fn saying(mut self, text: &str) -> Result<Element, AllocError> {
        self.text.extend_from_slice(text.as_bytes())?;
        Ok(self)
    }
}

// Adds a title, if there is one.
#[tactic(auto, unfolding(crate::specs::Elements::title_text))]
fn put_title(out: &mut Vec<u8>, title: &[u8]) -> Result<(), AllocError>
    ensures { OnOk result (out.new.items ≡ out.old.items ++ title_text title.now) }
{
    if !title.is_empty() {
        put_opening(out, Tag::Title, &[])?;
        put_escaped(out, title)?;
        put_closing(out, Tag::Title)?;
    }
    Ok(())
}

/// Adds an element, and a line feed.
#[tactic(auto, unfolding(crate::specs::Elements::element_text))]
pub fn put_element(out: &mut Vec<u8>, element: &Element) -> Result<(), AllocError>
    ensures { OnOk result (out.new.items ≡ out.old.items ++ element_text element.now) }
{
    put_opening(out, element.tag, &element.attributes)?;
    put_title(out, &element.title)?;
    put_escaped(out, &element.text)?;
    put_closing(out, element.tag)?;
    out.extend_from_slice(b"\n")
}

/// Adds elements, a line each.
pub fn put_elements(out: &mut Vec<u8>, elements: &[Element]) -> Result<(), AllocError>
    ensures { OnOk result (out.new.items ≡ out.old.items ++ elements_text elements.now) }
{
    for element in elements {
        put_element(out, element)?;
    }
    Ok(())
}

/// Elements within another one.
#[derive(Drop)]
pub struct Group {
    pub tag: Tag,
    pub attributes: Vec<Attribute>,
    pub elements: Vec<Element>,
}

/// Adds a group.
#[tactic(auto, unfolding(crate::specs::Elements::group_text))]
pub fn put_group(out: &mut Vec<u8>, group: &Group) -> Result<(), AllocError>
    ensures { OnOk result (out.new.items ≡ out.old.items ++ group_text group.now) }
{
    put_opening(out, group.tag, &group.attributes)?;
    put_elements(out, &group.elements)?;
    put_closing(out, group.tag)
}
