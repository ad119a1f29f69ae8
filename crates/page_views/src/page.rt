//! One copied page.

ghost use Rattle.std.specs.Prelude.{◌≡◌, ◌+◌, ◌<◌, false, length, None, Some, IfOk};
ghost use Rattle.std.specs.Bool.{OnTrue};
ghost use Rattle.rv32_exec.specs.Pages.{number_at, put_bytes, size_of};
ghost use Rattle.std.specs.Option.{option_copied};
ghost use Rattle.page_views.specs.Views.{mark_view, present_in};
ghost use Rattle.page_views.specs.Origins.{viewed};
ghost use Rattle.page_views.specs.Parts.{AreAlikeBut, IsWithinPage};

use crate::part::{Part, copy_part};
use cache_ident::{Frame, Ident, NoMemory, Vpn};
use phys_groups::{Flags, PAGE_LENGTH};
use rv32_exec::{Access, Width};
use std::alloc::Global;
use std::marker::Model;

/// Where a copied page comes from: its number, its frame, and the flags and the identifier of the row that it was copied
/// through; and the place of a journal as of which the frame had its bytes, where they carry one.
#[derive(Clone, Copy)]
pub(crate) struct Origin {
    pub(crate) vpn: Vpn,
    pub(crate) frame: Frame,
    pub(crate) flags: Flags,
    pub(crate) row: Ident,
    pub(crate) taken: Option<u64>,
}

// What a view is: what is known of it, and its contents. What stands before the contents are 64 bytes, so that their words are aligned.
#[derive(Drop)]
struct Body {
    // Where the present contents may differ from the first ones.
    changed: Part,
    vpn: Vpn,
    frame: Frame,
    flags: Flags,
    touched: bool,
    written: bool,
    row: Ident,
    taken: Option<u64>,
    present: [u8; PAGE_LENGTH],
    first: [u8; PAGE_LENGTH],
}

/// A copied page of 4,096 bytes, and what steps did to it.
///
/// A fetch, a load or a store through a view touches it, and a store also writes it. Every call takes constant time and
/// no memory.
#[derive(Drop)]
pub struct PageView {
    // It stands beside, so that a view changes its place without it.
    body: Box<Body>,
}

impl Model for PageView {
    ghost use Rattle.page_views.specs.Parts.{AreAlikeBut, IsWithinPage};
    ghost use Rattle.page_views.specs.Views.{View};

    ghost Value = { View };

    ghost view = { λ v. record { vpn = v.body.value.vpn; frame = v.body.value.frame; flags = v.body.value.flags; row = v.body.value.row; first = v.body.value.first; present = v.body.value.present; touched = v.body.value.touched; written = v.body.value.written; taken = v.body.value.taken } };

    ghost invariant = { λ v. AreAlikeBut v.body.value.changed v.body.value.first v.body.value.present × IsWithinPage v.body.value.changed };
}

impl PageView {
    // A view of zeros, which nothing was copied to yet.
    pub(crate) fn empty(alloc: Global) -> Result<PageView, NoMemory>
        ensures { IfOk result (λ view. view.taken ≡ None) }
    {
        let body = Body {
            changed: Part::none(),
            vpn: Vpn(0),
            frame: Frame(0),
            flags: Flags::default(),
            touched: false,
            written: false,
            row: Ident::default(),
            taken: None,
            present: [0; PAGE_LENGTH],
            first: [0; PAGE_LENGTH],
        };
        Ok(PageView {
            body: Box::new(alloc, body)?,
        })
    }

    /// The page.
    #[inline]
    pub fn vpn(&self) -> Vpn
        ensures { result ≡ self.now.vpn }
    {
        self.body.vpn
    }

    /// The frame that was copied.
    #[inline]
    pub fn frame(&self) -> Frame
        ensures { result ≡ self.now.frame }
    {
        self.body.frame
    }

    /// The flags of the row that it was copied through.
    #[inline]
    pub fn flags(&self) -> Flags
        ensures { result ≡ self.now.flags }
    {
        self.body.flags
    }

    /// The identifier of the row that it was copied through.
    pub fn row(&self) -> Ident
        ensures { result ≡ self.now.row }
    {
        self.body.row
    }

    /// The bytes as they were copied.
    pub fn first(&self) -> &[u8]
        ensures bytes { result.now ≡ self.now.first }
        ensures whole_page { length result.now ≡ 4096 }
    {
        &self.body.first
    }

    /// The place of a journal as of which the frame had the bytes that were copied, where they carry one.
    #[inline]
    pub fn taken(&self) -> Option<u64>
        ensures { result ≡ self.now.taken }
    {
        self.body.taken
    }

    /// Whether nothing was ever stored to it, and so its bytes are those that were copied. Constant time.
    #[inline]
    pub fn is_as_copied(&self) -> bool
        ensures { OnTrue result (self.now.present ≡ self.now.first) }
    {
        self.body.changed.is_none()
    }

    /// The bytes as they are now.
    pub fn present(&self) -> &[u8]
        ensures bytes { result.now ≡ self.now.present }
        ensures whole_page { length result.now ≡ 4096 }
    {
        &self.body.present
    }

    /// Whether an access went through it.
    pub fn touched(&self) -> bool
        ensures { result ≡ self.now.touched }
    {
        self.body.touched
    }

    /// Whether a store went through it.
    pub fn written(&self) -> bool
        ensures { result ≡ self.now.written }
    {
        self.body.written
    }

    // The number from a place on.
    #[inline]
    pub(crate) fn number(&self, at: usize, width: Width) -> u32
        requires { at + size_of width < 4097 }
        ensures { result ≡ number_at width self.now.present at }
    {
        let bytes = &self.body.present;
        match width {
            Width::Byte => u32::from(bytes[at]),
            Width::Half => u32::from(u16::from_le_bytes([bytes[at], bytes[at + 1]])),
            Width::Word => {
                u32::from_le_bytes([bytes[at], bytes[at + 1], bytes[at + 2], bytes[at + 3]])
            }
        }
    }

    // Puts the low bytes of a number from a place on.
    #[inline]
    pub(crate) fn put(&mut self, at: usize, width: Width, value: u32)
        requires { at + size_of width < 4097 }
        ensures { self.new ≡ record self.old { present = put_bytes (size_of width) self.old.present at value } }
    {
        let body = &mut *self.body;
        body.changed.reach(at, at + width.size() as usize);
        put_number(&mut body.present, at, width, value);
    }

    // Leaves the mark of an access.
    #[inline]
    pub(crate) fn mark(&mut self, access: Access)
        ensures { self.new ≡ mark_view access self.old }
    {
        let body = &mut *self.body;
        body.touched = true;
        if matches!(access, Access::Write) {
            body.written = true;
        }
    }

    // Makes it an untouched view, copied from `bytes`. It holds what `touched` holds, if there is one.
    pub(crate) fn copy(&mut self, origin: Origin, bytes: &[u8], touched: Option<&PageView>)
        requires { length bytes.now ≡ 4096 }
        ensures { self.new ≡ viewed origin bytes.now (present_in (option_copied touched.entry) bytes.now) }
    {
        self.renew(origin);
        let body = &mut *self.body;
        body.first.copy_from_slice(bytes);
        match touched {
            Some(view) => {
                body.present.copy_from_slice(&view.body.present);
                body.changed = Part::all();
            }
            None => {
                body.present.copy_from_slice(bytes);
                body.changed = Part::none();
            }
        }
    }

    // Makes it an untouched view, which holds the bytes that it was copied from.
    pub(crate) fn recall(&mut self, origin: Origin)
        ensures { self.new ≡ viewed origin self.old.first self.old.first }
    {
        let body = &mut *self.body;
        copy_part(&mut body.present, &body.first, body.changed);
        body.changed = Part::none();
        self.renew(origin);
    }

    // What it holds now is what it was copied from, as of a place of a journal.
    pub(crate) fn happen(&mut self, place: u64)
        ensures { self.new ≡ record self.old { first = self.old.present; taken = Some place } }
    {
        let body = &mut *self.body;
        copy_part(&mut body.first, &body.present, body.changed);
        body.changed = Part::none();
        body.taken = Some(place);
    }

    /// Where the present bytes may differ from those that were copied.
    #[inline]
    pub fn changed(&self) -> Part
        ensures alike { AreAlikeBut result self.now.first self.now.present }
        ensures within { IsWithinPage result }
    {
        self.body.changed
    }

    // Makes it an untouched view, with the contents that it has.
    fn renew(&mut self, origin: Origin)
        ensures { self.new ≡ viewed origin self.old.first self.old.present }
    {
        let body = &mut *self.body;
        body.vpn = origin.vpn;
        body.frame = origin.frame;
        body.flags = origin.flags;
        body.touched = false;
        body.written = false;
        body.row = origin.row;
        body.taken = origin.taken;
    }

    // Its bytes carry no place any more.
    pub(crate) fn forget(&mut self)
        ensures { self.new ≡ record self.old { taken = None } }
    {
        self.body.taken = None;
    }
}

// Puts the low bytes of a number from a place on. They are written in one place, so that they are one move.
#[inline]
fn put_number(bytes: &mut [u8; PAGE_LENGTH], at: usize, width: Width, value: u32)
    requires { at + size_of width < 4097 }
    ensures { bytes.new ≡ put_bytes (size_of width) bytes.old at value }
{
    match width {
        Width::Byte => {
            bytes[at] = (value & 0xff) as u8;
        }
        Width::Half => {
            bytes[at] = (value & 0xff) as u8;
            bytes[at + 1] = ((value >> 8) & 0xff) as u8;
        }
        Width::Word => {
            bytes[at] = (value & 0xff) as u8;
            bytes[at + 1] = ((value >> 8) & 0xff) as u8;
            bytes[at + 2] = ((value >> 16) & 0xff) as u8;
            bytes[at + 3] = ((value >> 24) & 0xff) as u8;
        }
    }
}
