//! What stands on and beside the bars: locks, the ends with their causes, names, and the place that breaks a rule.

use crate::bars::end_of;
use crate::frame::{Frame, KINDS, SLOT, kind_number, meets};
use crate::lanes::{at_place, boxed};
use crate::lives::Life;
use crate::whole::Judged;
use crate::sentences::sentence;
use cache_ident::{Cause, Ident, NoMemory};
use page_markup::{AttributeName, Element, Tag};
use run_journal::Entry;
use std::alloc::Global;

// Since when the life of a number is locked, or nothing.
type Since = Vec<Option<u64>>;

fn set(since: &mut Since, ident: Ident, place: Option<u64>) -> Option<u64> {
    let index = ident.serial as usize;
    if index < since.len() {
        let before = since[index];
        since[index] = place;
        return before;
    }
    None
}

fn lock(
    alloc: Global,
    frame: &Frame,
    ident: Ident,
    from: u64,
    to: u64,
) -> Result<Element, NoMemory> {
    let y = frame
        .slot_y(ident.kind, ident.slot)
        .saturating_add(SLOT - 5);
    let title = format!(in alloc; "{ident} is locked from entry {from} on")?;
    let element = Element::new(alloc, Tag::Rect, "lock")?;
    boxed(element, frame, from, to)?
        .at(AttributeName::Y, y)?
        .at(AttributeName::Height, 3)?
        .titled(title.as_str())
}

// Adds a lock that ended, where it meets the places that are drawn.
fn draw_lock(
    alloc: Global,
    frame: &Frame,
    ident: Ident,
    from: Option<u64>,
    to: u64,
    out: &mut Vec<Element>,
) -> Result<(), NoMemory> {
    if let Some(from) = from {
        if from < frame.to && to > frame.start {
            out.push(lock(alloc, frame, ident, from, to)?)?;
        }
    }
    Ok(())
}

/// Adds a strip for each time that something is locked.
pub(crate) fn draw_locks(
    alloc: Global,
    frame: &Frame,
    entries: &[Entry],
    lives: &[Life],
    out: &mut Vec<Element>,
) -> Result<(), NoMemory> {
    let mut since: Since = Vec::new(alloc);
    let mut place = 0u64;
    for entry in entries {
        match *entry {
            Entry::Loaded { .. } => since.push(None)?,
            Entry::Locked { ident, .. } => {
                let _ = set(&mut since, ident, Some(place));
            }
            Entry::Unlocked { ident, .. } | Entry::WrittenBack { ident, .. } => {
                let from = set(&mut since, ident, None);
                draw_lock(alloc, frame, ident, from, place, out)?;
            }
            _ => {}
        }
        place = place.saturating_add(1);
    }
    for life in lives {
        let from = set(&mut since, life.ident, None);
        draw_lock(alloc, frame, life.ident, from, place, out)?;
    }
    Ok(())
}

// The sign of a cause: a wedge, a ring or a stop, so that none is told by its colour alone.
fn sign(cause: Cause) -> (&'static str, &'static str) {
    match cause {
        Cause::Displaced => ("end displaced", "M0 0v16l-7-8z"),
        Cause::Dependent => ("end dependent", "M-7 4h6v8h-6z"),
        Cause::Unloaded => ("end unloaded", "M-3 0h3v16h-3z"),
    }
}

fn end(alloc: Global, frame: &Frame, life: &Life) -> Result<Option<Element>, NoMemory> {
    match life.left {
        Some(left) if left.place < frame.to => {
            let y = frame
                .slot_y(life.ident.kind, life.ident.slot)
                .saturating_add(2);
            let (class, shape) = sign(left.cause);
            let (ident, cause) = (life.ident, left.cause);
            let title = format!(in alloc; "{ident} {cause}")?;
            let element = Element::new(alloc, Tag::Path, class)?;
            let element = at_place(element, alloc, frame, left.place, y)?
                .with(AttributeName::Shape, shape)?
                .titled(title.as_str())?;
            Ok(Some(element))
        }
        _ => Ok(None),
    }
}

// The name of a life in its bar, where there is room, or could be once the page's script draws it wider.
fn name(alloc: Global, frame: &Frame, life: &Life) -> Result<Option<Element>, NoMemory> {
    let (from, to) = (life.loaded.max(frame.start), end_of(frame, life));
    let room = frame.x(to).saturating_sub(frame.x(from));
    if room < 44 && !frame.is_short() {
        return Ok(None);
    }
    let class = if room < 44 { "in small" } else { "in" };
    let (ident, name) = (life.ident, life.name);
    let text = if room < 110 {
        format!(in alloc; "{ident}")?
    } else {
        format!(in alloc; "{ident} {name}")?
    };
    let y = frame
        .slot_y(life.ident.kind, life.ident.slot)
        .saturating_add(14);
    let element = Element::new(alloc, Tag::Text, class)?.saying(text.as_str())?;
    let element = at_place(element, alloc, frame, from, y)?;
    Ok(Some(element.at(AttributeName::To, to)?))
}

/// Adds the ends of bars and the names in them.
pub(crate) fn draw_ends(
    alloc: Global,
    frame: &Frame,
    lives: &[Life],
    out: &mut Vec<Element>,
) -> Result<(), NoMemory> {
    for life in lives {
        if meets(life, frame.from, frame.to) {
            if let Some(end) = end(alloc, frame, life)? {
                out.push(end)?;
            }
            if let Some(name) = name(alloc, frame, life)? {
                out.push(name)?;
            }
        }
    }
    Ok(())
}

/// Adds the names of the slots that have a row.
pub(crate) fn name_slots(
    alloc: Global,
    frame: &Frame,
    out: &mut Vec<Element>,
) -> Result<(), NoMemory> {
    for key in &frame.slots {
        let key = *key;
        for kind in KINDS {
            let (number, slot) = (key / 4_294_967_296, key % 4_294_967_296);
            if number == kind_number(kind) {
                let slot = u32::try_from(slot).unwrap_or(0);
                let letter = kind.letter();
                let text = format!(in alloc; "{letter}{slot}")?;
                let y = frame.slot_y(kind, slot).saturating_add(14);
                let label = Element::new(alloc, Tag::Text, "slot")?
                    .at(AttributeName::X, 8)?
                    .at(AttributeName::Y, y)?
                    .saying(text.as_str())?;
                out.push(label)?;
            }
        }
    }
    Ok(())
}

/// Adds a line where a rule is broken, if that place is drawn.
pub(crate) fn draw_broken(
    alloc: Global,
    frame: &Frame,
    judged: Judged,
    out: &mut Vec<Element>,
) -> Result<(), NoMemory> {
    if let Judged::Broken { at, point } = judged {
        if at == frame.to {
            let height = frame.height();
            let shape = format!(in alloc; "M0 0v{height}h4v-{height}z")?;
            let rule = sentence(point);
            let title = format!(in alloc; "entry {at} breaks rule {point}: {rule}")?;
            let line = Element::new(alloc, Tag::Path, "broken")?;
            let line = at_place(line, alloc, frame, at, 0)?
                .with(AttributeName::Shape, shape.as_str())?
                .titled(title.as_str())?;
            out.push(line)?;
            let text = format!(in alloc; "rule {point}")?;
            let label = Element::new(alloc, Tag::Text, "broken")?.saying(text.as_str())?;
            out.push(at_place(label, alloc, frame, at, 24)?)?;
        }
    }
    Ok(())
}
