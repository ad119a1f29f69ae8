//! A journal as a picture: a page with a drawing in SVG, which any browser opens.
#![tactic(auto)]

mod bars;
mod frame;
mod heading;
mod lanes;
mod levels;
mod lives;
mod marks;
mod moments;
mod numbers;
mod overview;
mod page;
mod sentences;
mod static_text;
mod whole;

pub use bars::Bar;
pub use lives::{Departure, Life};
pub use page::Drawing;
pub use whole::{Judged, Part, picture};
pub use std::alloc::AllocError as NoMemory;
