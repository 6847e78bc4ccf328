//! A ladder: the picture of a run, with a lane for each station and a row for each thing that happens, one below the
//! other in their order. It is plain data, which knows no world, and is written as SVG or as a part of a page, in
//! UTF-8.
//!
//! To the layer above it promises that it returns; what is written is shown by rows, and isn't proved.
//!
//! - `picture`: stations, lanes, rows, messages, events and pauses.
//! - `row_text`: a row in words.
//! - `escaped`: texts as they stand in SVG and HTML.
//! - `layout`: where everything stands.
//! - `svg`: the picture alone. `html`: the picture in a page. `lanes`: what stands behind its rows.
//! - `marks`, `broadcast`, `label`: what is written of a row. `classes`: by what it is chosen in a page.
#![tactic(auto)]

mod broadcast;
mod classes;
mod escaped;
mod html;
mod label;
mod lanes;
mod layout;
mod marks;
mod picture;
mod row_text;
mod svg;

pub use classes::ClassesOfNote;
pub use escaped::Escaped;
pub use html::write_html;
pub use picture::{
    Anchor, Arrow, Band, Kind, Ladder, Mark, Note, Reach, Repeat, Row, Segment, Shade, Station,
};
pub use row_text::RowText;
pub use svg::write_svg;
