#![tactic(auto)]
//! What a transmission looks like: a text grid of its codewords with a letter for each page, a drawing,
//! and a listing of where its pages stand.

mod counts;
mod drawing;
mod emission;
mod fault;
mod heading;
mod judge;
mod judged;
mod kind_reader;
mod legend;
mod letters;
mod listing;
mod marks;
mod page_lines;
mod page_numbers;
mod page_text;
mod picture;
mod pieces;
mod placed;
mod placement;
mod places;
mod rows;
mod style;
mod view;
mod views;
mod window;

pub use fault::ShowFault;
pub use rows::Rows;
pub use view::View;
pub use views::show;
