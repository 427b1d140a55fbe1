//! What is read of a content so far: its rows, the runs that aren't paired yet, and the label starts
//! that are open (CommonMark 6 and appendix, phase 2).
#![tactic(auto)]

pub mod label;
pub mod label_start;
pub mod reading;
pub mod room;

pub use reading::Reading;
pub use room::{Room, RowRoom};
