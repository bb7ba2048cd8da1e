//! The pages of a store's file: reading one, which tells whether it is valid, and writing one. The runs read and write their
//! pages by it.
#![tactic(auto)]

mod component;
mod entry;
mod file;
mod laws;
mod page;

pub use component::no_component;
pub use file::{Broken, read_page, write_page};
pub use laws::{
    chains, one_component, one_order, one_page, pages_are_apart, what_stays, where_entries_stand,
};
pub use page::{LEAST_FULL, MOST_USED, PAGE_HEAD_LEN, PAGE_LEN, PageHead, number_of};
