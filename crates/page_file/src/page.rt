//! A page, and when it is valid.
//!
//! | At | Field |
//! |---|---|
//! | 0 | count u16: how many entries there are, at least 1 |
//! | 2 | used u16: how many bytes they have, at most 4,088 |
//! | 4 | the number of the next page u32, or 2^32 - 1 for none |
//! | 8 | the entries, in strictly rising key order |
//! | 8 + used | zeros |
//!
//! A page that has a next one has at least 3,577 bytes of entries: behind fewer the longest entry would have fitted.
ghost use Rattle.std.specs.Prelude.{◌≡◌, ◌↔◌, ◌+◌, ◌-◌, ◌≤◌, ◌<◌, ◌++◌, ◌^◌, ℕ, Option, length, drop, replicate, IsTrue, IfSome};
ghost use Rattle.record_delta.specs.Entries.{Entries};
ghost use Rattle.blsm_model.specs.Components.{no_page};
ghost use Rattle.page_file.specs.Page.{page_number, used_by, page_head, IsHead, IsPageOf, IsPage};

use crate::entry::are_entries;
use big_endian::{u16_at, u32_at};
use blsm_model::Op;

/// How many bytes a page has.
pub const PAGE_LEN: usize = 4_096;

/// How many bytes stand before the entries.
pub const PAGE_HEAD_LEN: usize = 8;

/// How many bytes the entries of a page may have.
pub const MOST_USED: u16 = 4_088;

/// How many bytes the entries of a page with a next one have at least.
pub const LEAST_FULL: u16 = MOST_USED - Op::MAX_WEIGHT as u16 + 1;

// What stands for no next page.
const NO_PAGE: u32 = u32::MAX;

/// What a page says before its entries.
#[derive(Clone, Copy, PartialEq, Eq, Debug)]
pub struct PageHead {
    /// How many entries there are.
    pub count: u16,
    /// How many bytes they have.
    pub used: u16,
    /// The number of the next page, if there is one.
    pub next: Option<u32>,
}

/// The number that names a page, or that there is none.
pub fn number_of(page: Option<u32>) -> u32
    ensures { result ≡ page_number page }
{
    page.unwrap_or(NO_PAGE)
}

// The page of this number, if it is one.
fn page_of(number: u32) -> Option<u32>
    ensures number { page_number result ≡ number }
    ensures fits { IfSome result (λ n. n < no_page) }
{
    if number == NO_PAGE {
        None
    } else {
        Some(number)
    }
}

impl PageHead {
    /// What any bytes of a page say. Of a valid page it is how many entries it has, their bytes, and its next page.
    pub fn read(page: &[u8; PAGE_LEN]) -> PageHead
        ensures parts { page.now ≡ page_head result.count result.used result.next ++ drop PAGE_HEAD_LEN page.now }
        ensures count_fits { result.count < 2 ^ 16 }
        ensures used_fits { result.used < 2 ^ 16 }
        ensures next_fits { IfSome result.next (λ n. n < no_page) }
        ensures valid { (pages : ℕ) (next : Option ℕ) (entries : Entries) → pages ≤ no_page → IsPageOf pages next entries page.now
            → result ≡ record { count = length entries; used = used_by entries; next = next } }
    {
        PageHead {
            count: u16_at(page, 0),
            used: u16_at(page, 2),
            next: page_of(u32_at(page, 4)),
        }
    }

    // Whether a page of a store of so many pages may begin so.
    fn is_right(self, pages: u64) -> bool
        ensures { IsTrue result ↔ IsHead pages self.count self.used self.next }
    {
        let may_follow = match self.next {
            Some(next) => u64::from(next) < pages && LEAST_FULL <= self.used,
            None => true,
        };
        1 <= self.count && self.used <= MOST_USED && may_follow
    }
}

// Whether these are zeros.
fn is_blank(bytes: &[u8]) -> bool
    ensures { IsTrue result ↔ (bytes.now ≡ replicate (length bytes.now) 0) }
{
    bytes.iter().all(|byte| *byte == 0)
}

/// Whether these bytes are a valid page of a store of so many pages.
pub fn is_page(page: &[u8; PAGE_LEN], pages: u64) -> bool
    requires { pages ≤ no_page }
    ensures { IsTrue result ↔ IsPage pages page.now }
{
    let head = PageHead::read(page);
    if !head.is_right(pages) {
        return false;
    }
    let (entries, behind) = page[PAGE_HEAD_LEN..].split_at(head.used as usize);
    are_entries(entries, head.count) && is_blank(behind)
}
