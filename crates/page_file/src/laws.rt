//! What holds of pages. The functions do nothing: each stands for the laws that its clauses name.
ghost use Rattle.std.specs.Prelude.{◌≡◌, ◌≢◌, ◌↔◌, ◌+◌, ◌≤◌, ◌∷◌, ◌++◌, ℕ, List, Option, None, length, drop, nat_eq, IsTrue};
ghost use Rattle.std.specs.FinMap.{is_sorted};
ghost use Rattle.std.specs.List.{IsDistinct};
ghost use Rattle.disk_trait.specs.Region.{span, outside, AreApart, IsSameOutside};
ghost use Rattle.blsm_model.specs.Format.{page_length};
ghost use Rattle.blsm_model.specs.declared.component.Component.{Component};
ghost use Rattle.blsm_model.specs.Keys.{key_cmp};
ghost use Rattle.blsm_model.specs.Sizes.{Sizes, IsGeometry};
ghost use Rattle.blsm_model.specs.Geometry.{page_count};
ghost use Rattle.page_file.specs.Entry.{entry_bytes, AreRising};
ghost use Rattle.blsm_model.specs.Components.{no_page};
ghost use Rattle.page_file.specs.Page.{page_head_length, page_number, used_by, page_bytes, IsContent, IsPageOf, IsPage};
ghost use Rattle.page_file.specs.File.{page_start, page_region, pages_region, AreSamePages};
ghost use Rattle.blsm_model.specs.declared.key.Key.{Key};
ghost use Rattle.record_delta.specs.declared.record.Rec.{Rec};
ghost use Rattle.record_delta.specs.Entries.{entries_weight, Entries};
ghost use Rattle.page_file.specs.Component.{RunPage, numbers_of, entries_of, first_number, AreChained, ReadsAs, ReadsOn, HasList};

/// Bytes are one page at most: they have one list of entries and one next page. Each content that a page may have is that of
/// a valid page.
pub fn one_page()
    ensures same { (pages : ℕ) (m n : Option ℕ) (es fs : Entries) (page : List ℕ) → pages ≤ no_page
        → IsPageOf pages m es page → IsPageOf pages n fs page → (m ≡ n) × (es ≡ fs) }
    ensures made { (pages : ℕ) (next : Option ℕ) (entries : Entries) → IsContent pages next entries
        → IsPage pages (page_bytes next entries) × (length (page_bytes next entries) ≡ page_length) }
    ensures few { (sizes : Sizes) → IsGeometry sizes → page_count sizes ≤ no_page }
{}

/// Each entry stands behind the head and the bytes of the entries before it.
pub fn where_entries_stand()
    ensures { (pages : ℕ) (next : Option ℕ) (before after : Entries) (entry : Key × Rec) (page : List ℕ)
        → IsPageOf pages next (before ++ entry ∷ after) page
        → (rest : List ℕ) × (drop (page_head_length + used_by before) page ≡ entry_bytes entry ++ rest) }
{}

/// Pages are apart from each other, and from all that ends before the first one: the superblock, the catalogue and the log.
pub fn pages_are_apart()
    ensures others { (sizes : Sizes) (m n : ℕ) → m ≢ n → AreApart (page_region sizes m) (page_region sizes n) }
    ensures before { (sizes : Sizes) (n at len : ℕ) → at + len ≤ page_start sizes 0 → AreApart (page_region sizes n) (span at len) }
{}

/// What is read of pages stays where these read the same; and so they do where no byte has changed but outside of them, as where
/// nothing has changed outside a region that is apart from them: one before the first page, such as an entry's of the log.
pub fn what_stays()
    ensures apart { (sizes : Sizes) (numbers : List ℕ) (old new : List ℕ) → IsSameOutside (outside (pages_region sizes numbers)) old new
        → AreSamePages sizes numbers old new }
    ensures before { (sizes : Sizes) (numbers : List ℕ) (at len : ℕ) (old new : List ℕ) → at + len ≤ page_start sizes 0 → IsSameOutside (span at len) old new
        → AreSamePages sizes numbers old new }
    ensures chain { (sizes : Sizes) (pages : List RunPage) (end : Option ℕ) (old new : List ℕ) → AreSamePages sizes (numbers_of pages) old new
        → AreChained sizes pages end old → AreChained sizes pages end new }
    ensures run { (sizes : Sizes) (run : Component) (pages : List RunPage) (next : Option ℕ) (old new : List ℕ) → AreSamePages sizes (numbers_of pages) old new
        → ReadsOn sizes run pages next old → ReadsOn sizes run pages next new }
    ensures component { (sizes : Sizes) (component : Component) (pages : List RunPage) (old new : List ℕ) → AreSamePages sizes (numbers_of pages) old new
        → ReadsAs sizes component pages old → ReadsAs sizes component pages new }
    ensures list { (sizes : Sizes) (component : Component) (es : Entries) (old new : List ℕ) (list : HasList sizes component es old)
        → AreSamePages sizes (numbers_of list.pages) old new → (now : HasList sizes component es new) × (now.pages ≡ list.pages) }
{}

/// A component reads as the entries of one list of pages at most, and as one list. Where pages are chained and their keys rise, none is met
/// twice. The weight of a page's entries is the number of bytes that it says.
pub fn one_component()
    ensures same { (sizes : Sizes) (component : Component) (ps qs : List RunPage) (file : List ℕ) → page_count sizes ≤ no_page
        → ReadsAs sizes component ps file → ReadsAs sizes component qs file → ps ≡ qs }
    ensures list { (sizes : Sizes) (component : Component) (es fs : Entries) (file : List ℕ) → page_count sizes ≤ no_page
        → HasList sizes component es file → HasList sizes component fs file → es ≡ fs }
    ensures apart { (sizes : Sizes) (pages : List RunPage) (end : Option ℕ) (file : List ℕ) → page_count sizes ≤ no_page
        → AreChained sizes pages end file → AreRising (entries_of pages) → IsDistinct nat_eq (numbers_of pages) }
    ensures weight { (entries : Entries) → entries_weight entries ≡ used_by entries }
{}

/// A chain of pages whose last one's next page is the first of another chain goes on through that. From a page on there is one chain
/// to the end at most.
pub fn chains()
    ensures one { (sizes : Sizes) (ps qs : List RunPage) (file : List ℕ) → page_count sizes ≤ no_page → AreChained sizes ps None file → AreChained sizes qs None file
        → page_number (first_number ps None) ≡ page_number (first_number qs None) → ps ≡ qs }
    ensures join { (sizes : Sizes) (ps qs : List RunPage) (end : Option ℕ) (file : List ℕ)
        → AreChained sizes (ps ++ qs) end file ↔ (AreChained sizes ps (first_number qs end) file × AreChained sizes qs end file) }
    ensures entries { (ps qs : List RunPage) → entries_of (ps ++ qs) ≡ entries_of ps ++ entries_of qs }
    ensures weights { (es fs : Entries) → entries_weight (es ++ fs) ≡ entries_weight es + entries_weight fs }
{}

/// Entries rise on pages exactly where the list of keys with records is sorted.
pub fn one_order()
    ensures { (es : Entries) → AreRising es ↔ IsTrue (is_sorted key_cmp es) }
{}
