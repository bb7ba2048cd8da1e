//! The catalogue, and its text.
ghost use Rattle.std.specs.Prelude.{◌≡◌, ◌↔◌, ◌+◌, ◌≤◌, ◌++◌, ◌∷◌, [], Some, length, take, drop, IsTrue, IsNone, IfSome, IfNone, Option};
ghost use Rattle.disk_trait.specs.Disk.{part};
ghost use Rattle.blsm_model.specs.Geometry.{page_count};
ghost use Rattle.blsm_model.specs.Lanes.{AreRoles};
ghost use Rattle.catalog_swap.specs.declared.catalog.Catalog.{Catalog};
ghost use Rattle.catalog_swap.specs.declared.catalog.Progress.{Progress};
ghost use Rattle.catalog_swap.specs.Text.{AreNumbers, FitsBody, FitsProgress, HasKey, IsComponent, IsInRange, IsProgressOf, IsCatalog};
ghost use Rattle.catalog_swap.specs.Text.{component_text, numbers_text, numbers_length, progress_text, flagged_text, body_text, BeginsWith};

use big_endian::{u16_at, u32_at, u64_at};
use blsm_model::{Component, Geometry, Key};

/// How many bytes the body of a slot has at most, behind its gate.
pub const BODY_LEN: usize = KEY_AT + Key::MAX_LEN;

// Where the flag of a body stands, behind its numbers, and what a body with progress has behind that.
const FLAG_AT: usize = 83;

const OUTPUT_AT: usize = FLAG_AT + 1;

const NEXT_AT: usize = OUTPUT_AT + COMPONENT_LEN;

const Z_AT: usize = NEXT_AT + 4;

const KEY_LEN_AT: usize = Z_AT + 8;

const KEY_AT: usize = KEY_LEN_AT + 2;

// The flag of a body that says no more than its numbers, and of one with progress.
const NO_FLAG: u8 = 0;

const PROGRESS_FLAG: u8 = 1;

// How many bytes a component's numbers have.
const COMPONENT_LEN: usize = 24;

// What stands for no first page.
const NO_PAGE: u32 = u32::MAX;

// The lightest entry, in bytes.
const LEAST_WEIGHT: u64 = 14;

const LANES: usize = 3;

/// What the finished pages of a deep merge's run hold.
#[derive(PartialEq, Eq, Debug, Drop)]
pub struct Progress {
    /// The finished pages, as a run of their own that goes on.
    pub output: Component,
    /// The page that the last of them names.
    pub next: u32,
    /// How much C1' and C2 weigh up to the key, in bytes, also of what settled to nothing.
    pub z: u64,
    /// The key up to which all of C1' and C2 is on these pages.
    pub key: Key,
}

/// What the tree is made of.
#[derive(PartialEq, Eq, Debug, Drop)]
pub struct Catalog {
    /// At least 1, and one more at each commit.
    pub version: u64,
    /// The numbers of the regions of the log that are lane A, lane B and the spare lane.
    pub lanes: [u8; LANES],
    /// C1, which the passes write.
    pub c1: Component,
    /// C1', which a deep merge takes.
    pub c1x: Component,
    /// C2, which the deep merges write.
    pub c2: Component,
    /// How far the deep merge has come, if that is named.
    pub progress: Option<Progress>,
}

// The text of a component.
#[tactic(auto, unfolding(crate::specs::Text::component_text))]
fn component_text(component: &Component) -> [u8; COMPONENT_LEN]
    ensures { result ≡ component_text component.now }
{
    let [f3, f2, f1, f0] = component.first.to_be_bytes();
    let [p3, p2, p1, p0] = component.pages.to_be_bytes();
    let [e7, e6, e5, e4, e3, e2, e1, e0] = component.entries.to_be_bytes();
    let [w7, w6, w5, w4, w3, w2, w1, w0] = component.weight.to_be_bytes();
    [
        f3, f2, f1, f0, p3, p2, p1, p0, e7, e6, e5, e4, e3, e2, e1, e0, w7, w6, w5, w4, w3, w2, w1,
        w0,
    ]
}

// Writes bytes at a place of a body.
fn put(body: &mut [u8; BODY_LEN], at: usize, bytes: &[u8])
    requires { at + length bytes.now ≤ BODY_LEN }
    ensures { take (at + length bytes.now) body.new ≡ take at body.old ++ bytes.now }
{
    body[at..at + bytes.len()].copy_from_slice(bytes);
}

// Writes a deep merge's progress behind the flag of a body, and gives the body's length in bytes.
fn put_progress(body: &mut [u8; BODY_LEN], progress: &Progress) -> usize
    ensures text { take result body.new ≡ take OUTPUT_AT body.old ++ progress_text progress.now }
    ensures inside { result ≤ BODY_LEN }
    ensures key { HasKey (Some progress.now) }
{
    let key = progress.key.as_bytes();
    put(body, OUTPUT_AT, &component_text(&progress.output));
    put(body, NEXT_AT, &progress.next.to_be_bytes());
    put(body, Z_AT, &progress.z.to_be_bytes());
    put(body, KEY_LEN_AT, &(key.len() as u16).to_be_bytes());
    put(body, KEY_AT, key);
    KEY_AT + key.len()
}

// Writes what a catalogue says without its progress.
fn put_numbers(body: &mut [u8; BODY_LEN], catalog: &Catalog)
    ensures { take FLAG_AT body.new ≡ numbers_text catalog.now }
{
    put(body, 0, &catalog.version.to_be_bytes());
    put(body, 8, &catalog.lanes);
    put(body, 11, &component_text(&catalog.c1));
    put(body, 35, &component_text(&catalog.c1x));
    put(body, 59, &component_text(&catalog.c2));
}

// Writes the body of the slot of a catalogue over the front of these bytes, and gives its length in bytes.
pub fn put_body(body: &mut [u8; BODY_LEN], catalog: &Catalog) -> usize
    ensures text { take result body.new ≡ body_text catalog.now }
    ensures inside { result ≤ BODY_LEN }
    ensures key { HasKey catalog.now.progress }
{
    put_numbers(body, catalog);
    match &catalog.progress {
        None => {
            put(body, FLAG_AT, &[NO_FLAG]);
            OUTPUT_AT
        }
        Some(progress) => {
            put(body, FLAG_AT, &[PROGRESS_FLAG]);
            put_progress(body, progress)
        }
    }
}

// The component whose text stands at a place.
fn component_at(bytes: &[u8], at: usize) -> Component
    requires { at + 24 ≤ length bytes.now }
    ensures text { part bytes.now at 24 ≡ component_text result }
    ensures fits { AreNumbers result }
{
    Component {
        first: u32_at(bytes, at),
        pages: u32_at(bytes, at + 4),
        entries: u64_at(bytes, at + 8),
        weight: u64_at(bytes, at + 16),
    }
}

fn lanes_at(bytes: &[u8], at: usize) -> [u8; LANES]
    requires { at + 3 ≤ length bytes.now }
    ensures { part bytes.now at 3 ≡ result }
{
    let mut lanes = [0; LANES];
    lanes.copy_from_slice(&bytes[at..at + LANES]);
    lanes
}

// The progress behind the flag of a body; `None` where its key is too short or too long.
fn progress_in(body: &[u8]) -> Option<Progress>
    requires { length body.now ≡ BODY_LEN }
    ensures found { IfSome result (λ found. FitsProgress found × (take (length (progress_text found)) (drop OUTPUT_AT body.now) ≡ progress_text found)) }
    ensures none { IfNone result ((other : Progress) → FitsProgress other
        → take (length (progress_text other)) (drop OUTPUT_AT body.now) ≡ progress_text other → ⊥) }
{
    let key_len = usize::from(u16_at(body, KEY_LEN_AT));
    if key_len > Key::MAX_LEN {
        return None;
    }
    let key = Key::from_bytes(&body[KEY_AT..KEY_AT + key_len])?;
    Some(Progress {
        output: component_at(body, OUTPUT_AT),
        next: u32_at(body, NEXT_AT),
        z: u64_at(body, Z_AT),
        key,
    })
}

// The catalogue that the numbers of a body say, with this progress.
fn catalog_with(body: &[u8], progress: Option<Progress>) -> Catalog
    requires long { length body.now ≡ BODY_LEN }
    requires fits { IfSome progress FitsProgress }
    ensures text { take numbers_length body.now ≡ numbers_text result }
    ensures progress { result.progress ≡ progress }
    ensures fits { FitsBody result }
{
    Catalog {
        version: u64_at(body, 0),
        lanes: lanes_at(body, 8),
        c1: component_at(body, 11),
        c1x: component_at(body, 35),
        c2: component_at(body, 59),
        progress,
    }
}

// The catalogue that a body says, valid or not; `None` where the bytes begin with the body of none.
pub fn catalog_in(body: &[u8]) -> Option<Catalog>
    requires { length body.now ≡ BODY_LEN }
    ensures found { IfSome result (λ found. FitsBody found × BeginsWith body.now found) }
    ensures none { IfNone result ((other : Catalog) → FitsBody other → BeginsWith body.now other → ⊥) }
{
    match body[FLAG_AT] {
        NO_FLAG => Some(catalog_with(body, None)),
        PROGRESS_FLAG => Some(catalog_with(body, Some(progress_in(body)?))),
        _ => None,
    }
}

// Whether a component has a first page and pages, in a store of so many pages, and at least one entry.
fn is_in_range(component: &Component, pages: u64) -> bool
    ensures { IsTrue result ↔ IsInRange pages component.now }
{
    u64::from(component.first) < pages
        && 1 <= component.pages
        && u64::from(component.pages) <= pages
        && 1 <= component.entries
        && LEAST_WEIGHT <= component.weight
}

// Whether a catalogue of a store of so many pages may have this component.
fn is_component(component: &Component, pages: u64) -> bool
    ensures { IsTrue result ↔ IsComponent pages component.now }
{
    let is_empty = component.first == NO_PAGE
        && component.pages == 0
        && component.entries == 0
        && component.weight == 0;
    is_empty || is_in_range(component, pages)
}

// Whether a catalogue of a store of so many pages, which has this C1', may name this progress of a deep merge, if any.
fn is_progress(progress: &Option<Progress>, c1x: &Component, pages: u64) -> bool
    ensures { IsTrue result ↔ IfSome progress.now (IsProgressOf pages c1x.now) }
{
    match progress {
        None => true,
        Some(progress) => {
            is_in_range(c1x, pages)
                && is_in_range(&progress.output, pages)
                && u64::from(progress.next) < pages
        }
    }
}

// Whether these are the three lanes, in some order.
fn are_lanes(lanes: [u8; LANES]) -> bool
    ensures { IsTrue result ↔ AreRoles lanes }
{
    let [a, b, spare] = lanes;
    a < 3 && b < 3 && spare < 3 && a != b && a != spare && b != spare
}

// Whether a slot may say this catalogue.
pub fn is_catalog(catalog: &Catalog, geo: &Geometry) -> bool
    requires { FitsBody catalog.now }
    ensures { IsTrue result ↔ IsCatalog geo.now catalog.now }
{
    let pages = geo.pages();
    1 <= catalog.version
        && are_lanes(catalog.lanes)
        && is_component(&catalog.c1, pages)
        && is_component(&catalog.c1x, pages)
        && is_component(&catalog.c2, pages)
        && is_progress(&catalog.progress, &catalog.c1x, pages)
}
