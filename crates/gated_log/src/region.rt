// Where the regions of the lanes stand in the store's file.
ghost use Rattle.std.specs.Prelude.{◌≡◌, ◌≢◌, ◌≤◌, ◌<◌, ◌+◌, ◌^◌, ℕ, List, [], ◌∷◌, ◌++◌, length, Some, slice_get};
ghost use Rattle.disk_trait.specs.Disk.{part};
ghost use Rattle.disk_trait.specs.Region.{AreApart};
ghost use Rattle.gated_write.specs.Gated.{IsClosed};
ghost use Rattle.blsm_model.specs.declared.key.Key.{Key};
ghost use Rattle.blsm_model.specs.Sizes.{Sizes, IsGeometry};
ghost use Rattle.blsm_model.specs.Geometry.{file_length};
ghost use Rattle.record_delta.specs.declared.record.Rec.{Rec};
ghost use Rattle.blsm_model.specs.Lanes.{region_length, region_start};
ghost use Rattle.record_delta.specs.Entries.{Entries};
ghost use Rattle.gated_log.specs.Lane.{Lane, lane_region, no_lane, HasEntries, HasFront, IsDamaged};

use blsm_model::Geometry;

/// The bytes of a store's file before the first region.
pub const HEAD_LEN: u64 = 4_096;

// How many halves of the spring a region has.
const REGION_HALVES: u64 = 4;

// How many bytes a region has.
pub fn length_of(geometry: &Geometry) -> u64
    ensures length { result ≡ region_length geometry.now }
    ensures fits { IsGeometry geometry.now }
{
    REGION_HALVES * geometry.half()
}

/// Where a place of a lane's region, in bytes from the region's start, stands in the file. The lane is named by its region's
/// number, 0 to 2.
pub fn place_in_file(geometry: &Geometry, lane: u8, place: u64) -> u64
    requires lane { lane < 3 }
    requires place { place < region_length geometry.now }
    ensures place { result ≡ region_start geometry.now lane + place }
    ensures inside { region_start geometry.now lane + region_length geometry.now ≤ file_length geometry.now }
    ensures small { file_length geometry.now < 2 ^ 63 }
{
    HEAD_LEN + length_of(geometry) * u64::from(lane) + place
}

/// A lane is what its region's bytes say, so it has its entries still after any change elsewhere. Where the first gate of a
/// region is closed, its lane has no entries. The regions of two lanes are apart.
pub fn kept_lanes()
    ensures kept { (sizes : Sizes) (n : ℕ) (lane : Lane) (old new : List ℕ)
        → part new (region_start sizes n) (region_length sizes) ≡ part old (region_start sizes n) (region_length sizes)
        → HasEntries sizes n lane old → HasEntries sizes n lane new }
    ensures empty { (sizes : Sizes) (n : ℕ) (file : List ℕ) → IsGeometry sizes → region_start sizes n < length file
        → IsClosed (region_start sizes n) file → HasEntries sizes n no_lane file }
    ensures apart { (sizes : Sizes) (one other : ℕ) → one ≢ other → AreApart (lane_region sizes one) (lane_region sizes other) }
{}

/// A lane has one list of entries at most, which its fronts begin, and one that has its list isn't damaged.
pub fn one_list()
    ensures same { (sizes : Sizes) (n : ℕ) (one other : Lane) (file : List ℕ) → HasEntries sizes n one file
        → HasEntries sizes n other file → one ≡ other }
    ensures next { (sizes : Sizes) (n end : ℕ) (es rest : Entries) (e : Key × Rec) (file : List ℕ)
        → HasEntries sizes n (record { entries = es ++ rest; end = end }) file
        → HasFront sizes n (es ++ e ∷ []) file → slice_get rest 0 ≡ Some e }
    ensures not_damaged { (sizes : Sizes) (n : ℕ) (lane : Lane) (file : List ℕ) → HasEntries sizes n lane file
        → IsDamaged sizes n file → ⊥ }
{}
