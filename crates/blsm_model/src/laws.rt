//! What the definitions of this crate keep. The functions do nothing: each stands for the laws that its clauses name.
ghost use Rattle.std.specs.Prelude.{◌≡◌, ◌||◌, ◌∷◌, ◌++◌, ℕ, List, Some, None, IsTrue, filter, if◌then◌else◌};
ghost use Rattle.std.specs.List.{list_all};
ghost use Rattle.std.specs.FinMap.{find, is_sorted};
ghost use Rattle.blsm_model.specs.declared.key.Key.{Key};
ghost use Rattle.blsm_model.specs.declared.row.Value.{Value};
ghost use Rattle.blsm_model.specs.declared.op.Write.{Write};
ghost use Rattle.blsm_model.specs.declared.history.Why.{Why};
ghost use Rattle.blsm_model.specs.declared.history.Reply.TheVariants.{Stopped};
ghost use Rattle.blsm_model.specs.declared.history.Entry.{Entry};
ghost use Rattle.blsm_model.specs.Keys.{key_cmp, in_range};
ghost use Rattle.blsm_model.specs.Values.{value_at};
ghost use Rattle.blsm_model.specs.Rows.{map_of, rows};
ghost use Rattle.blsm_model.specs.Histories.{written, map_after, object_after, hold_by, leaves_rows};
ghost use Rattle.blsm_model.specs.Legal.{Limits, IsLegal, is_stopping, is_stopped, FollowsStop};

/// The map of a list of writes has the value of each key, in key order, and no other list of pairs has. In a range of keys
/// it has those values and no others.
pub fn one_map()
    ensures values { (writes : List Write) (key : Key) → find key_cmp key (map_of writes) ≡ value_at writes key }
    ensures order { (writes : List Write) → IsTrue (is_sorted key_cmp (map_of writes)) }
    ensures only { (writes others : List Write) → ((key : Key) → value_at writes key ≡ value_at others key) → map_of writes ≡ map_of others }
    ensures range { (writes : List Write) (low high key : Key)
        → find key_cmp key (filter (λ p. in_range low high p.0) (map_of writes)) ≡ (if in_range low high key then value_at writes key else None) }
{}

/// The sequential map has the map after the history, and what a caller holds is a snapshot: until the caller's next hold,
/// next or drop it has the rows of what was written before the hold.
pub fn sequential_map()
    ensures map { (opening : List (Key × Value)) (history : List Entry) (key : Key)
        → value_at (object_after opening history).writes key ≡ find key_cmp key (map_after opening history) }
    ensures snapshot { (opening : List (Key × Value)) (history later : List Entry) (seat : ℕ) (low high : Key) → IsTrue (list_all (leaves_rows seat) later)
        → (object_after opening (history ++ hold_by seat low high ∷ later)).held seat ≡ Some (rows (written opening history) low high) }
{}

/// A front of a legal history is legal. After an entry that shows a stop each entry is `Stopped`, but for a work that stops
/// the store itself; at most one entry stops the store, and all that are `Stopped` name one why.
pub fn legal_histories()
    ensures front { (limits : Limits) (opening : List (Key × Value)) (front more : List Entry) → IsLegal limits opening (front ++ more) → IsLegal limits opening front }
    ensures stopped { (limits : Limits) (opening : List (Key × Value)) (before : List Entry) (e : Entry) (between : List Entry) (f : Entry) (more : List Entry)
        → IsLegal limits opening ((before ++ e ∷ between) ++ f ∷ more) → IsTrue (is_stopping e.op e.reply || is_stopped e.reply) → FollowsStop f.op f.reply }
    ensures once { (limits : Limits) (opening : List (Key × Value)) (before : List Entry) (e : Entry) (between : List Entry) (f : Entry) (more : List Entry)
        → IsLegal limits opening ((before ++ e ∷ between) ++ f ∷ more) → IsTrue (is_stopping e.op e.reply) → IsTrue (is_stopping f.op f.reply) → ⊥ }
    ensures one_why { (limits : Limits) (opening : List (Key × Value)) (before : List Entry) (e : Entry) (between : List Entry) (f : Entry) (more : List Entry) (first second : Why)
        → IsLegal limits opening ((before ++ e ∷ between) ++ f ∷ more) → e.reply ≡ Stopped first → f.reply ≡ Stopped second → first ≡ second }
{}
