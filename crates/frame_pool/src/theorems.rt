//! Laws of the pool's values, each as the contract of a function that does nothing.

ghost use Rattle.std.specs.Prelude.{◌≡◌, ◌≢◌, ◌+◌, ◌≤◌, ℕ, List, [], ◌∷◌, ◌++◌, Option, Some, None, length, slice_get, slice_index, slice_set};
ghost use Rattle.frame_pool.specs.Held.{AreHeld};
ghost use Rattle.frame_pool.specs.Pool.{IsTaken, free_count, fresh, taken_count};

/// The free frames and the taken ones are all frames.
pub fn free_and_taken_add_up()
    ensures { (pool : List (Option (List ℕ))) → free_count pool + taken_count pool ≡ length pool }
{}

/// What is done to one frame leaves every other frame as it was.
pub fn frame_is_written_alone()
    ensures { (pool : List (Option (List ℕ))) (n other : ℕ) (frame : Option (List ℕ)) → other ≢ n
        → slice_get (slice_set pool n frame) other ≡ slice_get pool other }
{}

/// Where a free frame is taken, one frame less is free.
pub fn taking_uses_one()
    ensures { (pool : List (Option (List ℕ))) (n : ℕ) (bytes : List ℕ) → slice_get pool n ≡ Some None
        → free_count (slice_set pool n (Some bytes)) + 1 ≡ free_count pool }
{}

/// Where a taken frame is given back, one frame more is free.
pub fn giving_frees_one()
    ensures { (pool : List (Option (List ℕ))) (n : ℕ) → IsTaken pool n
        → free_count (slice_set pool n None) ≡ free_count pool + 1 }
{}

/// Where bytes are written to a taken frame, as many frames are free.
pub fn writing_frees_none()
    ensures { (pool : List (Option (List ℕ))) (n : ℕ) (bytes : List ℕ) → IsTaken pool n
        → free_count (slice_set pool n (Some bytes)) ≡ free_count pool }
{}

/// A frame that was free is none of those that were taken.
pub fn free_frame_is_not_held()
    ensures { (pool : List (Option (List ℕ))) (n other : ℕ) → slice_get pool n ≡ Some None
        → IsTaken pool other → other ≢ n }
{}

/// A taken frame stays taken whatever bytes any frame gets, and where another frame is given back.
pub fn taken_frame_stays_taken()
    ensures written { (pool : List (Option (List ℕ))) (n other : ℕ) (bytes : List ℕ) → IsTaken pool other
        → IsTaken (slice_set pool n (Some bytes)) other }
    ensures given { (pool : List (Option (List ℕ))) (n other : ℕ) → IsTaken pool other → other ≢ n
        → IsTaken (slice_set pool n None) other }
{}

/// A holder's frames stay its own: where it takes one more, where bytes are written to any, and where the
/// last one of them, or one from among them, is given back.
pub fn held_frames_stay_held()
    ensures more { (pool : List (Option (List ℕ))) (frames : List ℕ) (n : ℕ) (bytes : List ℕ)
        → AreHeld pool frames
        → slice_get pool n ≡ Some None → AreHeld (slice_set pool n (Some bytes)) (frames ++ n ∷ []) }
    ensures written { (pool : List (Option (List ℕ))) (frames : List ℕ) (n : ℕ) (bytes : List ℕ)
        → AreHeld pool frames
        → AreHeld (slice_set pool n (Some bytes)) frames }
    ensures fewer { (pool : List (Option (List ℕ))) (rest : List ℕ) (n : ℕ) → AreHeld pool (rest ++ n ∷ [])
        → AreHeld (slice_set pool n None) rest }
    ensures without { (pool : List (Option (List ℕ))) (before after : List ℕ) (n : ℕ)
        → AreHeld pool (before ++ n ∷ after)
        → AreHeld (slice_set pool n None) (before ++ after) }
{}

/// A holder has no frame twice.
pub fn held_frames_are_apart()
    ensures { (pool : List (Option (List ℕ))) (frames : List ℕ) (i j n : ℕ) → AreHeld pool frames
        → slice_get frames i ≡ Some n → slice_get frames j ≡ Some n → i ≡ j }
{}

/// The frames of a holder are taken, and with those that are free they are no more than all frames.
pub fn held_frames_are_taken()
    ensures each { (pool : List (Option (List ℕ))) (frames : List ℕ) (k n : ℕ) → AreHeld pool frames
        → slice_get frames k ≡ Some n → IsTaken pool n }
    ensures counted { (pool : List (Option (List ℕ))) (frames : List ℕ) → AreHeld pool frames
        → free_count pool + length frames ≤ length pool }
{}

/// A frame that was just taken has 4,096 bytes, each of them zero.
pub fn fresh_frame_is_zero()
    ensures size { length fresh ≡ 4096 }
    ensures zero { (k : ℕ) → slice_index fresh k ≡ 0 }
{}
