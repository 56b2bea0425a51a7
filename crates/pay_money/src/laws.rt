//! What is true of parts and shares themselves. Each law is the contract of a function that does nothing:
//! a caller whose proof needs a law calls its function.
ghost use Rattle.std.specs.Prelude.{◌≡◌, ℕ, ◌+◌, ◌*◌, ◌≤◌, ◌<◌, List, sum, slice_index};
ghost use Rattle.pay_money.specs.Shares.{part, parts, share, shares};

/// The parts of a total are the total together, and so are its shares by any weights that are no less.
pub fn nothing_is_lost()
    ensures parts { (total count : ℕ) → 1 ≤ count → sum (parts total count) ≡ total }
    ensures shares { (total : ℕ) (weights : List ℕ) → total ≤ sum weights → sum (shares total weights) ≡ total }
{}

/// The part at an index stands there in the list of all, and so does a share.
pub fn each_in_its_place()
    ensures parts { (total count index : ℕ) → index < count → slice_index (parts total count) index ≡ part total count index }
    ensures shares { (total : ℕ) (weights : List ℕ) (index : ℕ) → slice_index (shares total weights) index ≡ share total weights index }
{}

/// Where there is no weight, there is no share.
pub fn nothing_for_nothing()
    ensures { (total : ℕ) (weights : List ℕ) (index : ℕ) → slice_index weights index ≡ 0 → share total weights index ≡ 0 }
{}

/// Each share is less than a penny away from its exact proportion of the total, up or down, and so is each
/// part. The exact proportion is no whole number: here each side is multiplied by what it is divided by.
pub fn within_a_penny()
    ensures part_up { (total count index : ℕ) → 1 ≤ count → part total count index * count < total + count }
    ensures part_down { (total count index : ℕ) → 1 ≤ count → total < part total count index * count + count }
    ensures share_up { (total : ℕ) (weights : List ℕ) (index : ℕ) → 1 ≤ sum weights →
        share total weights index * sum weights < total * slice_index weights index + sum weights }
    ensures share_down { (total : ℕ) (weights : List ℕ) (index : ℕ) → 1 ≤ sum weights →
        total * slice_index weights index < share total weights index * sum weights + sum weights }
{}
