//! What the definitions say whatever image and table are. These functions have nothing to do when they run: each
//! one's contract is a law.

ghost use Rattle.std.specs.Prelude.{◌≡◌, ◌<◌, ◌≤◌, ◌^◌, ℕ, Bool, List, None, length, true};
ghost use Rattle.std.specs.List.{All};
ghost use Rattle.armcaps_image.specs.Bytes.{AreBytes};
ghost use Rattle.armcaps_alt.specs.declared.table_place.Layout.{Layout};
ghost use Rattle.armcaps_alt.specs.Accepted.{IsAccepted};
ghost use Rattle.armcaps_alt.specs.Entries.{Features, entry_at, is_selected};
ghost use Rattle.armcaps_alt.specs.Laws.{ReplacesSites};
ghost use Rattle.armcaps_alt.specs.Names.{IsKnown, NameLists};
ghost use Rattle.armcaps_alt.specs.Patched.{patched_image};
ghost use Rattle.armcaps_alt.specs.Refusals.{first_refusal};

/// Where no entry is refused, each selected one is accepted, and of an image of at most 2^29 bytes the patched image
/// keeps its length; a byte that no selected site covers is as it was; and each word of a site comes from the last
/// selected entry that covers it: it is the callback's, or the replacement's word where that takes no address or jumps
/// within its sequence, and else it has the replacement's class, other bits and target.
pub fn the_last_entry_replaces()
    ensures accepted { (features : Features) (image : List ℕ) (layout : Layout) (number : ℕ)
        → first_refusal features image layout ≡ None → number < layout.count
        → is_selected features (entry_at image layout number) ≡ true
        → IsAccepted features.names image (entry_at image layout number) }
    ensures replaced { (features : Features) (image : List ℕ) (layout : Layout) → AreBytes image
        → length image ≤ 2 ^ 29 → first_refusal features image layout ≡ None
        → ReplacesSites features image layout (patched_image features image layout) }
{}

/// Of what is enabled only the 53 capabilities count that a table's numbers can name: two machines that agree on these
/// refuse the same entry, and patch an image alike.
pub fn known_capabilities_decide()
    ensures refused { (names : NameLists) (one other : ℕ → Bool) (ctr : ℕ) (image : List ℕ) (layout : Layout)
        → All (λ e. IsKnown e.1) names.numbers → ((number : ℕ) → number < 53 → one number ≡ other number)
        → first_refusal (record { names = names; enabled = one; ctr = ctr }) image layout
        ≡ first_refusal (record { names = names; enabled = other; ctr = ctr }) image layout }
    ensures patched { (names : NameLists) (one other : ℕ → Bool) (ctr : ℕ) (image : List ℕ) (layout : Layout)
        → All (λ e. IsKnown e.1) names.numbers → ((number : ℕ) → number < 53 → one number ≡ other number)
        → patched_image (record { names = names; enabled = one; ctr = ctr }) image layout
        ≡ patched_image (record { names = names; enabled = other; ctr = ctr }) image layout }
{}
