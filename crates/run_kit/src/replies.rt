ghost use Rattle.std.specs.Prelude.{◌≡◌, ℕ, List, map, slice_get, IfOk, option_map};
ghost use Rattle.std.specs.Option.{option_copied};
ghost use Rattle.run_kit.specs.Replies.{first_left, without_first};

use host_kit::Reply;
use sqlite_items::Items;
use std::alloc::{AllocError, Global};

/// The replies to each imported function, of which none is taken yet. It fails for want of memory alone.
pub fn replies_left<'a>(
    alloc: Global,
    replies: &'a [Items<Reply>],
) -> Result<Vec<&'a [Reply]>, AllocError>
    ensures { IfOk result (λ left. map (λ r. r.now) left.items ≡ replies.now) }
{
    let mut left = Vec::new(alloc);
    for list in replies {
        left.push(list.as_slice())?;
    }
    Ok(left)
}

/// Takes the first reply that is left to the imported function at a place.
pub fn take_reply<'s>(left: &mut [&'s [Reply]], place: usize) -> Option<&'s Reply>
    ensures reply { option_copied result ≡ first_left (slice_get (map (λ r. r.now) left.old) place) }
    ensures rest { map (λ r. r.now) left.new ≡ without_first place (map (λ r. r.now) left.old) }
{
    let (first, rest) = left_at(left, place)?.split_first()?;
    left[place] = rest;
    Some(first)
}

/// The replies that are left at a place.
fn left_at<'s>(left: &[&'s [Reply]], place: usize) -> Option<&'s [Reply]>
    ensures { option_map (λ r. r.now) result ≡ slice_get (map (λ r. r.now) left.now) place }
{
    left.get(place).copied()
}
