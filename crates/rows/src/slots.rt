// The places of a list, written by number.
ghost use Rattle.std.specs.Prelude.{◌<◌, ◌≤◌, ◌≡◌, length, MatchResult, slice_set};

// There is no place of that number.
#[derive(Clone, Copy, PartialEq, Eq, Debug)]
pub struct NoPlace;

// Another element at place i of a list. Refused where there is no such place, and then nothing changes.
pub(crate) fn put_at<T: Copy>(list: &mut [T], i: u16, x: T) -> Result<(), NoPlace>
    ensures answer { MatchResult result (λ _. i < length list.old) (λ _. length list.old ≤ i) }
    ensures list { list.new ≡ slice_set list.old i x }
{
    let at = i as usize;
    // A slice's `get_mut` says nothing of what the slice ends as, so the place is tested and written by its index.
    if at < list.len() {
        list[at] = x;
        Ok(())
    } else {
        Err(NoPlace)
    }
}
