//! Pages of items.
ghost use Rattle.std.specs.Prelude.{◌≡◌, ◌+◌, ◌≤◌, ◌⊎◌, length, take, drop};
ghost use Rattle.ss_scopes.specs.Pages.{page_size};

/// A page of items, which are numbered from 0 on.
#[derive(Clone, Copy)]
pub struct Page {
    /// The number of its first item. The page is empty if there is no such item.
    pub start: usize,
    /// The most items on it; 0 means all from the first one on.
    pub count: usize,
}

/// The `count` numbers from `start` on; there are at least as many.
fn numbers_behind(numbers: &[u32], start: usize, count: usize) -> &[u32]
    requires { count + start ≤ length numbers.now }
    ensures part { result.now ≡ take count (drop start numbers.now) }
    ensures count { length result.now ≡ count }
{
    let rest = &numbers[start..];
    &rest[..count]
}

impl Page {
    /// How many of `items` items are on it.
    pub(crate) fn size(self, items: usize) -> usize
        ensures size { result ≡ page_size self.start self.count items }
        ensures within { result + self.start ≤ items ⊎ (result ≡ 0) }
    {
        let rest = items.saturating_sub(self.start);
        if self.count == 0 {
            rest
        } else {
            self.count.min(rest)
        }
    }

    /// The numbers on it.
    pub(crate) fn numbers_on(self, numbers: &[u32]) -> &[u32]
        ensures part { result.now
            ≡ take (page_size self.start self.count (length numbers.now))
            (drop self.start numbers.now) }
        ensures within { length result.now + self.start ≤ length numbers.now
            ⊎ (length result.now ≡ 0) }
    {
        let size = self.size(numbers.len());
        if size == 0 {
            return &[];
        }
        numbers_behind(numbers, self.start, size)
    }
}
