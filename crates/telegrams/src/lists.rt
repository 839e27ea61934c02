// A list: for each item two octets of length, then so many octets. A list that is cut short ends
// where its octets do, and an item that is missing is empty.
ghost use Rattle.std.specs.Prelude.{length};
ghost use Rattle.std.specs.Iterator.{at_most};

// What is left of a list. It gives its items one after the other.
#[derive(Clone, Copy)]
pub(crate) struct Items<'a> {
    left: &'a [u8],
}

impl<'a> Items<'a> {
    pub(crate) fn of(list: &'a [u8]) -> Self {
        Items { left: list }
    }

    pub(crate) fn item(&mut self) -> &'a [u8] {
        self.next().unwrap_or_default()
    }
}

impl<'a> Iterator for Items<'a> {
    type Item = &'a [u8];

    ghost remaining = { λ items. at_most (length items.left.now) };

    fn next(&mut self) -> Option<&'a [u8]> {
        if self.left.is_empty() {
            return None;
        }
        let size = usize::from(octets::word_at(self.left, 0));
        let behind = self.left.get(2..).unwrap_or_default();
        let (item, left) = behind.split_at(size.min(behind.len()));
        self.left = left;
        Some(item)
    }
}

// The first octets, or all where there are fewer: what stands in a room that was lent, for there is no heap.
pub(crate) fn front(octets: &[u8], size: usize) -> &[u8] {
    &octets[..size.min(octets.len())]
}
