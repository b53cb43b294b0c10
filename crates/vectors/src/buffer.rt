// Room of a fixed size for items that are added one after another.
ghost use Rattle.std.specs.Prelude.{◌≤◌, length};

// At most `N` items.
#[derive(Drop)]
pub(crate) struct Buffer<T, const N: usize> {
    room: [T; N],
    len: usize,
    ghost fits: { len ≤ N },
}

impl<T: Copy, const N: usize> Buffer<T, N> {
    // No items; the room is filled with `blank`.
    pub(crate) fn new(blank: T) -> Self {
        Buffer {
            room: [blank; N],
            len: 0,
        }
    }

    pub(crate) fn len(&self) -> usize {
        self.len
    }

    pub(crate) fn items(&self) -> &[T] {
        &self.room[..self.len]
    }

    pub(crate) fn items_mut(&mut self) -> &mut [T] {
        let count = self.len;
        let room = &mut self.room;
        let all = &mut room[..];
        &mut all[..count]
    }

    pub(crate) fn clear(&mut self) {
        self.len = 0;
    }

    // Adds an item; one that has no room is dropped.
    pub(crate) fn push(&mut self, item: T) {
        if self.len < N {
            self.room[self.len] = item;
            self.len += 1;
        }
    }

    // Takes away the item that was added last.
    pub(crate) fn pop(&mut self) -> Option<T> {
        if self.len == 0 {
            return None;
        }
        self.len -= 1;
        Some(self.room[self.len])
    }

    // Adds items; those that have no room are dropped.
    pub(crate) fn extend(&mut self, items: &[T]) {
        let start = self.len;
        let count = items.len().min(N - start);
        let room = &mut self.room[..];
        room[start..start + count].copy_from_slice(&items[..count]);
        self.len = start + count;
    }
}
