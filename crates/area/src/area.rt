//! Lent memory with a filled count.

ghost use Rattle.std.specs.Prelude.{◌≡◌, ◌≤◌, true, false, not, [], length, replicate, is_ok, OkIff, if◌then◌else◌, nat_le};
ghost use Rattle.area.specs.Areas.{filled as filled_part, counted, room as room_of, appended, advanced, blank_from, blanked, emptied};

use element::blank::Blank;
use element::slices::fill_all;

/// Lent memory, of which the first `count` elements are filled. It is `there`, or tells that it is
/// missing.
// Kept: memory is lent with its count, for nothing here allocates; in an `Option` each call would unwrap it.
#[derive(Drop)]
pub struct Area<'b, T> {
    pub slice: &'b mut [T],
    pub count: usize,
    pub there: bool,
}

/// Fewer elements are free than were to be appended.
#[derive(Clone, Copy, Debug, PartialEq, Eq)]
pub struct NoRoom;

impl<'b, T> Area<'b, T> {
    /// An empty area over the lent memory.
    pub fn new(slice: &'b mut [T]) -> Area<'b, T>
        ensures memory { result.slice ≡ slice.entry }
        ensures empty { result.count ≡ 0 }
        ensures there { result.there ≡ true }
    {
        Area {
            slice,
            count: 0,
            there: true,
        }
    }

    /// An area that tells it is missing: it has no memory and no room.
    pub fn missing() -> Area<'b, T>
        ensures no_memory { result.slice.now ≡ [] }
        ensures empty { result.count ≡ 0 }
        ensures missing { result.there ≡ false }
    {
        Area {
            slice: &mut [],
            count: 0,
            there: false,
        }
    }

    /// Whether the area tells that it is missing.
    pub fn is_missing(&self) -> bool
        ensures { result ≡ not self.now.there }
    {
        !self.there
    }

    /// How many elements are filled.
    pub fn len(&self) -> usize
        ensures { result ≡ counted self.now }
    {
        self.count.min(self.slice.len())
    }

    /// How many more elements there is room for.
    pub fn room(&self) -> usize
        ensures { result ≡ room_of self.now }
    {
        self.slice.len().saturating_sub(self.count)
    }

    /// The filled elements.
    pub fn filled(&self) -> &[T]
        ensures { result.now ≡ filled_part self.now }
    {
        &self.slice[0..self.len()]
    }

    /// Where `n` more elements go, if there is room for them.
    fn place(&self, n: usize) -> Result<usize, NoRoom>
        ensures { OkIff result (n ≤ room_of self.now) (counted self.now) }
    {
        if self.room() < n {
            return Err(NoRoom);
        }
        // A count past the end has no room behind it, but is no place in the slice either.
        Ok(self.len())
    }

    /// Counts `k` more elements as filled, or as many as there is room for. They were written
    /// through the part behind the count, lent on as `&mut area.slice[at..]`.
    // Kept: callers lend `&mut area.slice[at..]`. Tried as a method that returns this part; the check proves nothing of the area once the part is lent.
    pub fn advance(&mut self, k: usize)
        ensures { self.new ≡ advanced self.old k }
    {
        self.count += k.min(self.room());
    }
}

impl<'b, T: Copy> Area<'b, T> {
    /// Appends the elements, all or none.
    pub fn append(&mut self, xs: &[T]) -> Result<(), NoRoom>
        ensures fits { is_ok result ≡ nat_le (length xs.now) (room_of self.old) }
        ensures after { self.new ≡ (if is_ok result then appended self.old xs.now else self.old) }
    {
        let at = self.place(xs.len())?;
        self.slice[at..at + xs.len()].copy_from_slice(xs);
        self.count += xs.len();
        Ok(())
    }

    /// Appends `n` copies of `x`, all or none.
    pub fn append_copies(&mut self, n: usize, x: T) -> Result<(), NoRoom>
        ensures fits { is_ok result ≡ nat_le n (room_of self.old) }
        ensures after { self.new ≡ (if is_ok result then appended self.old (replicate n x) else self.old) }
    {
        let at = self.place(n)?;
        fill_all(&mut self.slice[at..at + n], x);
        self.count += n;
        Ok(())
    }
}

impl<'b, T: Blank> Area<'b, T> {
    /// Sets the count back to `n`, or leaves it where it is less; all behind it is blank then.
    pub fn set_back(&mut self, n: usize)
        ensures { self.new ≡ blanked T.Blank.blank_is self.old n }
    {
        self.blank_from(n.min(self.count));
    }

    /// Makes the area empty, and all of it blank.
    pub fn blank_all(&mut self)
        ensures { self.new ≡ emptied T.Blank.blank_is self.old }
    {
        self.blank_from(0);
    }

    /// Sets the count to `count`; all behind it is blank then.
    fn blank_from(&mut self, count: usize)
        ensures { self.new ≡ blank_from T.Blank.blank_is self.old count }
    {
        let at = count.min(self.slice.len());
        fill_all(&mut self.slice[at..], T::blank());
        self.count = count;
    }
}
