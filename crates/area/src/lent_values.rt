//! Areas as values' areas, for values of any kind that an element holds.

ghost use Rattle.area.specs.Lent.{Lent, lent, more, has_room, held_count, set_back, is_missing};
ghost use Rattle.area.specs.LentLaws.{lent_laws};

use crate::area::{Area, NoRoom};
use crate::values_buffer::{DataType, ValuesBuffer};

impl<'b, T: DataType> ValuesBuffer<T> for Area<'b, T> {
    ghost State = { Lent };

    ghost state = { λ s. lent T.DataType.means s };

    ghost appended = { more };

    ghost fits = { has_room };

    ghost count = { held_count };

    ghost blanked = { λ s n. set_back (T.DataType.means T.Blank.blank_is) s n };

    ghost missing = { is_missing };

    fn len(&self) -> usize {
        Area::len(self)
    }

    fn is_missing(&self) -> bool {
        !self.there
    }

    #[tactic(auto, using(crate::proofs::Shows::shows_append_all))]
    fn append_slice(&mut self, xs: &[T]) -> Result<(), NoRoom> {
        self.append(xs)
    }

    #[tactic(auto, using(crate::proofs::Shows::front_reply, crate::proofs::Shows::front_after))]
    fn append_front(&mut self, xs: &[T]) -> usize {
        let n = xs.len().min(self.room());
        let _ = self.append(&xs[..n]);
        n
    }

    #[tactic(auto, using(crate::proofs::Shows::shows_blank))]
    fn set_back(&mut self, n: usize) {
        Area::set_back(self, n);
    }

    ghost laws = { lent_laws (T.DataType.means T.Blank.blank_is) };
}
