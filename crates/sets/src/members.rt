//! The numbers of a set, one at a time.
ghost use Rattle.std.specs.Iterator.{item_count};

use crate::bit_sets::BitSet;
use crate::word::Word;

/// The numbers of a set that are left, from the lowest up.
#[derive(Clone, Debug, Drop)]
pub struct Members<W> {
    pub rest: BitSet<W>,
}

impl<W: Word> Iterator for Members<W> {
    ghost use Rattle.sets.specs.Members.{TakesLowest, members_left};

    type Item = usize;

    ghost next_gives = { TakesLowest W.number };

    ghost remaining = { item_count (members_left W.number) };

    fn next(&mut self) -> Option<usize> {
        Some(usize::from(self.rest.pop_lowest()?))
    }
}

impl<W: Word> IntoIterator for BitSet<W> {
    ghost use Rattle.sets.specs.Members.{ListsMembers};

    type Item = usize;

    type IntoIter = Members<W>;

    ghost into_iter_gives = { ListsMembers W.number };

    fn into_iter(self) -> Members<W> {
        Members { rest: self }
    }
}
