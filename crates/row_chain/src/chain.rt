// Linked slots of which none is lost, and whose rows ascend along their chain.
ghost use Rattle.std.specs.Prelude.{◌≡◌, ◌≤◌, [], length, is_ok, MatchResult};
ghost use Rattle.std.specs.Option.{option_map};
ghost use Rattle.byte_strings.specs.Bytes.{order};
ghost use Rattle.ordered_table.specs.Table.{Ascending, holds, place};
ghost use Rattle.storage.specs.Checks.{first, settled};
ghost use Rattle.storage.specs.Pairs.{next};
ghost use Rattle.storage.specs.Places.{next_place};
ghost use Rattle.storage.specs.Refusals.{verdict};
ghost use Rattle.storage.specs.Rows.{limit_checks};
ghost use Rattle.row_chain.specs.Chains.{Whole, rows};
ghost use Rattle.row_chain.specs.Links.{links, follow, slot_before};
ghost use Rattle.row_chain.specs.Seats.{Seated};

use crate::links::LinkedSlots;
use crate::seat::Seat;
use crate::slot::Slot;
use byte_strings::compare;
use std::cmp::Ordering;
use storage::{PositionMark, Refused, RowFault, RowSpace};

#[derive(Drop)]
pub struct RowChain<'a> {
    pub(crate) linked: LinkedSlots<'a>,
    ghost within: { linked.count ≤ length linked.slots.now },
    ghost whole: { Whole linked },
    ghost ascending: { Ascending order (rows linked) },
}

impl<'a> RowChain<'a> {
    ghost use Rattle.row_chain.specs.Files.{held, limit_of};

    // A file with no row and that row limit. A limit outside 1 to 16,384, or above what the memory holds, is refused and
    // the memory handed back. A line over `RowSpace`, as for every row file: no trait of makers is plainer.
    pub fn new(
        memory: &'a mut [Slot],
        limit: usize,
    ) -> Result<RowChain<'a>, Refused<&'a mut [Slot], RowFault>>
        ensures value { verdict result ≡ settled (first (limit_checks limit (length memory.old))) }
        ensures cases { MatchResult result (λ made. (held made ≡ []) × (limit_of made ≡ limit)) (λ refused. refused.given.now ≡ memory.old) }
    {
        Ok(RowChain::over(RowSpace::new(memory, limit)?))
    }

    // A file with no row, which may come to hold as many as the space has slots.
    fn over(space: RowSpace<'a, Slot>) -> RowChain<'a>
        ensures rows { held result ≡ [] }
        ensures limit { limit_of result ≡ length space.entry.cells.now }
    {
        let slots = space.into_cells();
        // all slots make one free chain
        for (i, slot) in slots.iter_mut().enumerate() {
            slot.next = i + 1;
        }
        RowChain {
            linked: LinkedSlots {
                slots,
                head: 0,
                free: 0,
                count: 0,
            },
        }
    }

    // Where the row stands, or else would stand. A loop, since the seat needs the slot before as well, and a closure for
    // `successors` would have to index the slots at any number.
    pub(crate) fn seek(&self, row: &[u8]) -> Result<Seat, Seat>
        ensures found { is_ok result ≡ holds order (rows self.now.linked) row.now }
        ensures seat { MatchResult result (Seated self.now.linked row.now) (Seated self.now.linked row.now) }
    {
        let slots = &*self.linked.slots;
        let mut before = None;
        let mut at = self.linked.head;
        for index in 0..self.linked.count {
            let slot = &slots[at];
            match compare(slot.row.as_slice(), row) {
                Ordering::Less => {
                    before = Some(at);
                    at = slot.next;
                }
                Ordering::Equal => return Ok(Seat { index, before, at }),
                Ordering::Greater => return Err(Seat { index, before, at }),
            }
        }
        Err(Seat {
            index: self.linked.count,
            before,
            at,
        })
    }

    // The lowest row at or above the string, or strictly above it.
    pub(crate) fn next(&self, from: &[u8], mark: PositionMark) -> Option<&[u8]>
        ensures { option_map (λ row. row.now) result ≡ next mark from.now (rows self.now.linked) }
    {
        let seat = self.seek_next(from, mark);
        if seat.index >= self.linked.count {
            return None;
        }
        let slots = &*self.linked.slots;
        Some(slots[seat.at].row.as_slice())
    }

    // Where it stands, or the seat behind the last row. So does a table of rows with places; here a link leads on.
    fn seek_next(&self, from: &[u8], mark: PositionMark) -> Seat
        ensures index { result.index ≡ next_place mark (holds order (rows self.now.linked) from.now) (place order (rows self.now.linked) from.now) }
        ensures before { result.before ≡ slot_before (links self.now.linked.slots.now) self.now.linked.head result.index }
        ensures at { result.at ≡ follow (links self.now.linked.slots.now) self.now.linked.head result.index }
    {
        match (self.seek(from), mark) {
            (Ok(seat), PositionMark::Beyond) => Seat {
                index: seat.index + 1,
                before: Some(seat.at),
                at: self.linked.slots[seat.at].next,
            },
            (Ok(seat), PositionMark::At) | (Err(seat), _) => seat,
        }
    }
}
