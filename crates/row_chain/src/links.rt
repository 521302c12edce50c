// Slots in two chains, one of the rows in their order and one of the free slots. Both are told by numbers, of a first
// slot and of the next one in each, and their lengths are known, so the link of a last slot does not matter; an `Option`
// there would be a second sign of the end.
ghost use Rattle.std.specs.Prelude.{◌<◌, length};
ghost use Rattle.byte_strings.specs.Texts.{text};
ghost use Rattle.row_chain.specs.Links.{Among};
ghost use Rattle.row_chain.specs.Seats.{Relinked, Spliced, Unlinked};

use crate::seat::Seat;
use crate::slot::Slot;
use storage::KeyRow;

// The caller lends the slots for the file's life, and no call on a file takes heap: numbers link them, not boxes.
#[derive(Drop)]
pub struct LinkedSlots<'a> {
    pub(crate) slots: &'a mut [Slot],
    // the first slot with a row, and the first free one
    pub(crate) head: usize,
    pub(crate) free: usize,
    // the number of rows
    pub(crate) count: usize,
}

// That what leads to a seat is one of these slots ties a seat to a chain, so neither type can say it.
impl<'a> LinkedSlots<'a> {
    // Puts the row into the first free slot, and that slot into the seat.
    pub(crate) fn splice(&mut self, seat: Seat, row: KeyRow)
        requires room { self.old.count < length self.old.slots.now }
        requires fresh { self.old.free < length self.old.slots.now }
        requires before { Among (length self.old.slots.now) seat.before }
        ensures { Spliced self.old seat (text row) self.new }
    {
        let fresh = self.free;
        self.free = self.slots[fresh].next;
        self.slots[fresh] = Slot { row, next: seat.at };
        self.relink(seat.before, fresh);
        self.count += 1;
    }

    // Takes the slot out of the seat, and puts it before the free ones.
    pub(crate) fn unlink(&mut self, seat: Seat)
        requires some { 0 < self.old.count }
        requires at { seat.at < length self.old.slots.now }
        requires before { Among (length self.old.slots.now) seat.before }
        ensures { Unlinked self.old seat self.new }
    {
        let next = self.slots[seat.at].next;
        self.slots[seat.at].next = self.free;
        self.free = seat.at;
        self.relink(seat.before, next);
        self.count -= 1;
    }

    // Lets what leads to a seat, a link or the head, lead to another slot.
    fn relink(&mut self, before: Option<usize>, to: usize)
        requires { Among (length self.old.slots.now) before }
        ensures { Relinked self.old before to self.new }
    {
        match before {
            Some(slot) => self.slots[slot].next = to,
            None => self.head = to,
        }
    }
}
