// Rows and marks drawn by chance.
use byte_strings::ByteString;
use dice::Dice;
use storage::PositionMark;

// The longest string that is drawn, longer than any row.
const LONGEST: usize = 70;

// One of the letters a to d.
fn draw_letter(dice: &mut Dice) -> u8 {
    b"abcd"[dice.throw(4) as usize]
}

// A row: mostly three letters, now and then as long as a row may be, longer, or empty.
pub(crate) fn draw_row(dice: &mut Dice) -> ByteString<LONGEST> {
    let len = match dice.throw(24) {
        0 => 0,
        1 => 66,
        2 => 67,
        3 => LONGEST,
        4 => 2,
        _ => 3,
    };
    let mut row = [draw_letter(dice); LONGEST];
    row[1] = draw_letter(dice);
    row[2] = draw_letter(dice);
    ByteString::front_of(&row[..len])
}

pub(crate) fn draw_mark(dice: &mut Dice) -> PositionMark {
    match dice.throw(2) {
        0 => PositionMark::At,
        _ => PositionMark::Beyond,
    }
}
