// Where the reader of a line stands: between two bytes, behind the first digit of one, or past a character that is no digit.
#[derive(Clone, Copy)]
pub enum State {
    Whole,
    Half { high: u8 },
    NoDigit,
}
