ghost use Rattle.std.specs.Prelude.{◌≡◌};
ghost use Rattle.text.specs.Digits.{digit_value, digit_code};

// The value of a hexadecimal digit. Upper case is no digit, so that each number has one spelling.
pub fn digit(c: char) -> Option<u8>
    ensures { result ≡ digit_value c }
{
    match c {
        '0'..='9' => Some(c as u8 - b'0'),
        'a'..='f' => Some(c as u8 - b'a' + 10),
        _ => None,
    }
}

// The digit of a value's low four bits.
pub fn digit_char(value: u8) -> char
    ensures { result ≡ digit_code value }
{
    char::from_digit(u32::from(value % 16), 16).unwrap()
}
