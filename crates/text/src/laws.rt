ghost use Rattle.text.specs.Laws.{WrittenRead, ReadWritten, WidthKept, RowReadBack, RowSpelledBack, RowFits, AddressReadBack, AddressSpelledBack};

// A number that is written is read back, and one that is read has one spelling of its width.
pub fn numbers_stand() -> u8
    ensures written { WrittenRead }
    ensures read { ReadWritten }
    ensures width { WidthKept }
{
    0
}

// So it is with rows and address lines.
pub fn rows_stand() -> u8
    ensures row { RowReadBack }
    ensures row_spelled { RowSpelledBack }
    ensures row_fits { RowFits }
    ensures address { AddressReadBack }
    ensures address_spelled { AddressSpelledBack }
{
    0
}
