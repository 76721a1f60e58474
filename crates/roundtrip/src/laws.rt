ghost use Rattle.roundtrip.specs.Laws.{TablesStorable, WrittenLoads, BytesReturn};

// What a table keeps can be written and loaded again: it is the same table, and it is written with the same bytes.
pub fn texts_come_back() -> u8
    ensures storable { TablesStorable }
    ensures back { WrittenLoads }
    ensures bytes { BytesReturn }
{
    0
}
