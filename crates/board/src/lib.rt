#![tactic(auto)]

// The worked cases: a board, and what the reference model, which every contract of the library cites, answers on it.
ghost use Rattle.std.specs.Prelude.{[], ◌∷◌};
ghost use Rattle.model.specs.Nets.{fresh};
ghost use Rattle.model.specs.Faults.{plain, at_name};
ghost use Rattle.model.specs.Edits.{accept, map_to, over, drop_accept, granted, refused, net_after};
ghost use Rattle.board.specs.Board.{named, takes, sends, board, board_edits, Fed, Grants, Refuses, Looks, LooksShort, Meets, ringed};
ghost use Rattle.board.specs.Laws.{JumpsExact, JumpsFirst, JumpsEnd};

// Each case starts from the board. The function does nothing: the check asks for what its contract says.
pub fn worked_cases_stand() -> u8
    ensures made { Fed (fresh 2) board_edits (granted ∷ granted ∷ granted ∷ granted ∷ granted ∷ []) board }
    ensures accepted { Looks board 0x8010 (named 65 0x8010 ∷ []) }
    ensures both { Looks board 0x4010 (named 900 0x10 ∷ named 65 0x8010 ∷ []) }
    ensures below { Looks board 0x4100 (named 900 0x100 ∷ []) }
    ensures nothing { Looks board 0x5000 [] }
    ensures short { LooksShort board 0x4010 1 }
    ensures back { Refuses board (over 1 0) (at_name 8 0 0) }
    ensures again { Refuses board (accept (takes 1 0x8000 0x8fff)) (plain 5) }
    ensures past { Refuses board (map_to (sends 0 0xffff_ffff_ffff_fffe 0xffff_ffff_ffff_ffff 1 0xffff_ffff_ffff_ffff)) (plain 4) }
    ensures last { Grants board (map_to (sends 0 0xffff_ffff_ffff_ffff 0xffff_ffff_ffff_ffff 1 0xffff_ffff_ffff_ffff)) }
    ensures longest { Grants board (map_to (sends 3 0 0x3e 3 1)) }
    ensures met { Meets (net_after board (map_to (sends 3 0 0x3e 3 1))) 3 0 64 }
    ensures longer { Refuses board (map_to (sends 3 0 0x3f 3 1)) (at_name 8 3 0) }
    ensures ring { Fed board (accept (takes 5 0 0xffff_ffff_ffff_ffff) ∷ over 4 5 ∷ over 5 4 ∷ drop_accept (takes 5 0 0xffff_ffff_ffff_ffff) ∷ []) (granted ∷ granted ∷ granted ∷ refused (at_name 8 4 0) ∷ []) ringed }
{
    0
}

// The search by which the cases about walks are computed finds the first overfull name of any net.
pub fn jumps_are_exact() -> u8
    ensures exact { JumpsExact }
    ensures first { JumpsFirst }
    ensures ends { JumpsEnd }
{
    0
}
