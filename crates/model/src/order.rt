// Names, records and blocks are ordered by their fields, from the first to the last.
// One impl for each: the gate takes none that a macro writes, and a generic one would have to be told each of these names.
ghost use Rattle.model.specs.Names.{same_name};
ghost use Rattle.model.specs.Edits.{same_accept, same_map};
ghost use Rattle.model.specs.Orders.{rank_accept, rank_map, rank_name, rank_record, same_record, name_fields, record_fields, accept_fields, map_fields};
ghost use Rattle.sets.proofs.Listing.{lex_says};
ghost use Rattle.model.specs.ByFields.{name_order, record_order, accept_order, map_order};

use crate::blocks::{AcceptBlock, MapBlock};
use crate::names::Name;
use crate::records::Record;
use sets::order::Ordered;

impl Ordered for Name {
    ghost rank = { rank_name };

    ghost same = { same_name };

    ghost says = { λ x y. lex_says (name_fields x) (name_fields y) };

    ghost flips = { name_order.flips };

    ghost rises = { name_order.rises };

    ghost agrees = { name_order.agrees };

    ghost whole = { name_order.whole };
}

impl Ordered for Record {
    ghost rank = { rank_record };

    ghost same = { same_record };

    ghost says = { λ x y. lex_says (record_fields x) (record_fields y) };

    ghost flips = { record_order.flips };

    ghost rises = { record_order.rises };

    ghost agrees = { record_order.agrees };

    ghost whole = { record_order.whole };
}

impl Ordered for AcceptBlock {
    ghost rank = { rank_accept };

    ghost same = { same_accept };

    ghost says = { λ x y. lex_says (accept_fields x) (accept_fields y) };

    ghost flips = { accept_order.flips };

    ghost rises = { accept_order.rises };

    ghost agrees = { accept_order.agrees };

    ghost whole = { accept_order.whole };
}

impl Ordered for MapBlock {
    ghost rank = { rank_map };

    ghost same = { same_map };

    ghost says = { λ x y. lex_says (map_fields x) (map_fields y) };

    ghost flips = { map_order.flips };

    ghost rises = { map_order.rises };

    ghost agrees = { map_order.agrees };

    ghost whole = { map_order.whole };
}
