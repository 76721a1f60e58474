ghost use Rattle.std.specs.Prelude.{◌≡◌};
ghost use Rattle.blocks.specs.Destinations.{destination_of, number_of, overlay_of};

// Where a step goes: to a node, or to the space below.
#[derive(Clone, Copy, PartialEq, Eq, Debug)]
pub enum Destination {
    Node(u8),
    Below,
}

// Of the numbers that stand for a destination, 32 is the space below.
impl From<u8> for Destination {
    ghost from_gives = { λ number d. d ≡ destination_of number };

    fn from(number: u8) -> Destination {
        match number {
            32 => Destination::Below,
            node => Destination::Node(node),
        }
    }
}

// The number that stands for a destination.
impl From<Destination> for u8 {
    ghost from_gives = { λ d number. number ≡ number_of d };

    fn from(destination: Destination) -> u8 {
        match destination {
            Destination::Node(node) => node,
            Destination::Below => 32,
        }
    }
}

// Where an overlay of this number sends to: at 33 nowhere.
pub(crate) fn overlay(number: u8) -> Option<Destination>
    ensures { result ≡ overlay_of number }
{
    (number < 33).then(|| Destination::from(number))
}
