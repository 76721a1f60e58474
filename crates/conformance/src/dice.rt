// A small generator of its own, so that every run makes the same cases.
use plain::words::Stretch;

#[derive(Clone, Copy)]
pub struct Dice {
    state: u64,
}

// Addresses at which blocks are made to begin and end, so that many of them meet.
const SEAMS: [u64; 16] = [
    0,
    1,
    0xff,
    0x100,
    0x1ff,
    0x200,
    0x3ff,
    0x400,
    0xfff,
    0x1000,
    0x7fff_ffff_ffff_ffff,
    0x8000_0000_0000_0000,
    0xffff_ffff_ffff_fc00,
    0xffff_ffff_ffff_feff,
    0xffff_ffff_ffff_fffe,
    0xffff_ffff_ffff_ffff,
];

impl Dice {
    pub fn new(seed: u64) -> Dice {
        Dice { state: seed }
    }

    // splitmix64
    pub fn roll(&mut self) -> u64 {
        self.state = self.state.wrapping_add(0x9e37_79b9_7f4a_7c15);
        let mut z = self.state;
        z = (z ^ (z >> 30)).wrapping_mul(0xbf58_476d_1ce4_e5b9);
        z = (z ^ (z >> 27)).wrapping_mul(0x94d0_49bb_1331_11eb);
        z ^ (z >> 31)
    }

    // A number below n, or 0.
    pub fn below(&mut self, n: u64) -> u64 {
        self.roll().checked_rem(n).unwrap_or(0)
    }

    // A byte below n, or 0.
    pub fn byte(&mut self, n: u8) -> u8 {
        let [low, ..] = self.below(u64::from(n)).to_le_bytes();
        low
    }

    pub fn once_in(&mut self, n: u64) -> bool {
        self.below(n) == 0
    }

    // One of the items, where there is any.
    pub fn one_of<T: Copy>(&mut self, items: &[T]) -> Option<T> {
        let place = self.below(items.len() as u64);
        items.get(place as usize).copied()
    }

    // Mostly a seam or a neighbour of one, at times any address.
    pub fn address(&mut self) -> u64 {
        let seam = self.one_of(&SEAMS).unwrap_or(0);
        match self.below(16) {
            0 => self.roll(),
            1 => seam.wrapping_add(1),
            2 => seam.wrapping_sub(1),
            3 => seam.wrapping_add(self.below(0x40)),
            _ => seam,
        }
    }

    // Two addresses, the second seldom below the first.
    pub fn stretch(&mut self) -> Stretch {
        let one = self.address();
        let two = if self.once_in(3) {
            one.wrapping_add(self.below(0x300))
        } else {
            self.address()
        };
        if one <= two || self.once_in(20) {
            Stretch { lo: one, hi: two }
        } else {
            Stretch { lo: two, hi: one }
        }
    }

    // Mostly room for every list, at times for a few names only.
    pub fn room(&mut self) -> usize {
        if self.once_in(4) {
            usize::from(self.byte(4))
        } else {
            64
        }
    }
}
