ghost use Rattle.std.specs.Prelude.{◌≡◌, ◌/◌, ◌%◌, ◌^◌};
ghost use Rattle.edge_order.specs.Keys.{unpacked};

// The weight and the number of an edge in one number, so that keys compare by weight, then by number.
#[derive(Clone, Copy, PartialEq, Eq, PartialOrd, Ord)]
pub(crate) struct Key {
    packed: u64,
}

const NUMBERS: u64 = 1 << 32;

impl Key {
    pub(crate) fn new(weight: u32, number: u32) -> Key
        ensures { unpacked result ≡ (weight, number) }
    {
        Key {
            packed: u64::from(weight) * NUMBERS + u64::from(number),
        }
    }

    pub(crate) fn weight(self) -> u32
        ensures { result ≡ (unpacked self).0 }
    {
        (self.packed / NUMBERS) as u32
    }

    pub(crate) fn number(self) -> u32
        ensures { result ≡ (unpacked self).1 }
    {
        (self.packed % NUMBERS) as u32
    }
}
