ghost use Rattle.std.specs.Prelude.{◌≡◌, ◌≢◌, ◌↔◌, ◌<◌, None, IfSome};
ghost use Rattle.casper_root.specs.Choice.{current_slot, IsCurrent};
ghost use Rattle.casper_root.specs.Format.{open_byte};
ghost use Rattle.casper_root.specs.Slots.{body_place, gate_place, other_slot};

/// One of the two places of a root: A has its body in block 1 and its gate in block 2, B in blocks 3 and 4.
#[derive(Clone, Copy, Debug, PartialEq, Eq)]
pub enum Slot {
    A,
    B,
}

impl Slot {
    /// The block of its body.
    pub fn body_place(self) -> u32
        ensures place { result ≡ body_place self }
        ensures fixed { result < 5 }
    {
        match self {
            Slot::A => 1,
            Slot::B => 3,
        }
    }

    /// The block of its gate.
    pub fn gate_place(self) -> u32
        ensures place { result ≡ gate_place self }
        ensures fixed { result < 5 }
    {
        match self {
            Slot::A => 2,
            Slot::B => 4,
        }
    }

    /// The other slot, that of the spare root.
    pub fn other_slot(self) -> Slot
        ensures { result ≡ other_slot self }
    {
        match self {
            Slot::A => Slot::B,
            Slot::B => Slot::A,
        }
    }
}

/// The first byte of an open gate.
pub const OPEN: u8 = 0xA5;

/// The slot of the current root: the one with an open gate and the greater sequence number, A where both are equal.
/// There is none exactly where neither gate is open.
pub fn pick(gate_a: u8, gate_b: u8, seq_a: u64, seq_b: u64) -> Option<Slot>
    ensures slot { result ≡ current_slot gate_a gate_b seq_a seq_b }
    ensures current { IfSome result (IsCurrent gate_a gate_b seq_a seq_b) }
    ensures none { (result ≡ None) ↔ ((gate_a ≢ open_byte) × (gate_b ≢ open_byte)) }
{
    match (gate_a == OPEN, gate_b == OPEN) {
        (false, false) => None,
        (true, false) => Some(Slot::A),
        (false, true) => Some(Slot::B),
        (true, true) if seq_a < seq_b => Some(Slot::B),
        (true, true) => Some(Slot::A),
    }
}

#[cfg(test)]
mod tests {
    use super::*;

    #[test]
    fn picks_the_greater_open_root(rt: HostRuntime) {
        assert_eq!(rt; pick(OPEN, OPEN, 8, 9), Some(Slot::B));
        assert_eq!(rt; pick(OPEN, OPEN, 9, 8), Some(Slot::A));
        assert_eq!(rt; pick(OPEN, OPEN, 8, 8), Some(Slot::A));
        assert_eq!(rt; pick(OPEN, 0, 8, 9), Some(Slot::A));
        assert_eq!(rt; pick(0, 0x5A, 8, 9), None);
    }
}
