// The part of a line that a piece of input does not end.
ghost use Rattle.splitter.specs.Carrying.{IsCarried, IsCarried-prop};

use crate::KEPT_MOST;

// The part of a line that has come so far: those of its bytes that decide its answer, and zeros after
// them.
#[derive(Clone, Copy, Debug, PartialEq, Eq)]
pub struct Carried {
    pub bytes: [u8; KEPT_MOST],
    pub len: usize,
    pub ghost is_carried: { IsCarried bytes len } by { IsCarried-prop bytes len },
}

impl Carried {
    ghost use Rattle.std.specs.Prelude.{◌≡◌, []};
    ghost use Rattle.splitter.specs.Splitting.{carried_of, part_of};

    // The bytes that are carried.
    pub fn as_slice(&self) -> &[u8]
        ensures { result.now ≡ part_of self.now }
    {
        &self.bytes[..self.len]
    }

    // Carries nothing from now on.
    pub fn clear(&mut self)
        ensures { self.new ≡ carried_of [] }
    {
        *self = crate::nothing_carried();
    }
}
