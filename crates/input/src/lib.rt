#![tactic(auto)]

// The tape, a buffer of it at a time: what is left of a buffer goes to its front, and what has arrived is read behind it.
ghost use Rattle.input.specs.Buffers.{buffer_size};
ghost use Rattle.std.specs.Prelude.{◌≡◌, ◌≤◌, take, length};

use std::io;
use std::io::Read;

// How much of the tape is held. specs/Buffers.antt names it once more.
pub const BUFFER_SIZE: usize = 65536;

// The bytes at hand are the first `have`: an array with its count, since there is no heap.
#[derive(Drop)]
pub struct Buffer {
    pub bytes: [u8; BUFFER_SIZE],
    pub have: usize,
    ghost within: { have ≤ buffer_size },
}

impl Buffer {
    ghost use Rattle.input.specs.Filled.{hand, rest, Filled, Grown};

    // No bytes at hand.
    pub fn new() -> Self
        ensures { result.have ≡ 0 }
    {
        Buffer {
            bytes: [0; BUFFER_SIZE],
            have: 0,
        }
    }

    pub fn at_hand(&self) -> &[u8]
        ensures bytes { result.now ≡ hand self.now }
        ensures count { length result.now ≡ self.now.have }
    {
        &self.bytes[..self.have]
    }

    // The bytes from a place on, and behind them what one read gives; how many came, none where the input ended.
    #[tactic(auto, using(crate::proofs::Moving::filling))]
    pub fn refill<R: Read>(&mut self, input: &mut R, at: usize) -> io::Result<usize>
        requires { at ≤ self.old.have }
        ensures { Filled (rest self.old at) (hand self.new) (R.remaining input.old) (R.remaining input.new) result }
    {
        let left = self.have - at;
        self.bytes.copy_within(at..self.have, 0);
        self.have = left;
        let got = input.read(&mut self.bytes[left..])?;
        self.have = left + got;
        Ok(got)
    }

    // More is read until so many bytes are at hand, or the input ends.
    #[tactic(auto, using(crate::proofs::Growing::growing))]
    pub fn fill_to<R: Read>(&mut self, input: &mut R, least: usize) -> io::Result<()>
        requires { least ≤ buffer_size }
        ensures { Grown (hand self.old) (hand self.new) (R.remaining input.old) (R.remaining input.new) least result }
    {
        while self.at_hand().len() < least {
            if self.refill(input, 0)? == 0 {
                return Ok(());
            }
        }
        Ok(())
    }
}
